// What a call hands back.
ghost use Rattle.std.specs.Prelude.{◌≡◌};
ghost use Rattle.machine.specs.Replies.{reply_of};

use device::Registers;

// The reply's number, words done and value, and the registers and TRB after the call. A number as in `words::AfterWord`, whose it is where a run is refused.
#[derive(Clone, Copy)]
pub struct AfterEvent {
    pub number: u8,
    pub words: u16,
    pub value: u16,
    pub registers: Registers,
    pub trb: u16,
}

// What the desk is told, apart from the registers.
#[repr(C)]
#[derive(Clone, Copy)]
pub struct Reply {
    pub number: u8,
    pub words: u16,
    pub value: u16,
}

impl From<AfterEvent> for Reply {
    ghost from_gives = { λ after reply. reply ≡ reply_of after };

    fn from(after: AfterEvent) -> Reply {
        Reply {
            number: after.number,
            words: after.words,
            value: after.value,
        }
    }
}
