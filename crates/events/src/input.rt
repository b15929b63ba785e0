// What comes from outside.
ghost use Rattle.std.specs.Prelude.{◌≡◌, cond, Ok, Err};
ghost use Rattle.refusals.specs.declared.Refusal.TheVariants.{NoSuchEvent};
ghost use Rattle.events.specs.Events.{allowed, asked};

use refusals::Refusal;

// An event as the desk gives it.
#[repr(C)]
#[derive(Clone, Copy)]
pub struct Event {
    pub kind: u32,
    pub value: u32,
}

// An event that there is, with a value that it takes.
#[derive(Clone, Copy)]
pub enum Input {
    Run(u16),
    HostRead,
    HostWrite(u8),
    HostStatus,
    SerialIn(u16),
    SerialOut,
    Interrupt,
    Reset,
}

impl TryFrom<Event> for Input {
    type Error = Refusal;

    ghost try_from_gives = { λ event input. asked input ≡ cond (allowed event.kind event.value) (Ok event) (Err NoSuchEvent) };

    fn try_from(event: Event) -> Result<Input, Refusal> {
        let value = event.value;
        match event.kind {
            0 if value <= 65535 => Ok(Input::Run(value as u16)),
            1 if value == 0 => Ok(Input::HostRead),
            2 if value <= 255 => Ok(Input::HostWrite(value as u8)),
            3 if value == 0 => Ok(Input::HostStatus),
            4 if value <= 65535 => Ok(Input::SerialIn(value as u16)),
            5 if value == 0 => Ok(Input::SerialOut),
            6 if value == 0 => Ok(Input::Interrupt),
            7 if value == 0 => Ok(Input::Reset),
            _ => Err(Refusal::NoSuchEvent),
        }
    }
}
