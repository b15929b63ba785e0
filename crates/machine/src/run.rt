// A run of words.
ghost use Rattle.std.specs.Prelude.{◌≡◌};
ghost use Rattle.machine.specs.Replies.{ending};
ghost use Rattle.machine.specs.Run.{ran};

use crate::replies::AfterEvent;
use device::{Chip, Registers};
use words::{Images, State};

// So many words, or those before the first that is refused.
pub(crate) fn run<C: Chip>(
    registers: Registers,
    before: u16,
    images: Images,
    ram: &mut [u16],
    count: u16,
) -> AfterEvent
    ensures { ending result ram.new ≡ ran C.LARGE count 0 registers before images.entry.program.now images.entry.rom.now ram.old }
{
    let mut q = registers;
    let mut trb = before;
    for words in 0..count {
        let done = words::one_word::<C>(State { trb, registers: q }, images, ram);
        let after = done.state.registers;
        if done.number != 0 {
            return AfterEvent {
                number: done.number,
                words,
                value: 0,
                registers: after,
                trb: done.state.trb,
            };
        }
        q = after;
        trb = done.state.trb;
    }
    AfterEvent {
        number: 0,
        words: count,
        value: 0,
        registers: q,
        trb,
    }
}
