// One call: one event from outside, refused or done.
ghost use Rattle.std.specs.Prelude.{◌≡◌, List, ℕ};
ghost use Rattle.refusals.specs.Refusals.{number_of};
ghost use Rattle.machine.specs.Replies.{ending};
ghost use Rattle.machine.specs.Events as spec;

use crate::replies::AfterEvent;
use crate::run::run;
use device::{Chip, Registers};
use events::{Event, Input};
use refusals::Refusal;
use words::{Images, State};

fn refuse(refusal: Refusal, registers: Registers, trb: u16) -> AfterEvent
    ensures { result ≡ record { number = number_of refusal; words = 0; value = 0; registers = registers; trb = trb } }
{
    AfterEvent {
        number: u8::from(refusal),
        words: 0,
        value: 0,
        registers,
        trb,
    }
}

fn finish(value: u16, registers: Registers, trb: u16) -> AfterEvent
    ensures { result ≡ record { number = 0; words = 0; value = value; registers = registers; trb = trb } }
{
    AfterEvent {
        number: 0,
        words: 0,
        value,
        registers,
        trb,
    }
}

// The NOP and the jump to 100H that an accepted interrupt puts in are two words done.
fn accept(registers: Registers, trb: u16) -> AfterEvent
    ensures { result ≡ record { number = 0; words = 2; value = 0; registers = registers; trb = trb } }
{
    AfterEvent {
        number: 0,
        words: 2,
        value: 0,
        registers,
        trb,
    }
}

// Event 5, or refusal 10.
#[tactic(auto, unfolding(crate::specs::Events::serial_out_ending))]
fn serial_out_event(r: Registers, trb: u16) -> AfterEvent
    ensures { (ram : List ℕ) → ending result ram ≡ spec.serial_out_ending r trb ram }
{
    if r.sorq {
        return finish(r.so, events::serial_out(r), trb);
    }
    refuse(Refusal::NothingToSend, r, trb)
}

// Event 6, or refusal 9.
#[tactic(auto, unfolding(crate::specs::Events::interrupt_ending))]
fn interrupt_event<C: Chip>(r: Registers, trb: u16) -> AfterEvent
    ensures { (ram : List ℕ) → ending result ram ≡ spec.interrupt_ending C.LARGE r trb ram }
{
    if status::ei(r.sr) {
        if C::STACK <= r.depth {
            return refuse(Refusal::StackFull, r, trb);
        }
        return accept(events::interrupt(r), trb);
    }
    finish(0, r, trb)
}

// One call: one event of a kind with a value. The events stand in one match: in a function of their own they take a dozen instructions a word more
// (docs/SPEED.md, "Forms").
#[tactic(auto, unfolding(crate::specs::Events::event_done, crate::specs::Events::kind_done))]
pub fn event<C: Chip>(state: State, images: Images, ram: &mut [u16], event: Event) -> AfterEvent
    ensures { ending result ram.new ≡ spec.event_done C.LARGE state.registers state.trb images.entry.program.now images.entry.rom.now ram.old event.kind event.value }
{
    let r = state.registers;
    let trb = state.trb;
    if !device::lengths_fit::<C>(images.program.len(), images.rom.len(), ram.len()) {
        return refuse(Refusal::WrongLength, r, trb);
    }
    if !r.fit::<C>() {
        return refuse(Refusal::RegisterTooWide, r, trb);
    }
    let input = match Input::try_from(event) {
        Ok(input) => input,
        Err(refusal) => return refuse(refusal, r, trb),
    };
    match input {
        Input::Run(count) => run::<C>(r, trb, images, ram, count),
        Input::HostRead => finish(events::byte_read(r), events::host_read(r), trb),
        Input::HostWrite(byte) => finish(0, events::host_write(r, byte), trb),
        Input::HostStatus => finish(r.sr / 0x100 % 0x100, r, trb),
        Input::SerialIn(word) => finish(0, events::serial_in(r, word), trb),
        Input::SerialOut => serial_out_event(r, trb),
        Input::Interrupt => interrupt_event::<C>(r, trb),
        Input::Reset => finish(0, events::reset_machine(r), trb),
    }
}
