// What each event other than a run does to the registers, and which kinds and values there are. What is refused otherwise is said in `machine`.
#![tactic(auto)]

ghost use Rattle.std.specs.Prelude.{◌≡◌};
ghost use Rattle.events.specs.Events as spec;

mod host;
mod input;

use device::{InstructionAddress, Registers};
pub use host::{byte_read, host_read, host_write};
pub use input::{Event, Input};

pub fn serial_in(r: Registers, word: u16) -> Registers
    ensures { result ≡ spec.serial_in r word }
{
    Registers {
        si: word,
        siack: true,
        ..r
    }
}

pub fn serial_out(r: Registers) -> Registers
    ensures { result ≡ spec.serial_out r }
{
    Registers {
        sorq: false,
        soack: true,
        ..r
    }
}

pub fn interrupt(r: Registers) -> Registers
    ensures { result ≡ spec.interrupted r }
{
    Registers {
        pc: InstructionAddress(0x100),
        sr: status::without_ei(r.sr),
        ..flow::push(r, r.pc)
    }
}

#[tactic(auto, unfolding(crate::specs::Events::reset, device::specs::Registers::fresh_registers))]
pub fn reset_machine(r: Registers) -> Registers
    ensures { result ≡ spec.reset r }
{
    let fresh = Registers::fresh();
    Registers {
        pc: fresh.pc,
        depth: 0,
        flags: fresh.flags,
        sr: 0,
        sorq: false,
        siack: false,
        soack: false,
        ..r
    }
}
