// The register record: every register of 01, and no more. The uPD77C25 has one register besides, TRB, which stands beside the record.
ghost use Rattle.std.specs.Prelude.{◌≡◌};
ghost use Rattle.device.specs.Device.{chip};
ghost use Rattle.device.specs.Registers.{fresh_registers, registers_fit};

use crate::pointers::{InstructionAddress, RamPointer, RomPointer};
use crate::sizes::Chip;
use alu::Flags;

// The six flags of A, and again of B.
#[repr(C)]
#[derive(Clone, Copy, Default)]
pub struct BothFlags {
    pub a: Flags,
    pub b: Flags,
}

// The order of the fields was found by counting the instructions of a run (docs/DECISIONS.md); no proof depends on it.
#[repr(C)]
#[derive(Clone, Copy, Default)]
pub struct Registers {
    pub pc: InstructionAddress,
    pub stack0: InstructionAddress,
    pub stack1: InstructionAddress,
    pub stack2: InstructionAddress,
    pub stack3: InstructionAddress,
    pub flags: BothFlags,
    pub si: u16,
    pub siack: bool,
    pub depth: u8,
    pub a: u16,
    pub b: u16,
    pub k: u16,
    pub l: u16,
    pub tr: u16,
    pub dr: u16,
    pub so: u16,
    pub dp: RamPointer,
    pub rp: RomPointer,
    pub sr: u16,
    pub soack: bool,
    pub sorq: bool,
}

impl Registers {
    // A machine that has run nothing.
    #[tactic(auto, unfolding(crate::specs::Registers::fresh_registers))]
    pub fn fresh() -> Registers
        ensures { result ≡ fresh_registers }
    {
        Registers::default()
    }

    // Whether every register holds what the chip's could.
    #[tactic(auto, unfolding(crate::specs::Registers::registers_fit))]
    pub fn fit<C: Chip>(self) -> bool
        ensures { result ≡ registers_fit (chip C.LARGE) self }
    {
        self.pc.fits::<C>()
            & self.stack0.fits::<C>()
            & self.stack1.fits::<C>()
            & self.stack2.fits::<C>()
            & self.stack3.fits::<C>()
            & self.dp.fits::<C>()
            & self.rp.fits::<C>()
            & (self.depth <= C::STACK)
            & (self.sr / 4 % 32 == 0)
    }
}
