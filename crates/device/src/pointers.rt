// Three pointers of three types: none can be taken for another. Each is held wider than the chip does, so that "too wide" can be said.
ghost use Rattle.std.specs.Prelude.{◌≡◌};
ghost use Rattle.device.specs.Device.{chip};
ghost use Rattle.device.specs.Lent.{word_at};
ghost use Rattle.device.specs.Pointers.{address_fits, ram_pointer_fits, rom_pointer_fits, next_address, rom_pointer_down, low_after, ram_pointer_moved, ram_pointer_of, rom_pointer_of};

use crate::sizes::Chip;

// Counts instruction words: PC, a stack cell.
#[repr(C)]
#[derive(Clone, Copy, Default)]
pub struct InstructionAddress(pub u16);

// Points at a RAM cell: DP, a row from bit 4 up and a place in it.
#[repr(C)]
#[derive(Clone, Copy, Default)]
pub struct RamPointer(pub u16);

// Points at a data ROM cell: RP.
#[repr(C)]
#[derive(Clone, Copy, Default)]
pub struct RomPointer(pub u16);

impl InstructionAddress {
    pub fn fits<C: Chip>(self) -> bool
        ensures { result ≡ address_fits (chip C.LARGE) self }
    {
        self.0 < C::WORDS
    }

    // One word on; the last goes to 0.
    pub fn next<C: Chip>(self) -> InstructionAddress
        ensures { result ≡ next_address (chip C.LARGE) self }
    {
        InstructionAddress(self.0.wrapping_add(1) % C::WORDS)
    }

    // The word there; 0 beyond the program's end.
    pub fn word(self, program: &[u32]) -> u32
        ensures { result ≡ word_at program.now self }
    {
        program.get(self.0 as usize).copied().unwrap_or(0)
    }
}

impl RomPointer {
    pub fn fits<C: Chip>(self) -> bool
        ensures { result ≡ rom_pointer_fits (chip C.LARGE) self }
    {
        self.0 < C::CELLS
    }

    // The low bits of a bus value.
    pub fn of_bus<C: Chip>(bus: u16) -> RomPointer
        ensures { result ≡ rom_pointer_of (chip C.LARGE) bus }
    {
        RomPointer(bus % C::CELLS)
    }

    // One cell down; 0 goes to the last.
    pub fn down<C: Chip>(self) -> RomPointer
        ensures { result ≡ rom_pointer_down (chip C.LARGE) self }
    {
        RomPointer(self.0.wrapping_add(C::CELLS - 1) % C::CELLS)
    }
}

// The low four bits of DP after DPL.
fn low_after(dpl: u8, low: u16) -> u16
    ensures { result ≡ low_after dpl low }
{
    match dpl {
        0 => low,
        1 => low.wrapping_add(1) % 16,
        2 => low.wrapping_add(15) % 16,
        3 => 0,
        _ => low,
    }
}

impl RamPointer {
    pub fn fits<C: Chip>(self) -> bool
        ensures { result ≡ ram_pointer_fits (chip C.LARGE) self }
    {
        self.0 < C::RAM
    }

    // The low bits of a bus value.
    pub fn of_bus<C: Chip>(bus: u16) -> RamPointer
        ensures { result ≡ ram_pointer_of (chip C.LARGE) bus }
    {
        RamPointer(bus % C::RAM)
    }

    // DPL for the place in the row, DPH-M for the row.
    pub fn moved(self, dpl: u8, dphm: u8) -> RamPointer
        ensures { result ≡ ram_pointer_moved dpl dphm self }
    {
        let at = self.0;
        let row = at / 16 ^ (dphm as u16);
        RamPointer(row * 16 + low_after(dpl, at % 16))
    }
}
