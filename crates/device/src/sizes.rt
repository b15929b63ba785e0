// The two chips: the uPD77P20, EPROM version of the uPD7720A, and the larger uPD77C25. Their sizes stand here and nowhere else.
// Which of them a machine is goes down every call as a type, so that a chip's library is compiled for that chip alone.
ghost use Rattle.std.specs.Prelude.{◌≡◌, ℕ, Bool, true, false, refl};
ghost use Rattle.device.specs.Device.{chip, lengths_fit, word_limit, cell_fits, cell_value};

pub trait Chip {
    // Whether it is the larger of the two: the definitions ask no more of a chip.
    const LARGE: bool;

    ghost LARGE: { Bool };

    // Instruction words, and the least number that one is too narrow for.
    const WORDS: u16;

    ghost WORDS: { ℕ };

    const WORD_LIMIT: u32;

    ghost WORD_LIMIT: { ℕ };

    // Data ROM cells.
    const CELLS: u16;

    ghost CELLS: { ℕ };

    // RAM cells.
    const RAM: u16;

    ghost RAM: { ℕ };

    const STACK: u8;

    ghost STACK: { ℕ };

    // Whether a data ROM cell is narrow enough for the chip.
    fn cell_fits(cell: u16) -> bool
        ensures { result ≡ cell_fits (chip LARGE) cell };

    // What a data ROM cell puts on the bus.
    fn cell_value(cell: u16) -> u16
        ensures { result ≡ cell_value (chip LARGE) cell };

    ghost words_of_the_chip: { WORDS ≡ (chip LARGE).words };

    ghost word_limit_of_the_chip: { WORD_LIMIT ≡ word_limit (chip LARGE) };

    ghost cells_of_the_chip: { CELLS ≡ (chip LARGE).cells };

    ghost ram_of_the_chip: { RAM ≡ (chip LARGE).ram };

    ghost stack_of_the_chip: { STACK ≡ (chip LARGE).stack };
}

#[derive(Clone, Copy)]
pub struct Upd77p20 {}

#[derive(Clone, Copy)]
pub struct Upd77c25 {}

impl Chip for Upd77p20 {
    const LARGE: bool = false;

    ghost LARGE = { false };

    const WORDS: u16 = 512;

    ghost WORDS = { 512 };

    const WORD_LIMIT: u32 = 1 << 23;

    ghost WORD_LIMIT = { 8388608 };

    const CELLS: u16 = 512;

    ghost CELLS = { 512 };

    const RAM: u16 = 128;

    ghost RAM = { 128 };

    const STACK: u8 = 4;

    ghost STACK = { 4 };

    // A cell has 13 bits.
    fn cell_fits(cell: u16) -> bool {
        cell < 1 << 13
    }

    fn cell_value(cell: u16) -> u16 {
        cell % (1 << 13) * 8
    }

    ghost words_of_the_chip = { refl };

    ghost word_limit_of_the_chip = { refl };

    ghost cells_of_the_chip = { refl };

    ghost ram_of_the_chip = { refl };

    ghost stack_of_the_chip = { refl };
}

impl Chip for Upd77c25 {
    const LARGE: bool = true;

    ghost LARGE = { true };

    const WORDS: u16 = 2048;

    ghost WORDS = { 2048 };

    const WORD_LIMIT: u32 = 1 << 24;

    ghost WORD_LIMIT = { 16777216 };

    const CELLS: u16 = 1024;

    ghost CELLS = { 1024 };

    const RAM: u16 = 256;

    ghost RAM = { 256 };

    const STACK: u8 = 4;

    ghost STACK = { 4 };

    // A cell has all 16 bits of its type.
    fn cell_fits(_whole: u16) -> bool {
        true
    }

    fn cell_value(whole: u16) -> u16 {
        whole
    }

    ghost words_of_the_chip = { refl };

    ghost word_limit_of_the_chip = { refl };

    ghost cells_of_the_chip = { refl };

    ghost ram_of_the_chip = { refl };

    ghost stack_of_the_chip = { refl };
}

// Whether the two lent images and the lent RAM are as long as the chip's.
pub fn lengths_fit<C: Chip>(words: usize, cells: usize, ram: usize) -> bool
    ensures { result ≡ lengths_fit (chip C.LARGE) words cells ram }
{
    (words == (C::WORDS as usize)) & (cells == (C::CELLS as usize)) & (ram == (C::RAM as usize))
}
