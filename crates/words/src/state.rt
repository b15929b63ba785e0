// What a word finds and what it leaves.
use device::Registers;

// The registers, and TRB, which the larger chip has besides.
#[derive(Clone, Copy)]
pub struct State {
    pub trb: u16,
    pub registers: Registers,
}

// The program and the data ROM that are lent for a call.
#[derive(Clone, Copy)]
pub struct Images<'a> {
    pub program: &'a [u32],
    pub rom: &'a [u16],
}

// 0 or the word's refusal, and the state after the word: a refused word leaves it as it was. A number and no `Result`, which takes 14 instructions a word
// more (docs/SPEED.md, "Forms"). The order of the fields was found by counting, as that of the record.
#[derive(Clone, Copy)]
pub struct AfterWord {
    pub number: u8,
    pub state: State,
}
