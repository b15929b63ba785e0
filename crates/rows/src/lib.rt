// A word as C holds it: its row, and a place for the fields of every row of either chip.
#![tactic(auto)]

ghost use Rattle.std.specs.Prelude.{◌≡◌};
ghost use Rattle.word.specs.Word.{number_and_bits};
ghost use Rattle.rows.specs.Rows.{number_and_rows, rows_of, jump_in, taken_any_rows, built_any_rows};

use device::Chip;
use refusals::Refusal;
use word::{CodeFields, JpFields, LdiFields, OpFields, Word};

// The fields of the rows that a word does not have are 0 when it is taken apart, and not looked at when it is built.
#[derive(Clone, Copy, Default)]
pub struct AnyRows {
    pub row: u8,
    pub op: OpFields,
    pub jp: JpFields,
    pub code: CodeFields,
    pub ldi: LdiFields,
}

impl From<Word> for AnyRows {
    ghost from_gives = { λ word rows. rows ≡ rows_of word };

    fn from(word: Word) -> AnyRows {
        let none = AnyRows::default();
        match word {
            Word::Op(op) => AnyRows { row: 0, op, ..none },
            Word::Rt(op) => AnyRows { row: 1, op, ..none },
            Word::Jp(jp) => AnyRows { row: 2, jp, ..none },
            Word::JpCode(code) => AnyRows {
                row: 2,
                code,
                ..none
            },
            Word::Ldi(ldi) => AnyRows {
                row: 3,
                ldi,
                ..none
            },
        }
    }
}

impl AnyRows {
    // A JP word with the fields that its chip has.
    fn jump<C: Chip>(self) -> Word
        ensures { result ≡ jump_in C.LARGE self }
    {
        if C::LARGE {
            Word::JpCode(self.code)
        } else {
            Word::Jp(self.jp)
        }
    }
}

#[tactic(auto, unfolding(crate::specs::Rows::taken_any_rows))]
pub fn take_apart<C: Chip>(w: u32) -> Result<AnyRows, Refusal>
    ensures { number_and_rows C.LARGE result ≡ taken_any_rows C.LARGE w }
{
    let word = word::take_apart::<C>(w)?;
    Ok(AnyRows::from(word))
}

#[tactic(auto, unfolding(crate::specs::Rows::built_any_rows))]
pub fn build<C: Chip>(rows: AnyRows) -> Result<u32, Refusal>
    ensures { number_and_bits result ≡ built_any_rows C.LARGE rows }
{
    match rows.row {
        0 => word::build::<C>(Word::Op(rows.op)),
        1 => word::build::<C>(Word::Rt(rows.op)),
        2 => word::build::<C>(rows.jump::<C>()),
        3 => word::build::<C>(Word::Ldi(rows.ldi)),
        _ => Err(Refusal::FieldTooWide),
    }
}
