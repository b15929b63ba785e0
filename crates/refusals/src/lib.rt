// Why a call, a word, fields or a text are refused, and the number by which the desk is told.
#![tactic(auto)]

ghost use Rattle.std.specs.Prelude.{◌≡◌};
ghost use Rattle.refusals.specs.Refusals.{number_of};

#[derive(Clone, Copy, PartialEq, Eq, Debug)]
pub enum Refusal {
    WrongLength = 1,
    RegisterTooWide = 2,
    NoSuchEvent = 3,
    WordTooWide = 4,
    NoSuchJump = 5,
    NoSource = 6,
    CellTooWide = 7,
    StackEmpty = 8,
    StackFull = 9,
    NothingToSend = 10,
    FieldTooWide = 11,
    BadRecord = 12,
    BadCheckByte = 13,
    NoSuchRecordType = 14,
    AddressNotOnce = 15,
    NoEndRecord = 16,
    UnusedBits = 18,
}

impl From<Refusal> for u8 {
    ghost from_gives = { λ refusal n. n ≡ number_of refusal };

    fn from(refusal: Refusal) -> u8 {
        refusal as u8
    }
}
