// The sixteen sources and the sixteen destinations, by name. Source 0 and destination 14 are none on the uPD77P20, where destination 0 is none as
// well, and TRB on the uPD77C25.
#![tactic(auto)]

ghost use Rattle.std.specs.Prelude.{◌≡◌};
ghost use Rattle.codes.specs.Codes.{source_of, destination_of};

#[derive(Clone, Copy, PartialEq, Eq, Debug)]
pub enum Source {
    NoneOrTrb,
    A,
    B,
    Tr,
    Dp,
    Rp,
    Ro,
    Sgn,
    Dr,
    Drnf,
    Sr,
    Sim,
    Sil,
    K,
    L,
    Mem,
}

#[derive(Clone, Copy, PartialEq, Eq, Debug)]
pub enum Destination {
    None,
    A,
    B,
    Tr,
    Dp,
    Rp,
    Dr,
    Sr,
    Sol,
    Som,
    K,
    Klr,
    Klm,
    L,
    NoneOrTrb,
    Mem,
}

// The source of a word's SRC field.
impl From<u8> for Source {
    ghost from_gives = { λ code source. source ≡ source_of code };

    fn from(code: u8) -> Source {
        match code {
            0 => Source::NoneOrTrb,
            1 => Source::A,
            2 => Source::B,
            3 => Source::Tr,
            4 => Source::Dp,
            5 => Source::Rp,
            6 => Source::Ro,
            7 => Source::Sgn,
            8 => Source::Dr,
            9 => Source::Drnf,
            10 => Source::Sr,
            11 => Source::Sim,
            12 => Source::Sil,
            13 => Source::K,
            14 => Source::L,
            15 => Source::Mem,
            _ => Source::NoneOrTrb,
        }
    }
}

// The destination of a word's DST field.
impl From<u8> for Destination {
    ghost from_gives = { λ code destination. destination ≡ destination_of code };

    fn from(code: u8) -> Destination {
        match code {
            0 => Destination::None,
            1 => Destination::A,
            2 => Destination::B,
            3 => Destination::Tr,
            4 => Destination::Dp,
            5 => Destination::Rp,
            6 => Destination::Dr,
            7 => Destination::Sr,
            8 => Destination::Sol,
            9 => Destination::Som,
            10 => Destination::K,
            11 => Destination::Klr,
            12 => Destination::Klm,
            13 => Destination::L,
            14 => Destination::NoneOrTrb,
            15 => Destination::Mem,
            _ => Destination::None,
        }
    }
}
