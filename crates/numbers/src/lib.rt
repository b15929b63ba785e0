// Signed values of 16-bit registers, and the order of their bits. Knows no chip.
#![tactic(auto)]

ghost use Rattle.std.specs.Prelude.{◌≡◌};
ghost use Rattle.numbers.specs.Signed.{signed, kept16};
ghost use Rattle.numbers.specs.Reversal.{reversed16};

// The signed value of a register.
#[tactic(auto, using(crate::proofs::Signed::read_signed))]
pub fn sign_extend(x: u16) -> i32
    ensures { result ≡ signed x }
{
    x.cast_signed() as i32
}

// A signed whole number kept to 16 bits.
#[tactic(auto, using(crate::proofs::Signed::kept_bits))]
pub fn keep16(z: i32) -> u16
    ensures { result ≡ kept16 z }
{
    (z.cast_unsigned() % 65536) as u16
}

// All 16 bits of x in reverse order.
#[tactic(auto, using(crate::proofs::Reversal::reversed_library))]
pub fn reverse16(x: u16) -> u16
    ensures { result ≡ reversed16 x }
{
    x.reverse_bits()
}
