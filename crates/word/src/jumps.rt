// What a JP word asks for, on either chip.
ghost use Rattle.std.specs.Prelude.{◌≡◌};
ghost use Rattle.word.specs.JumpCodes.{listed, branch_of, condition_of, turned_round, address_of};
ghost use Rattle.word.specs.Word.{jump_of};

use crate::{aligned, bits};
use device::Chip;

// Whether the uPD77C25's data book lists a code.
fn is_listed(code: u32) -> bool
    ensures { result ≡ listed code }
{
    if bits(code, 8, 6) == 2 {
        return (bits(code, 0, 0) == 0) | ((code == 0x0b1) | (code == 0x0b3));
    }
    (code == 0x100) | (code == 0x140)
}

// BRCH; 0 for a code that is not listed. A number: the clause says it of every word, of those too whose BRCH is no jump.
#[tactic(auto, unfolding(crate::specs::JumpCodes::branch_of))]
pub fn branch<C: Chip>(w: u32) -> u32
    ensures { result ≡ branch_of (jump_of C.LARGE w) }
{
    if C::LARGE {
        let code = bits(w, 21, 13);
        return if is_listed(code) { bits(code, 8, 6) } else { 0 };
    }
    bits(w, 20, 18)
}

// CND.
#[tactic(auto, using(crate::proofs::Codes::condition_place))]
pub fn condition<C: Chip>(w: u32) -> u8
    ensures { result ≡ condition_of (jump_of C.LARGE w) }
{
    bits(aligned::<C>(w), 17, 13) as u8
}

// Whether the jump is taken where its condition does not hold.
#[tactic(auto, unfolding(crate::specs::JumpCodes::turned_round), using(crate::proofs::Codes::lowest_place))]
pub fn turned_round<C: Chip>(w: u32) -> bool
    ensures { result ≡ turned_round (jump_of C.LARGE w) }
{
    C::LARGE & (bits(w, 13, 13) == 1)
}

// NA.
#[tactic(auto, unfolding(crate::specs::JumpCodes::address_of))]
pub fn address<C: Chip>(w: u32) -> u16
    ensures { result ≡ address_of (jump_of C.LARGE w) }
{
    if C::LARGE {
        bits(w, 12, 2) as u16
    } else {
        bits(w, 12, 4) as u16
    }
}
