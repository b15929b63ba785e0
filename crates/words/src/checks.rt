// Which words are refused: in each row the tests stand in the order in which refusals are given.
ghost use Rattle.std.specs.Prelude.{◌≡◌, cond, not, ◌&&◌, ◌||◌, nat_le, ◌==◌};
ghost use Rattle.refusals.specs.Refusals.{number_unless_ok};
ghost use Rattle.word.specs.Fields.{aligned, op_fields, jp_fields, code_fields, ldi_fields};
ghost use Rattle.words.specs.Refusals as spec;

use device::{Chip, Registers};
use refusals::Refusal;

// The first RT word, as `aligned` has it.
pub(crate) const FIRST_RT: u32 = 1 << 21;

// A word without a source whose bus would be looked at: never on the larger chip, whose source 0 is TRB. Tests one by one: most such words are
// done after two of them.
fn source_missing<C: Chip>(w: u32) -> bool
    ensures { result ≡ spec.source_missing C.LARGE (op_fields C.LARGE w) }
{
    if C::LARGE {
        return false;
    }
    if word::bits(w, 7, 4) != 0 {
        return false;
    }
    let dst = word::bits(w, 3, 0);
    if (dst != 0) & (dst != 14) {
        return true;
    }
    if word::bits(w, 20, 19) != 1 {
        return false;
    }
    let code = word::bits(w, 18, 15);
    (1 <= code) & (code <= 7)
}

fn cell_too_wide<C: Chip>(r: Registers, rom: &[u16]) -> bool
    ensures { result ≡ spec.cell_too_wide C.LARGE r rom.now }
{
    !C::cell_fits(device::cell_at(rom, r.rp.0))
}

// An OP or RT word that puts a cell on the bus or in L, where the cell is too wide.
fn cell_refused<C: Chip>(r: Registers, w: u32, rom: &[u16]) -> bool
    ensures { result ≡ (spec.uses_cell (op_fields C.LARGE w) && spec.cell_too_wide C.LARGE r rom.now) }
{
    if (word::bits(w, 7, 4) == 6) | (word::bits(w, 3, 0) == 11) {
        return cell_too_wide::<C>(r, rom);
    }
    false
}

#[tactic(auto, unfolding(crate::specs::Refusals::op_refusal))]
pub(crate) fn check_op<C: Chip>(r: Registers, w: u32, rom: &[u16]) -> Result<(), Refusal>
    ensures { number_unless_ok result ≡ spec.op_refusal C.LARGE (nat_le 2097152 (aligned C.LARGE w)) r (op_fields C.LARGE w) rom.now }
{
    if source_missing::<C>(w) {
        return Err(Refusal::NoSource);
    }
    if cell_refused::<C>(r, w, rom) {
        return Err(Refusal::CellTooWide);
    }
    if (FIRST_RT <= word::aligned::<C>(w)) & (r.depth == 0) {
        return Err(Refusal::StackEmpty);
    }
    Ok(())
}

// Spare bits of a JP word, and on the smaller chip CND where no condition is asked.
pub(crate) fn jp_unused_bits<C: Chip>(w: u32, unconditional: bool) -> bool
    ensures { result ≡ cond C.LARGE (not ((code_fields w).spare == 0)) (not ((jp_fields w).spare == 0) || (unconditional && not ((jp_fields w).cnd == 0))) }
{
    if C::LARGE {
        return word::bits(w, 1, 0) != 0;
    }
    (word::bits(w, 3, 0) != 0) | (unconditional & (word::bits(w, 17, 13) != 0))
}

#[tactic(auto, unfolding(crate::specs::Refusals::ldi_refusal))]
pub(crate) fn check_ldi<C: Chip>(r: Registers, w: u32, rom: &[u16]) -> Result<(), Refusal>
    ensures { number_unless_ok result ≡ spec.ldi_refusal C.LARGE r (ldi_fields C.LARGE w) rom.now }
{
    if word::ldi_spare::<C>(w) != 0 {
        return Err(Refusal::UnusedBits);
    }
    if word::bits(w, 3, 0) == 11 {
        if cell_too_wide::<C>(r, rom) {
            return Err(Refusal::CellTooWide);
        }
    }
    Ok(())
}
