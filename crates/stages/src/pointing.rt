// How the pointers move at a word's end.
ghost use Rattle.std.specs.Prelude.{◌≡◌, cond, ◌==◌};
ghost use Rattle.numbers.specs.Bits.{bits};
ghost use Rattle.word.specs.Fields.{op_fields};
ghost use Rattle.stages.specs.Pointing.{dp_after, rp_after, pointed};

use device::{Chip, RamPointer, Registers, RomPointer};

// Whether DPL, DPH-M and what stands below them down to D`low` are 0.
fn rests<C: Chip>(w: u32, low: u32) -> bool
    ensures { result ≡ (cond C.LARGE (bits w 14 low) (bits w 13 low) == 0) }
{
    if C::LARGE {
        word::bits(w, 14, low) == 0
    } else {
        word::bits(w, 13, low) == 0
    }
}

fn dp_after<C: Chip>(dp: RamPointer, w: u32) -> RamPointer
    ensures { result ≡ dp_after dp dp (op_fields C.LARGE w) }
{
    if rests::<C>(w, 9) {
        return dp;
    }
    if word::bits(w, 3, 0) == 4 {
        return dp;
    }
    dp.moved(
        word::bits(word::aligned::<C>(w), 13, 12) as u8,
        word::dphm::<C>(w),
    )
}

fn rp_after<C: Chip>(rp: RomPointer, w: u32) -> RomPointer
    ensures { result ≡ rp_after C.LARGE rp rp (op_fields C.LARGE w) }
{
    if word::bits(w, 3, 0) == 5 {
        return rp;
    }
    if word::bits(w, 8, 8) == 0 {
        return rp;
    }
    rp.down::<C>()
}

// Most words move no pointer: one test of DPL, DPH-M and RPDCR together.
#[tactic(auto, unfolding(crate::specs::Pointing::pointed))]
pub fn point<C: Chip>(r: Registers, w: u32) -> Registers
    ensures { result ≡ pointed C.LARGE r.dp r.rp r (op_fields C.LARGE w) }
{
    if rests::<C>(w, 8) {
        return r;
    }
    let mut q = r;
    q.dp = dp_after::<C>(r.dp, w);
    q.rp = rp_after::<C>(r.rp, w);
    q
}
