// An instruction word taken apart into the fields of its row, and built from them again.
#![tactic(auto)]

ghost use Rattle.std.specs.Prelude.{◌≡◌, cond, ◌+◌, ◌*◌, ◌^◌, ◌≤◌, ◌<◌};
ghost use Rattle.numbers.specs.Bits as place;
ghost use Rattle.word.specs.Fields as spec;
ghost use Rattle.word.specs.Word.{number_and_bits, number_and_word, taken_apart, jump_of, built_of, built};

mod jumps;

use device::Chip;
pub use jumps::{address, branch, condition, turned_round};
use refusals::Refusal;

// The fields of an OP or RT word.
#[repr(C)]
#[derive(Clone, Copy, Default)]
pub struct OpFields {
    pub psel: u8,
    pub alu: u8,
    pub asl: u8,
    pub dpl: u8,
    pub dphm: u8,
    pub rpdcr: u8,
    pub src: u8,
    pub dst: u8,
}

// The fields of a JP word of the uPD77P20.
#[repr(C)]
#[derive(Clone, Copy, Default)]
pub struct JpFields {
    pub brch: u8,
    pub cnd: u8,
    pub na: u16,
    pub spare: u8,
}

// The fields of a JP word of the uPD77C25, where jump and condition are one code.
#[repr(C)]
#[derive(Clone, Copy, Default)]
pub struct CodeFields {
    pub code: u16,
    pub na: u16,
    pub spare: u8,
}

// The fields of an LDI word. ID has all 16 bits of its type, so that none is too wide.
#[repr(C)]
#[derive(Clone, Copy, Default)]
pub struct LdiFields {
    pub id: u16,
    pub spare: u8,
    pub dst: u8,
}

#[derive(Clone, Copy)]
pub enum Word {
    Op(OpFields),
    Rt(OpFields),
    Jp(JpFields),
    JpCode(CodeFields),
    Ldi(LdiFields),
}

// What C is handed of a word that was built: 0 and the word, or the refusal and 0.
#[repr(C)]
#[derive(Clone, Copy)]
pub struct Built {
    pub refusal: u8,
    pub bits: u32,
}

impl From<Result<u32, Refusal>> for Built {
    ghost from_gives = { λ built c. c ≡ number_and_bits built };

    fn from(built: Result<u32, Refusal>) -> Built {
        match built {
            Ok(bits) => Built { refusal: 0, bits },
            Err(refusal) => Built {
                refusal: u8::from(refusal),
                bits: 0,
            },
        }
    }
}

// Bits D`high` to D`low` of a word.
#[tactic(auto, using(crate::proofs::Shifts::beyond_top, crate::proofs::Shifts::to_the_top))]
pub fn bits(word: u32, high: u32, low: u32) -> u32
    ensures { result ≡ place.bits word high low }
{
    if high < low {
        return 0;
    }
    if 32 <= low {
        return 0;
    }
    if 31 <= high {
        return word >> low;
    }
    (word >> low) % (1 << (high + 1 - low))
}

// Whether bits D`high` to D`low` hold a field.
fn holds(high: u32, low: u32, field: u16) -> bool
    requires { (low ≤ high) × (high < 31) }
    ensures { result ≡ place.holds high low field }
{
    (field as u32) < 1 << (high + 1 - low)
}

// A field that stands at D`low` and above.
fn at(low: u32, field: u32) -> u32
    requires { (low < 32) × (field * 2 ^ low < 2 ^ 32) }
    ensures { result ≡ place.at low field }
{
    field << low
}

// The word with the fields above DPH-M where the uPD77P20 has them.
pub fn aligned<C: Chip>(w: u32) -> u32
    ensures { result ≡ spec.aligned C.LARGE w }
{
    if C::LARGE { w / 2 } else { w }
}

// What was built for the fields above DPH-M of the uPD77P20, where the chip has them.
fn raised<C: Chip>(n: u32) -> u32
    requires { n < 2 ^ 31 }
    ensures { (result ≡ spec.raised C.LARGE n) × (result ≤ 2 * n) }
{
    if C::LARGE { 2 * n } else { n }
}

pub fn dphm<C: Chip>(w: u32) -> u8
    ensures { result ≡ (spec.op_fields C.LARGE w).dphm }
{
    if C::LARGE {
        bits(w, 12, 9) as u8
    } else {
        bits(w, 11, 9) as u8
    }
}

fn op_fields<C: Chip>(w: u32) -> OpFields
    ensures { result ≡ spec.op_fields C.LARGE w }
{
    let v = aligned::<C>(w);
    OpFields {
        psel: bits(v, 20, 19) as u8,
        alu: bits(v, 18, 15) as u8,
        asl: bits(v, 14, 14) as u8,
        dpl: bits(v, 13, 12) as u8,
        dphm: dphm::<C>(w),
        rpdcr: bits(w, 8, 8) as u8,
        src: bits(w, 7, 4) as u8,
        dst: bits(w, 3, 0) as u8,
    }
}

fn jp_fields(w: u32) -> JpFields
    ensures { result ≡ spec.jp_fields w }
{
    JpFields {
        brch: bits(w, 20, 18) as u8,
        cnd: bits(w, 17, 13) as u8,
        na: bits(w, 12, 4) as u16,
        spare: bits(w, 3, 0) as u8,
    }
}

fn code_fields(w: u32) -> CodeFields
    ensures { result ≡ spec.code_fields w }
{
    CodeFields {
        code: bits(w, 21, 13) as u16,
        na: bits(w, 12, 2) as u16,
        spare: bits(w, 1, 0) as u8,
    }
}

// Spare bits of an LDI word.
pub fn ldi_spare<C: Chip>(w: u32) -> u8
    ensures { result ≡ (spec.ldi_fields C.LARGE w).spare }
{
    if C::LARGE {
        bits(w, 5, 4) as u8
    } else {
        bits(w, 4, 4) as u8
    }
}

fn ldi_fields<C: Chip>(w: u32) -> LdiFields
    ensures { result ≡ spec.ldi_fields C.LARGE w }
{
    let v = aligned::<C>(w);
    LdiFields {
        id: bits(v, 20, 5) as u16,
        spare: ldi_spare::<C>(w),
        dst: bits(w, 3, 0) as u8,
    }
}

fn jump_of<C: Chip>(w: u32) -> Word
    ensures { result ≡ jump_of C.LARGE w }
{
    if C::LARGE {
        Word::JpCode(code_fields(w))
    } else {
        Word::Jp(jp_fields(w))
    }
}

// The row of a word and its fields.
#[tactic(auto, unfolding(crate::specs::Word::taken_apart, crate::specs::Word::word_of))]
pub fn take_apart<C: Chip>(w: u32) -> Result<Word, Refusal>
    ensures { number_and_word C.LARGE result ≡ taken_apart C.LARGE w }
{
    if C::WORD_LIMIT <= w {
        return Err(Refusal::WordTooWide);
    }
    let kind = bits(aligned::<C>(w), 22, 21);
    Ok(match kind {
        0 => Word::Op(op_fields::<C>(w)),
        1 => Word::Rt(op_fields::<C>(w)),
        2 => jump_of::<C>(w),
        _ => Word::Ldi(ldi_fields::<C>(w)),
    })
}

// Whether DPH-M is within its width.
fn dphm_holds<C: Chip>(dphm: u8) -> bool
    ensures { result ≡ cond C.LARGE (place.holds 12 9 dphm) (place.holds 11 9 dphm) }
{
    if C::LARGE {
        holds(12, 9, dphm as u16)
    } else {
        holds(11, 9, dphm as u16)
    }
}

fn op_holds<C: Chip>(f: OpFields) -> bool
    ensures { result ≡ spec.op_holds C.LARGE f }
{
    holds(20, 19, f.psel as u16)
        & holds(18, 15, f.alu as u16)
        & holds(14, 14, f.asl as u16)
        & holds(13, 12, f.dpl as u16)
        & dphm_holds::<C>(f.dphm)
        & holds(8, 8, f.rpdcr as u16)
        & holds(7, 4, f.src as u16)
        & holds(3, 0, f.dst as u16)
}

fn jp_holds(f: JpFields) -> bool
    ensures { result ≡ spec.jp_holds f }
{
    holds(20, 18, f.brch as u16)
        & holds(17, 13, f.cnd as u16)
        & holds(12, 4, f.na)
        & holds(3, 0, f.spare as u16)
}

fn code_holds(f: CodeFields) -> bool
    ensures { result ≡ spec.code_holds f }
{
    holds(21, 13, f.code) & holds(12, 2, f.na) & holds(1, 0, f.spare as u16)
}

// Whether the spare bits of an LDI word are within their width.
fn ldi_spare_holds<C: Chip>(spare: u8) -> bool
    ensures { result ≡ cond C.LARGE (place.holds 5 4 spare) (place.holds 4 4 spare) }
{
    if C::LARGE {
        holds(5, 4, spare as u16)
    } else {
        holds(4, 4, spare as u16)
    }
}

fn ldi_holds<C: Chip>(f: LdiFields) -> bool
    ensures { result ≡ spec.ldi_holds C.LARGE f }
{
    holds(20, 5, f.id) & ldi_spare_holds::<C>(f.spare) & holds(3, 0, f.dst as u16)
}

fn op_bits<C: Chip>(f: OpFields) -> u32
    ensures { (result ≡ spec.op_bits C.LARGE f) × (result < 2 ^ 30) }
{
    let upper = at(19, f.psel as u32)
        + at(15, f.alu as u32)
        + at(14, f.asl as u32)
        + at(12, f.dpl as u32);
    let lower = at(9, f.dphm as u32) + at(8, f.rpdcr as u32) + at(4, f.src as u32) + (f.dst as u32);
    raised::<C>(upper) + lower
}

fn jp_bits(f: JpFields) -> u32
    ensures { result ≡ spec.jp_bits f }
{
    at(18, f.brch as u32) + at(13, f.cnd as u32) + at(4, f.na as u32) + (f.spare as u32)
}

fn code_bits(f: CodeFields) -> u32
    ensures { result ≡ spec.code_bits f }
{
    at(13, f.code as u32) + at(2, f.na as u32) + (f.spare as u32)
}

fn ldi_bits<C: Chip>(f: LdiFields) -> u32
    ensures { (result ≡ spec.ldi_bits C.LARGE f) × (result < 2 ^ 30) }
{
    raised::<C>(at(5, f.id as u32)) + at(4, f.spare as u32) + (f.dst as u32)
}

// The bits of fields that fit.
fn built_of(fit: bool, bits: u32) -> Result<u32, Refusal>
    ensures { number_and_bits result ≡ built_of fit bits }
{
    if fit {
        Ok(bits)
    } else {
        Err(Refusal::FieldTooWide)
    }
}

// The word that the fields make.
#[tactic(auto, unfolding(crate::specs::Word::built, crate::specs::Word::word_holds, crate::specs::Word::word_bits))]
pub fn build<C: Chip>(word: Word) -> Result<u32, Refusal>
    ensures { number_and_bits result ≡ built C.LARGE word }
{
    match word {
        Word::Op(f) => built_of(op_holds::<C>(f), raised::<C>(at(21, 0)) + op_bits::<C>(f)),
        Word::Rt(f) => built_of(op_holds::<C>(f), raised::<C>(at(21, 1)) + op_bits::<C>(f)),
        Word::Jp(f) => built_of(!C::LARGE & jp_holds(f), raised::<C>(at(21, 2)) + jp_bits(f)),
        Word::JpCode(f) => built_of(
            C::LARGE & code_holds(f),
            raised::<C>(at(21, 2)) + code_bits(f),
        ),
        Word::Ldi(f) => built_of(ldi_holds::<C>(f), raised::<C>(at(21, 3)) + ldi_bits::<C>(f)),
    }
}
