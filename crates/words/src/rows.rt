// One word.
ghost use Rattle.std.specs.Prelude.{◌≡◌, List, ℕ, nat_le};
ghost use Rattle.refusals.specs.Refusals.{number_of};
ghost use Rattle.word.specs.Fields.{aligned, op_fields, ldi_fields};
ghost use Rattle.word.specs.Word.{jump_of};
ghost use Rattle.words.specs.Outcomes.{outcome};
ghost use Rattle.words.specs.Operation.{pc_moved, op_word};
ghost use Rattle.words.specs.Jump.{jumped, jump_holds, jp_word};
ghost use Rattle.words.specs.Load.{ldi_word};
ghost use Rattle.words.specs.Word.{word_done};

use crate::checks::{FIRST_RT, check_ldi, check_op, jp_unused_bits};
use crate::state::{AfterWord, Images, State};
use codes::{Destination, Source};
use device::{Chip, InstructionAddress, Registers};
use refusals::Refusal;

// The first JP word, the first LDI word and the first number that is no word, as `aligned` has them.
const FIRST_JP: u32 = 2 << 21;

const FIRST_LDI: u32 = 3 << 21;

const FIRST_WIDE: u32 = 4 << 21;

// BRCH.
const CONDITIONAL: u32 = 0b010;

const JUMP: u32 = 0b100;

const CALL: u32 = 0b101;

// A refused word leaves the state as it was.
fn refuse(refusal: Refusal, state: State) -> AfterWord
    ensures { result ≡ record { number = number_of refusal; state = state } }
{
    AfterWord {
        number: u8::from(refusal),
        state,
    }
}

// Every finished word goes through here.
fn finish(state: State) -> AfterWord
    ensures { result ≡ record { number = 0; state = state } }
{
    AfterWord { number: 0, state }
}

// The pop of an RT word, or the next word.
fn leave<C: Chip>(r: Registers, w: u32) -> Registers
    ensures { result ≡ pc_moved C.LARGE (nat_le 2097152 (aligned C.LARGE w)) r }
{
    if FIRST_RT <= word::aligned::<C>(w) {
        return flow::pop(r);
    }
    flow::step::<C>(r)
}

// An OP or RT word.
#[tactic(auto, unfolding(crate::specs::Operation::op_word), using(refusals::proofs::Numbers::not_done))]
fn op_word<C: Chip>(state: State, w: u32, rom: &[u16], ram: &mut [u16]) -> AfterWord
    ensures { outcome result ram.new ≡ op_word C.LARGE (nat_le 2097152 (aligned C.LARGE w)) state.registers state.trb (op_fields C.LARGE w) ram.old rom.now }
{
    let r = state.registers;
    if let Err(refusal) = check_op::<C>(r, w, rom) {
        return refuse(refusal, state);
    }
    let source = Source::from(word::bits(w, 7, 4) as u8);
    let destination = Destination::from(word::bits(w, 3, 0) as u8);
    let bus = stages::bus_value::<C>(r, state.trb, source, ram, rom);
    let read = stages::read_from(r, source);
    let trb = stages::load_trb::<C>(state.trb, word::bits(w, 3, 0), bus);
    let operated = stages::accumulate::<C>(read, w, bus, ram);
    let loaded = stages::load::<C>(operated, destination, bus, ram, rom);
    let pointed = stages::point::<C>(loaded, w);
    let registers = leave::<C>(pointed, w);
    finish(State { trb, registers })
}

fn jump(r: Registers, na: u16) -> Registers
    ensures { result ≡ jumped r na }
{
    let mut q = r;
    q.pc = InstructionAddress(na);
    q
}

// Whether a jump on a condition is taken.
fn jump_holds<C: Chip>(r: Registers, w: u32) -> bool
    ensures { result ≡ jump_holds r (jump_of C.LARGE w) }
{
    let holds = flow::condition_holds(r, word::condition::<C>(w));
    if word::turned_round::<C>(w) {
        !holds
    } else {
        holds
    }
}

// The registers after a JP word: a jump, a call, a jump on a condition, or none of these. NA is taken in each: held over the tests it would cost every word.
#[tactic(auto, unfolding(crate::specs::Jump::jp_word, crate::specs::Refusals::jp_refusal, crate::specs::Jump::jp_registers))]
fn jp_word<C: Chip>(state: State, w: u32) -> AfterWord
    ensures { (ram : List ℕ) → outcome result ram ≡ jp_word C.LARGE state.registers state.trb (jump_of C.LARGE w) ram }
{
    let r = state.registers;
    let brch = word::branch::<C>(w);
    let registers = if brch == JUMP {
        if jp_unused_bits::<C>(w, true) {
            return refuse(Refusal::UnusedBits, state);
        }
        jump(r, word::address::<C>(w))
    } else if brch == CALL {
        if jp_unused_bits::<C>(w, true) {
            return refuse(Refusal::UnusedBits, state);
        }
        if C::STACK <= r.depth {
            return refuse(Refusal::StackFull, state);
        }
        let back = r.pc.next::<C>();
        jump(flow::push(r, back), word::address::<C>(w))
    } else if brch == CONDITIONAL {
        if jp_unused_bits::<C>(w, false) {
            return refuse(Refusal::UnusedBits, state);
        }
        if jump_holds::<C>(r, w) {
            jump(r, word::address::<C>(w))
        } else {
            flow::step::<C>(r)
        }
    } else {
        return refuse(Refusal::NoSuchJump, state);
    };
    finish(State { registers, ..state })
}

// An LDI word.
#[tactic(auto, unfolding(crate::specs::Load::ldi_word), using(refusals::proofs::Numbers::not_done))]
fn ldi_word<C: Chip>(state: State, w: u32, rom: &[u16], ram: &mut [u16]) -> AfterWord
    ensures { outcome result ram.new ≡ ldi_word C.LARGE state.registers state.trb (ldi_fields C.LARGE w) ram.old rom.now }
{
    let r = state.registers;
    if let Err(refusal) = check_ldi::<C>(r, w, rom) {
        return refuse(refusal, state);
    }
    let destination = Destination::from(word::bits(w, 3, 0) as u8);
    let id = word::bits(word::aligned::<C>(w), 20, 5) as u16;
    let loaded = stages::load::<C>(r, destination, id, ram, rom);
    let trb = stages::load_trb::<C>(state.trb, word::bits(w, 3, 0), id);
    let registers = flow::step::<C>(loaded);
    finish(State { trb, registers })
}

// The word at PC, refused or done. Its two top bits tell the rows apart, so each row is a range of words.
#[tactic(auto, unfolding(crate::specs::Word::word_done))]
pub fn one_word<C: Chip>(state: State, images: Images, ram: &mut [u16]) -> AfterWord
    ensures { outcome result ram.new ≡ word_done C.LARGE state.registers state.trb images.entry.program.now images.entry.rom.now ram.old }
{
    let w = state.registers.pc.word(images.program);
    let v = word::aligned::<C>(w);
    if v < FIRST_JP {
        return op_word::<C>(state, w, images.rom, ram);
    }
    if v < FIRST_LDI {
        return jp_word::<C>(state, w);
    }
    if v < FIRST_WIDE {
        return ldi_word::<C>(state, w, images.rom, ram);
    }
    refuse(Refusal::WordTooWide, state)
}
