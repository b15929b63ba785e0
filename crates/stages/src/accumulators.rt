// The ALU's part of a word.
ghost use Rattle.std.specs.Prelude.{◌≡◌, Bool, refl};
ghost use Rattle.alu.specs.declared.Accumulator.{Accumulator};
ghost use Rattle.alu.specs.Operations.{operated};
ghost use Rattle.device.specs.declared.registers.Registers.{Registers};
ghost use Rattle.word.specs.Fields.{op_fields};
ghost use Rattle.stages.specs.Accumulators.{operand_of, accumulator_a, accumulator_b, stored_a, stored_b, accumulated};

use alu::{Accumulator, Operation, Plan};
use device::{BothFlags, Chip, Registers};

// The P input. Halves first: a match of four arms becomes a jump through a table.
#[tactic(auto, unfolding(crate::specs::Accumulators::operand_of))]
fn operand(r: Registers, psel: u32, bus: u16, ram: &[u16]) -> u16
    ensures { result ≡ operand_of r psel bus ram.now }
{
    if 2 <= psel {
        if psel == 2 {
            return multiplier::m(r.k, r.l);
        }
        return multiplier::n(r.k, r.l);
    }
    if psel == 0 {
        return device::cell_at(ram, r.dp.0);
    }
    bus
}

// The accumulator that ASL chooses.
trait Chosen {
    ghost accumulator: { Registers → Accumulator };

    ghost other_c: { Registers → Bool };

    ghost stored: { Registers → Accumulator → Registers };

    fn accumulator(r: Registers) -> Accumulator
        ensures { result ≡ accumulator r };

    // The other accumulator's C.
    fn other_c(r: Registers) -> bool
        ensures { result ≡ other_c r };

    fn store(r: Registers, x: Accumulator) -> Registers
        ensures { result ≡ stored r x };

    ghost stored_again: { (r : Registers) → stored r (accumulator r) ≡ r };
}

struct A {}

struct B {}

impl Chosen for A {
    ghost accumulator = { accumulator_a };

    ghost other_c = { λ r. r.flags.b.c };

    ghost stored = { stored_a };

    fn accumulator(r: Registers) -> Accumulator {
        Accumulator {
            value: r.a,
            flags: r.flags.a,
        }
    }

    fn other_c(r: Registers) -> bool {
        r.flags.b.c
    }

    fn store(r: Registers, x: Accumulator) -> Registers {
        let flags = BothFlags {
            a: x.flags,
            b: r.flags.b,
        };
        let mut q = r;
        q.flags = flags;
        q.a = x.value;
        q
    }

    ghost stored_again = { λ r. refl };
}

impl Chosen for B {
    ghost accumulator = { accumulator_b };

    ghost other_c = { λ r. r.flags.a.c };

    ghost stored = { stored_b };

    fn accumulator(r: Registers) -> Accumulator {
        Accumulator {
            value: r.b,
            flags: r.flags.b,
        }
    }

    fn other_c(r: Registers) -> bool {
        r.flags.a.c
    }

    fn store(r: Registers, x: Accumulator) -> Registers {
        let flags = BothFlags {
            a: r.flags.a,
            b: x.flags,
        };
        let mut q = r;
        q.flags = flags;
        q.b = x.value;
        q
    }

    ghost stored_again = { λ r. refl };
}

// An operation on the chosen accumulator. Compiled for each, so that neither waits for the other.
#[tactic(auto, unfolding(alu::specs::Operations::operated))]
fn operate<S: Chosen>(r: Registers, operation: Operation, p: u16) -> Registers
    ensures { result ≡ S.stored r (operated operation (S.accumulator r) p (S.other_c r)) }
{
    let x = S::accumulator(r);
    match Plan::of(operation, x.value, p, S::other_c(r)) {
        Plan::Keep => r,
        Plan::Plus(y, c) => S::store(r, alu::add(x, y, c)),
        Plan::Minus(y, c) => S::store(r, alu::subtract(x, y, c)),
        Plan::Other(value, c) => S::store(r, alu::other_result(value, c)),
    }
}

// The operation of an OP or RT word w, unless its accumulator is the destination.
#[tactic(auto, unfolding(crate::specs::Accumulators::accumulated))]
pub fn accumulate<C: Chip>(r: Registers, w: u32, bus: u16, ram: &[u16]) -> Registers
    ensures { result ≡ accumulated r r (op_fields C.LARGE w) bus ram.now }
{
    let v = word::aligned::<C>(w);
    let code = word::bits(v, 18, 15) as u8;
    let asl = word::bits(v, 14, 14);
    if code == 0 {
        return r;
    }
    if asl + 1 == word::bits(w, 3, 0) {
        return r;
    }
    let p = operand(r, word::bits(v, 20, 19), bus, ram);
    let operation = Operation::from(code);
    if asl == 0 {
        return operate::<A>(r, operation, p);
    }
    operate::<B>(r, operation, p)
}
