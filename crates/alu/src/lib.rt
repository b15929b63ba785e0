// One operation on one accumulator, with its six flags. Knows no machine.
#![tactic(auto)]

ghost use Rattle.std.specs.Prelude.{◌≡◌, ◌+◌, ◌%◌, ◌≤◌, pos, ◌+ℤ◌, ◌-ℤ◌};
ghost use mir.Val.{bool_byte};
ghost use Rattle.numbers.specs.Signed.{signed, kept16, floor_div};
ghost use Rattle.alu.specs.Flags.{carry_of, borrow_of, ov0_of, sum_flags};
ghost use Rattle.alu.specs.Operations.{operation_of, plus, minus, other, plan_of};

#[repr(C)]
#[derive(Clone, Copy, Default)]
pub struct Flags {
    pub s1: bool,
    pub s0: bool,
    pub c: bool,
    pub z: bool,
    pub ov1: bool,
    pub ov0: bool,
}

#[repr(C)]
#[derive(Clone, Copy)]
pub struct Accumulator {
    pub value: u16,
    pub flags: Flags,
}

#[derive(Clone, Copy, PartialEq, Eq, Debug)]
pub enum Operation {
    None,
    Or,
    And,
    Xor,
    Sub,
    Add,
    Sbb,
    Adc,
    Dec,
    Inc,
    Cmp,
    Shr1,
    Shl1,
    Shl2,
    Shl4,
    Xchg,
}

// What an operation makes of its inputs: nothing, a sum or a difference with its carry, or a result with its C.
#[derive(Clone, Copy)]
pub enum Plan {
    Keep,
    Plus(u16, bool),
    Minus(u16, bool),
    Other(u16, bool),
}

// The operation of a word's ALU field.
impl From<u8> for Operation {
    ghost from_gives = { λ code operation. operation ≡ operation_of code };

    fn from(code: u8) -> Operation {
        match code {
            0 => Operation::None,
            1 => Operation::Or,
            2 => Operation::And,
            3 => Operation::Xor,
            4 => Operation::Sub,
            5 => Operation::Add,
            6 => Operation::Sbb,
            7 => Operation::Adc,
            8 => Operation::Dec,
            9 => Operation::Inc,
            10 => Operation::Cmp,
            11 => Operation::Shr1,
            12 => Operation::Shl1,
            13 => Operation::Shl2,
            14 => Operation::Shl4,
            15 => Operation::Xchg,
            _ => Operation::None,
        }
    }
}

// Whether x + y + k, and x - y - k, leave the signed 16 bits.
#[tactic(auto, unfolding(numbers::specs::Signed::leaves), using(numbers::proofs::Signed::signs))]
fn sum_leaves(x: u16, y: u16, k: u16) -> bool
    requires { k ≤ 1 }
    ensures { result ≡ ov0_of (signed x +ℤ signed y +ℤ pos k) }
{
    let sum = numbers::sign_extend(x) + numbers::sign_extend(y) + (k as i32);
    (sum < -32768) | (32767 < sum)
}

#[tactic(auto, unfolding(numbers::specs::Signed::leaves), using(numbers::proofs::Signed::signs))]
fn difference_leaves(x: u16, y: u16, k: u16) -> bool
    requires { k ≤ 1 }
    ensures { result ≡ ov0_of (signed x -ℤ signed y -ℤ pos k) }
{
    let difference = numbers::sign_extend(x) - numbers::sign_extend(y) - (k as i32);
    (difference < -32768) | (32767 < difference)
}

// The unsigned carry of x + y + k, and the borrow of x - y - k.
fn carries(x: u16, y: u16, k: u16) -> bool
    ensures { result ≡ carry_of x y k }
{
    65536 <= (x as u32) + (y as u32) + (k as u32)
}

fn borrows(x: u16, y: u16, k: u16) -> bool
    ensures { result ≡ borrow_of x y k }
{
    (x as u32) < (y as u32) + (k as u32)
}

// The flags after a sum. S1 and OV1 are found without a branch.
#[tactic(auto, unfolding(crate::specs::Flags::sum_flags))]
fn flags_of_sum(before: Flags, res: u16, c: bool, ov0: bool) -> Flags
    ensures { result ≡ sum_flags before res c ov0 }
{
    let s0 = 32768 <= res;
    let ov1 = before.ov1;
    let turned = s0 != before.s1;
    Flags {
        s1: s0 != (ov1 & turned),
        s0,
        c,
        z: res == 0,
        ov1: ov1 != (ov0 & (!ov1 | turned)),
        ov0,
    }
}

// The accumulator plus y and a carry.
#[tactic(auto, unfolding(crate::specs::Operations::plus))]
pub fn add(a: Accumulator, y: u16, c: bool) -> Accumulator
    ensures { result ≡ plus a y (bool_byte c) }
{
    let k = c as u16;
    let x = a.value;
    let value = x.wrapping_add(y).wrapping_add(k);
    let flags = flags_of_sum(a.flags, value, carries(x, y, k), sum_leaves(x, y, k));
    Accumulator { value, flags }
}

// The accumulator minus y and a borrow.
#[tactic(auto, unfolding(crate::specs::Operations::minus), using(crate::proofs::Sums::wrapped_twice))]
pub fn subtract(a: Accumulator, y: u16, c: bool) -> Accumulator
    ensures { result ≡ minus a y (bool_byte c) }
{
    let k = c as u16;
    let x = a.value;
    let value = x.wrapping_sub(y).wrapping_sub(k);
    let flags = flags_of_sum(a.flags, value, borrows(x, y, k), difference_leaves(x, y, k));
    Accumulator { value, flags }
}

// The result of an operation that is no sum, with its C.
pub fn other_result(value: u16, c: bool) -> Accumulator
    ensures { result ≡ other value c }
{
    let s0 = 32768 <= value;
    Accumulator {
        value,
        flags: Flags {
            s1: s0,
            s0,
            c,
            z: value == 0,
            ..Flags::default()
        },
    }
}

// Half of the signed value, rounded down: the shift to the right that keeps the sign.
#[tactic(auto, using(numbers::proofs::Signed::halved))]
fn half(x: u16) -> u16
    ensures { result ≡ kept16 (floor_div (signed x) 2) }
{
    (x.cast_signed() >> 1).cast_unsigned()
}

impl Plan {
    // The plan of an operation on the value x with the operand p; c is the other accumulator's C.
    pub fn of(operation: Operation, x: u16, p: u16, c: bool) -> Plan
        ensures { result ≡ plan_of operation x p c }
    {
        match operation {
            Operation::None => Plan::Keep,
            Operation::Or => Plan::Other(x | p, false),
            Operation::And => Plan::Other(x & p, false),
            Operation::Xor => Plan::Other(x ^ p, false),
            Operation::Sub => Plan::Minus(p, false),
            Operation::Add => Plan::Plus(p, false),
            Operation::Sbb => Plan::Minus(p, c),
            Operation::Adc => Plan::Plus(p, c),
            Operation::Dec => Plan::Minus(1, false),
            Operation::Inc => Plan::Plus(1, false),
            Operation::Cmp => Plan::Other(!x, false),
            Operation::Shr1 => Plan::Other(half(x), x % 2 == 1),
            Operation::Shl1 => Plan::Other((x << 1) + (c as u16), 32768 <= x),
            Operation::Shl2 => Plan::Other((x << 2) + 3, false),
            Operation::Shl4 => Plan::Other((x << 4) + 15, false),
            Operation::Xchg => Plan::Other(x.swap_bytes(), false),
        }
    }
}
