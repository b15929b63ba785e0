// The 32 conditions of a jump.
ghost use Rattle.std.specs.Prelude.{◌≡◌, false, ◌%◌, ◌==◌, slice_index_or};
ghost use Rattle.std.specs.Bool.{beq};
ghost use Rattle.flow.specs.Conditions.{condition_flags, condition_marks, condition_holds};

use device::Registers;

// The flag that a pair of conditions asks, 0 to 11.
fn condition_flag(r: Registers, n: u8) -> bool
    ensures { result ≡ slice_index_or (condition_flags r) n false }
{
    match n {
        0 => r.flags.a.c,
        1 => r.flags.b.c,
        2 => r.flags.a.z,
        3 => r.flags.b.z,
        4 => r.flags.a.ov0,
        5 => r.flags.b.ov0,
        6 => r.flags.a.ov1,
        7 => r.flags.b.ov1,
        8 => r.flags.a.s0,
        9 => r.flags.b.s0,
        10 => r.flags.a.s1,
        11 => r.flags.b.s1,
        _ => false,
    }
}

// The mark that a pair of conditions asks, 0 to 2.
fn condition_mark(r: Registers, n: u8) -> bool
    ensures { result ≡ slice_index_or (condition_marks r) n false }
{
    match n {
        0 => r.siack,
        1 => r.soack,
        2 => status::rqm(r.sr),
        _ => false,
    }
}

// First of a pair "is 0", then "is 1".
fn is_as_asked(flag: bool, n: u8) -> bool
    ensures { result ≡ beq flag ((n % 2) == 1) }
{
    flag == (n % 2 == 1)
}

#[tactic(auto, unfolding(crate::specs::Conditions::condition_holds))]
pub fn condition_holds(r: Registers, cnd: u8) -> bool
    ensures { result ≡ condition_holds r cnd }
{
    match cnd {
        0..=23 => is_as_asked(condition_flag(r, cnd / 2), cnd),
        24 => r.dp.0 % 16 == 0,
        25 => r.dp.0 % 16 == 15,
        26..=31 => is_as_asked(condition_mark(r, (cnd - 26) / 2), cnd - 26),
        _ => false,
    }
}
