// The bench cases of 01 as words and events that the compiled machine runs: the bench staff's paper copy.
// The crate `cases` has them as statements about the definitions.
#![tactic(auto)]

ghost use Rattle.std.specs.Prelude.{◌≤◌, length};

mod paper;

use device::{Chip, RamPointer, Registers, Upd77p20};
use machine::{AfterEvent, Event, Images, State};
use paper::{heading, line, other_row};
use std::io;
use word::Word;

// OP words that are used more than once: ADD of RAM at DP, of M and of N to A; the first also with DP up.
const ADD_RAM: u32 = 0x028000;

const ADD_RAM_UP: u32 = 0x029000;

const ADD_M: u32 = 0x128000;

const ADD_N: u32 = 0x1a8000;

// The kinds of event that the cases need.
#[derive(Clone, Copy)]
enum Kind {
    Words = 0,
    HostRead = 1,
}

// One event, with these words and these two RAM cells from 0 on. All else in program, data ROM and RAM is 0.
fn event(registers: Registers, words: &[u32], cells: [u16; 2], kind: Kind, value: u32) -> AfterEvent
    requires { length words.now ≤ 512 }
{
    let mut program = [0; Upd77p20::WORDS as usize];
    program[..words.len()].copy_from_slice(words);
    let rom = [0; Upd77p20::CELLS as usize];
    let mut ram = [0; Upd77p20::RAM as usize];
    ram[..2].copy_from_slice(&cells);
    let before = State { registers, trb: 0 };
    let images = Images {
        program: &program,
        rom: &rom,
    };
    let kind = kind as u32;
    machine::event::<Upd77p20>(before, images, &mut ram, Event { kind, value })
}

// As many words done as are given.
fn run(registers: Registers, words: &[u32], cells: [u16; 2]) -> AfterEvent
    requires { length words.now ≤ 512 }
{
    event(registers, words, cells, Kind::Words, words.len() as u32)
}

fn run_one(registers: Registers, word: u32) -> Registers {
    run(registers, &[word], [0, 0]).registers
}

fn host_read(registers: Registers) -> AfterEvent {
    event(registers, &[], [0, 0], Kind::HostRead, 0)
}

// Case 1: word 0 on registers that are not 0.
fn word_0(rt: &impl Print) -> io::Result<()> {
    let before = Registers {
        a: 0x1234,
        dp: RamPointer(0x7f),
        sr: 0x8080,
        ..Registers::fresh()
    };
    let done = run(before, &[0], [0, 0]);
    let after = done.registers;
    line(rt, 1, "word 0: words done", 1, done.words)?;
    line(rt, 1, "word 0: PC", 1, after.pc.0)?;
    line(rt, 1, "word 0: A, 1234H before", 0x1234, after.a)?;
    line(rt, 1, "word 0: DP, 7FH before", 0x7f, after.dp.0)?;
    line(rt, 1, "word 0: SR, 8080H before", 0x8080, after.sr)
}

// Case 2: what the jump holds, and what it does. BRCH 4 is the jump.
fn jump_fields(rt: &impl Print) -> io::Result<()> {
    let Ok(Word::Jp(jump)) = word::take_apart::<Upd77p20>(0x501000) else {
        return other_row(rt, 2, "501000H is no JP word");
    };
    line(rt, 2, "501000H: BRCH", 4, u16::from(jump.brch))?;
    line(rt, 2, "501000H: NA", 0x100, jump.na)
}

// Case 2: what the load holds. DST 1 is A.
fn load_fields(rt: &impl Print) -> io::Result<()> {
    let Ok(Word::Ldi(load)) = word::take_apart::<Upd77p20>(0x624681) else {
        return other_row(rt, 2, "624681H is no LDI word");
    };
    line(rt, 2, "624681H: ID", 0x1234, load.id)?;
    line(rt, 2, "624681H: DST", 1, u16::from(load.dst))
}

// Case 2: what the two words do.
fn jump_and_load(rt: &impl Print) -> io::Result<()> {
    let jumped = run_one(Registers::fresh(), 0x501000);
    line(rt, 2, "501000H run: PC", 0x100, jumped.pc.0)?;
    let loaded = run_one(Registers::fresh(), 0x624681);
    line(rt, 2, "624681H run: A", 0x1234, loaded.a)
}

// A after a word that adds M or N to 0.
fn added(k: u16, l: u16, word: u32) -> u16 {
    let before = Registers {
        k,
        l,
        ..Registers::fresh()
    };
    run_one(before, word).a
}

// Case 3: the two products.
fn products(rt: &impl Print) -> io::Result<()> {
    for (what, expected, k, l, word) in [
        ("8000H times 8000H: M", 0x8000, 0x8000, 0x8000, ADD_M),
        ("8000H times 8000H: N", 0, 0x8000, 0x8000, ADD_N),
        ("FFFFH times 1: M", 0xffff, 0xffff, 1, ADD_M),
        ("FFFFH times 1: N", 0xfffe, 0xffff, 1, ADD_N),
    ] {
        line(rt, 3, what, expected, added(k, l, word))?;
    }
    Ok(())
}

// A fresh machine but for A.
fn with_a(a: u16) -> Registers {
    Registers {
        a,
        ..Registers::fresh()
    }
}

// Case 4: a sum that leaves 16 bits, and a second that brings it back.
fn sums(rt: &impl Print) -> io::Result<()> {
    let cells = [0x7fff, 0x8000];
    let once = run(with_a(0x7fff), &[ADD_RAM_UP], cells).registers;
    line(rt, 4, "7FFFH ADD 7FFFH: A", 0xfffe, once.a)?;
    line(rt, 4, "7FFFH ADD 7FFFH: C", false, once.flags.a.c)?;
    line(rt, 4, "7FFFH ADD 7FFFH: OV1", true, once.flags.a.ov1)?;
    line(rt, 4, "7FFFH ADD 7FFFH: S1", true, once.flags.a.s1)?;
    let twice = run(with_a(0x7fff), &[ADD_RAM_UP, ADD_RAM], cells).registers;
    line(rt, 4, "then ADD 8000H: A", 0x7ffe, twice.a)?;
    line(rt, 4, "then ADD 8000H: C", true, twice.flags.a.c)?;
    line(rt, 4, "then ADD 8000H: OV1", false, twice.flags.a.ov1)?;
    line(rt, 4, "then ADD 8000H: S1", true, twice.flags.a.s1)
}

// Case 5: the least number added to itself.
fn least_sum(rt: &impl Print) -> io::Result<()> {
    let least = run(with_a(0x8000), &[ADD_RAM], [0x8000, 0]).registers;
    line(rt, 5, "8000H ADD 8000H: A", 0, least.a)?;
    line(rt, 5, "8000H ADD 8000H: Z", true, least.flags.a.z)?;
    line(rt, 5, "8000H ADD 8000H: C", true, least.flags.a.c)?;
    line(rt, 5, "8000H ADD 8000H: OV1", true, least.flags.a.ov1)?;
    line(rt, 5, "8000H ADD 8000H: S1", false, least.flags.a.s1)
}

// Case 6: SHR1, SHL2 and SHL4 of A.
fn shifts(rt: &impl Print) -> io::Result<()> {
    let shr1 = run_one(with_a(0x8001), 0x058000);
    line(rt, 6, "SHR1 of 8001H: A", 0xc000, shr1.a)?;
    line(rt, 6, "SHR1 of 8001H: C", true, shr1.flags.a.c)?;
    let shl2 = run_one(with_a(1), 0x068000);
    line(rt, 6, "SHL2 of 1: A", 7, shl2.a)?;
    let shl4 = run_one(with_a(1), 0x070000);
    line(rt, 6, "SHL4 of 1: A", 0x1f, shl4.a)
}

// Case 7: one word with DPL up, DPH-M 1 and RPDCR.
fn pointers(rt: &impl Print) -> io::Result<()> {
    let before = Registers {
        dp: RamPointer(0x0f),
        ..Registers::fresh()
    };
    let after = run_one(before, 0x001300);
    line(rt, 7, "DP 0FH, up, DPH-M 1: DP", 0x10, after.dp.0)?;
    line(rt, 7, "RP 0 down: RP", 511, after.rp.0)
}

// Case 8: SIL to A.
fn reversed(rt: &impl Print) -> io::Result<()> {
    let before = Registers {
        si: 1,
        ..Registers::fresh()
    };
    let after = run_one(before, 0x0000c1);
    line(rt, 8, "SIL of 1", 0x8000, after.a)
}

// Case 9: two bytes for the host.
fn host_reads(rt: &impl Print) -> io::Result<()> {
    let before = Registers {
        dr: 0x1234,
        ..Registers::fresh()
    };
    let low = host_read(before);
    line(rt, 9, "DR 1234H: first byte", 0x34, low.value)?;
    let high = host_read(low.registers);
    line(rt, 9, "DR 1234H: second byte", 0x12, high.value)
}

// Case 10: three words that add M to A, and how far the exact sum is above A, in 32768ths.
fn three_adds(rt: &impl Print) -> io::Result<()> {
    let before = Registers {
        k: 0xffff,
        l: 1,
        ..Registers::fresh()
    };
    let after = run(before, &[ADD_M, ADD_M, ADD_M], [0, 0]).registers;
    line(rt, 10, "FFFFH times 1, 3 adds: A", 0xfffd, after.a)?;
    line(
        rt,
        10,
        "FFFFH times 1, 3 adds: OV1",
        false,
        after.flags.a.ov1,
    )?;
    let exact_sum = 3 * i64::from(multiplier::multiply(0xffff, 1));
    let answer = 32768 * i64::from(after.a.cast_signed());
    line(rt, 10, "the distance", 98301, exact_sum - answer)
}

fn main(rt: HostRuntime) -> io::Result<()> {
    heading(&rt)?;
    word_0(&rt)?;
    jump_fields(&rt)?;
    load_fields(&rt)?;
    jump_and_load(&rt)?;
    products(&rt)?;
    sums(&rt)?;
    least_sum(&rt)?;
    shifts(&rt)?;
    pointers(&rt)?;
    reversed(&rt)?;
    host_reads(&rt)?;
    three_adds(&rt)
}
