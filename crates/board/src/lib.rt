// The uPD77P20 of the desk's library: the machine in the caller's record, words taken apart and built, images and presets from texts and back, under C names.
// include/bemulatsho.h is its header. The structs that are C's (repr(C)) are its interface, and stand beside those of the other chip's board.
#![tactic(auto)]

ghost use Rattle.std.specs.Prelude.{◌≡◌, false};
ghost use Rattle.device.specs.Registers.{fresh_registers};
ghost use Rattle.machine.specs.Events.{event_done};
ghost use Rattle.machine.specs.Replies.{ending_in_place};
ghost use Rattle.rows.specs.Rows.{number_and_rows};
ghost use Rattle.board.specs.Rows.{any_rows, small_rows, small_taken, taken_rows, built_rows};

mod presets;
mod texts;

use device::{Registers, Upd77p20};
use machine::{Event, Images, Reply, State};
use refusals::Refusal;
use rows::AnyRows;
use word::{Built, JpFields, LdiFields, OpFields};

// ---- events

// One event in the caller's record.
#[unsafe(no_mangle)]
pub extern "C" fn bemulatsho_event_in_place(
    registers: &mut Registers,
    program: &[u32],
    rom: &[u16],
    ram: &mut [u16],
    event: Event,
) -> Reply
    ensures { ending_in_place result registers.new 0 ram.new ≡ event_done false registers.old 0 program.now rom.now ram.old event.kind event.value }
{
    let before = State {
        registers: *registers,
        trb: 0,
    };
    let after = machine::event::<Upd77p20>(before, Images { program, rom }, ram, event);
    *registers = after.registers;
    Reply::from(after)
}

#[unsafe(no_mangle)]
pub extern "C" fn bemulatsho_fresh_registers() -> Registers
    ensures { result ≡ fresh_registers }
{
    Registers::fresh()
}

// The version of this interface: it goes up when a caller has to change.
#[unsafe(no_mangle)]
pub extern "C" fn bemulatsho_version() -> u32
    ensures { result ≡ 3 }
{
    3
}

// ---- words

// A word's row, and the fields of every row: those of the others are 0 when a word is taken apart, and not looked at when it is built.
#[repr(C)]
#[derive(Clone, Copy, Default)]
pub struct Rows {
    pub row: u8,
    pub op: OpFields,
    pub jp: JpFields,
    pub ldi: LdiFields,
}

impl From<AnyRows> for Rows {
    ghost from_gives = { λ any rows. rows ≡ small_rows any };

    fn from(any: AnyRows) -> Rows {
        Rows {
            row: any.row,
            op: any.op,
            jp: any.jp,
            ldi: any.ldi,
        }
    }
}

impl From<Rows> for AnyRows {
    ghost from_gives = { λ rows any. any ≡ any_rows rows };

    fn from(rows: Rows) -> AnyRows {
        AnyRows {
            row: rows.row,
            op: rows.op,
            jp: rows.jp,
            ldi: rows.ldi,
            ..AnyRows::default()
        }
    }
}

#[repr(C)]
#[derive(Clone, Copy)]
pub struct TakenRows {
    pub refusal: u8,
    pub rows: Rows,
}

impl From<Result<AnyRows, Refusal>> for TakenRows {
    ghost from_gives = { λ taken c. c ≡ small_taken (number_and_rows false taken) };

    fn from(taken: Result<AnyRows, Refusal>) -> TakenRows {
        match taken {
            Ok(any) => TakenRows {
                refusal: 0,
                rows: Rows::from(any),
            },
            Err(refusal) => TakenRows {
                refusal: u8::from(refusal),
                rows: Rows::default(),
            },
        }
    }
}

#[tactic(auto, unfolding(crate::specs::Rows::taken_rows))]
#[unsafe(no_mangle)]
pub extern "C" fn bemulatsho_take_apart(word: u32) -> TakenRows
    ensures { result ≡ taken_rows word }
{
    TakenRows::from(rows::take_apart::<Upd77p20>(word))
}

#[tactic(auto, unfolding(crate::specs::Rows::built_rows))]
#[unsafe(no_mangle)]
pub extern "C" fn bemulatsho_build(rows: Rows) -> Built
    ensures { result ≡ built_rows rows }
{
    Built::from(rows::build::<Upd77p20>(AnyRows::from(rows)))
}
