// The uPD77C25 of the desk's library: the machine in the caller's record, and words taken apart and built, under C names. It is board's machine, told
// that it is the larger chip; its archive is compiled for that chip alone. include/bemulatsho.h is its header. The structs that are C's (repr(C)) are its
// interface, and stand beside those of the other chip's board.
#![tactic(auto)]

ghost use Rattle.std.specs.Prelude.{◌≡◌, true};
ghost use Rattle.machine.specs.Events.{event_done};
ghost use Rattle.machine.specs.Replies.{ending_in_place};
ghost use Rattle.rows.specs.Rows.{number_and_rows};
ghost use Rattle.board_77c25.specs.LargeRegisters.{fresh_large_registers};
ghost use Rattle.board_77c25.specs.LargeRows.{any_large_rows, large_rows, large_taken, taken_large_rows, built_large_rows};

use device::{Registers, Upd77c25};
use machine::{Event, Images, Reply, State};
use refusals::Refusal;
use rows::AnyRows;
use word::{Built, CodeFields, LdiFields, OpFields};

// ---- events

// The registers, and TRB, which this chip has besides.
#[repr(C)]
#[derive(Clone, Copy)]
pub struct LargeRegisters {
    pub registers: Registers,
    pub trb: u16,
}

// One event in the caller's record.
#[unsafe(no_mangle)]
pub extern "C" fn bemulatsho_77c25_event_in_place(
    registers: &mut LargeRegisters,
    program: &[u32],
    rom: &[u16],
    ram: &mut [u16],
    event: Event,
) -> Reply
    ensures { ending_in_place result registers.new.registers registers.new.trb ram.new ≡ event_done true registers.old.registers registers.old.trb program.now rom.now ram.old event.kind event.value }
{
    let before = State {
        registers: registers.registers,
        trb: registers.trb,
    };
    let after = machine::event::<Upd77c25>(before, Images { program, rom }, ram, event);
    *registers = LargeRegisters {
        registers: after.registers,
        trb: after.trb,
    };
    Reply::from(after)
}

#[tactic(auto, unfolding(crate::specs::LargeRegisters::fresh_large_registers))]
#[unsafe(no_mangle)]
pub extern "C" fn bemulatsho_77c25_fresh_registers() -> LargeRegisters
    ensures { result ≡ fresh_large_registers }
{
    LargeRegisters {
        registers: Registers::fresh(),
        trb: 0,
    }
}

// ---- words

// A word's row, and the fields of every row: those of the others are 0 when a word is taken apart, and not looked at when it is built.
#[repr(C)]
#[derive(Clone, Copy, Default)]
pub struct LargeRows {
    pub row: u8,
    pub op: OpFields,
    pub jp: CodeFields,
    pub ldi: LdiFields,
}

impl From<AnyRows> for LargeRows {
    ghost from_gives = { λ any rows. rows ≡ large_rows any };

    fn from(any: AnyRows) -> LargeRows {
        LargeRows {
            row: any.row,
            op: any.op,
            jp: any.code,
            ldi: any.ldi,
        }
    }
}

impl From<LargeRows> for AnyRows {
    ghost from_gives = { λ rows any. any ≡ any_large_rows rows };

    fn from(rows: LargeRows) -> AnyRows {
        AnyRows {
            row: rows.row,
            op: rows.op,
            code: rows.jp,
            ldi: rows.ldi,
            ..AnyRows::default()
        }
    }
}

#[repr(C)]
#[derive(Clone, Copy)]
pub struct TakenLargeRows {
    pub refusal: u8,
    pub rows: LargeRows,
}

impl From<Result<AnyRows, Refusal>> for TakenLargeRows {
    ghost from_gives = { λ taken c. c ≡ large_taken (number_and_rows true taken) };

    fn from(taken: Result<AnyRows, Refusal>) -> TakenLargeRows {
        match taken {
            Ok(any) => TakenLargeRows {
                refusal: 0,
                rows: LargeRows::from(any),
            },
            Err(refusal) => TakenLargeRows {
                refusal: u8::from(refusal),
                rows: LargeRows::default(),
            },
        }
    }
}

#[tactic(auto, unfolding(crate::specs::LargeRows::taken_large_rows))]
#[unsafe(no_mangle)]
pub extern "C" fn bemulatsho_77c25_take_apart(word: u32) -> TakenLargeRows
    ensures { result ≡ taken_large_rows word }
{
    TakenLargeRows::from(rows::take_apart::<Upd77c25>(word))
}

#[tactic(auto, unfolding(crate::specs::LargeRows::built_large_rows))]
#[unsafe(no_mangle)]
pub extern "C" fn bemulatsho_77c25_build(rows: LargeRows) -> Built
    ensures { result ≡ built_large_rows rows }
{
    Built::from(rows::build::<Upd77c25>(AnyRows::from(rows)))
}
