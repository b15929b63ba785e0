// The chips: their sizes, their three pointers, their register record.
#![tactic(auto)]

mod lent;
mod pointers;
mod registers;
mod sizes;

pub use lent::cell_at;
pub use pointers::{InstructionAddress, RamPointer, RomPointer};
pub use registers::{BothFlags, Registers};
pub use sizes::{Chip, Upd77c25, Upd77p20, lengths_fit};
