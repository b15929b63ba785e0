// A preset: the RAM from a text of Intel HEX, whole or not at all, and the text of a RAM.
#![tactic(auto)]

mod reading;
mod sheet;
mod writing;

pub use reading::load_preset;
pub use writing::write_preset;
