// A text of Intel HEX into a lent image, whole or not at all.
#![tactic(auto)]

mod digits;
mod filling;
mod record;
mod text;

pub use filling::{load_cells, load_data, load_program};
pub use record::{RecordHead, RecordType, data_part, record_head};
pub use text::Fault;
