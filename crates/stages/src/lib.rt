// The stages of an OP or RT word: what goes on the bus, what the ALU does, where the bus goes, how the pointers move.
// Each is defined for every input; which words are refused is said elsewhere. A record is copied whole and then changed: made anew with `..r` it takes some
// ten instructions a word more (docs/SPEED.md, "Forms").
#![tactic(auto)]

mod accumulators;
mod bus;
mod destinations;
mod pointing;

pub use accumulators::accumulate;
pub use bus::{bus_value, read_from};
pub use destinations::{load, load_trb};
pub use pointing::point;
