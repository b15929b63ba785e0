// One event, by value: the twin that carries the meaning, for either chip. The state goes in and comes back, the RAM is changed in place.
#![tactic(auto)]

mod call;
mod replies;
mod run;

pub use call::event;
pub use events::Event;
pub use replies::{AfterEvent, Reply};
pub use words::{Images, State};
