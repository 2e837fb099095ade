//! The executive: the clock, the table of servers and a donor rule, with the calls that share out the ticks.
#![tactic(auto)]

pub mod answer;
pub mod executive;
pub mod fault;

pub use answer::{NOBODY, TickAnswer};
pub use executive::Executive;
pub use fault::CallFault;
