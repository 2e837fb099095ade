//! The one text that finds the earliest of any records: the smallest deadline, then the smallest number.
#![tactic(auto)]

pub mod contender;
pub mod search;

pub use contender::Contender;
pub use search::{earliest, earliest_where};
