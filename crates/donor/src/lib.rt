//! Donor rules: who pays when an overloaded server steals. The interface that every rule keeps to, and
//! four rules behind it.
#![tactic(auto)]

pub mod allowance;
pub mod earliest_first;
pub mod nobody;
pub mod offer;
pub mod rule;
pub mod tally;
pub mod turns;

pub use allowance::Allowance;
pub use earliest_first::EarliestFirst;
pub use nobody::Nobody;
pub use offer::Offer;
pub use rule::DonorRule;
pub use tally::Tally;
pub use turns::Turns;
