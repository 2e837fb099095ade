//! The servers: one row for each, with its terms, its phase and its account; the table of rows; and what can
//! be stolen from whom.
#![tactic(auto)]

pub mod instant;
pub mod offers;
pub mod row;
pub mod table;
pub mod turn;

pub use instant::Instant;
pub use offers::{Offers, offer_of};
pub use row::{Account, Event, Phase, Row};
pub use table::Table;
pub use turn::{Payment, Source, Turn};
