//! A plan as text: reading one that a person wrote, and showing one as a table.
#![tactic(auto)]

pub mod fault;
mod reading;
mod showing;
mod words;

pub use fault::{LineFault, TextFault};
pub use reading::parse_plan;
pub use showing::{fault_message, message, table};
