//! Plans: which servers share the processor, and on what terms. No plan exists that breaks its limits.
#![tactic(auto)]

pub mod fault;
pub mod table;
pub mod terms;

pub use fault::PlanFault;
pub use table::Plan;
pub use terms::{Kind, Terms};
