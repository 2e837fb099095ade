//! Faults: what each of them tells, the layers that find them, and the byte where one lies.
#![tactic(auto)]

pub mod layer;
pub mod placed;
pub mod telling;

pub use layer::Layer;
pub use placed::{Placed, located};
pub use telling::Fault;
