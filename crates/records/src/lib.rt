//! Plan files: reading and writing packed records, with faults that tell the number, the layer and the byte.
#![tactic(auto)]

pub mod fault;
mod layout;
pub mod reading;
pub mod trace;
pub mod writing;

pub use fault::{Layer, Placed, PlanFileFault, RecordsFault};
pub use reading::read_plan;
pub use trace::{TraceRecord, read_record};
pub use writing::{packed_length, write_plan};
