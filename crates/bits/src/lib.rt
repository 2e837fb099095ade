//! Packed fields: n bits, most significant first, from any bit of a byte.
#![tactic(auto)]

pub mod fault;
pub mod place;
pub mod reading;
pub mod writing;

pub use fault::BitsFault;
pub use place::{Place, Width};
pub use reading::{FieldReader, read_field};
pub use writing::write_field;
