//! Flights: playing a trace on an executive, and the listing of its ticks.
#![tactic(auto)]

pub mod counting;
pub mod fault;
pub mod listener;
pub mod listing;
pub mod page;
pub mod playing;
pub mod printing;

pub use counting::TickCount;
pub use fault::FlightFault;
pub use listener::Listener;
pub use listing::{fault_line, header};
pub use page::Page;
pub use playing::play;
pub use printing::Listing;
