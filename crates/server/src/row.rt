// A row: what the scheduler holds of one server.
use plan::Terms;

mod changes;
mod events;

/// The most jobs that a server counts.
pub const MOST_JOBS: u8 = 255;

/// What a server is doing.
#[derive(Clone, Copy, PartialEq, Eq, Debug)]
pub enum Phase {
    /// It has no job.
    Resting,
    /// It has jobs, and competes by its deadline.
    AtWork,
    /// It finished early, and supplies what is left of its budget to others up to its deadline. Jobs that
    /// come meanwhile wait.
    Supplying,
}

/// What happens to a server.
#[derive(Clone, Copy, PartialEq, Eq, Debug)]
pub enum Event {
    /// A job comes.
    Arrival,
    /// The job that runs is done.
    Finish,
    /// The instant has come to the deadline.
    Deadline,
}

/// What a server holds: its own capacity and what it supplies, in ticks; its deadline; and its jobs, those
/// that have come and are not finished.
#[derive(Clone, Copy, PartialEq, Eq, Debug)]
pub struct Account {
    pub capacity: u16,
    pub residual: u16,
    pub deadline: u32,
    pub jobs: u8,
}

/// A server's row, with its number.
#[derive(Clone, Copy, PartialEq, Eq, Debug)]
pub struct Row {
    pub number: u16,
    pub terms: Terms,
    pub phase: Phase,
    pub account: Account,
}
