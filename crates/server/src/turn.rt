// Who runs in a tick, who pays for it, and from what.
mod contending;
pub(crate) mod dispatching;
mod marks;

/// What a tick is charged to.
#[derive(Clone, Copy, PartialEq, Eq, Debug)]
pub enum Source {
    /// The runner's own capacity.
    Own,
    /// What a server supplies that finished early.
    Residual,
    /// The capacity of a resting server.
    Stolen,
    /// What a server supplies, while nobody runs.
    Idle,
    /// Nothing: nobody runs, and nobody pays. The rules give it a code of its own, and no payment that is made here has it.
    Empty,
}

/// Who pays for a tick, and from what.
#[derive(Clone, Copy, PartialEq, Eq, Debug)]
pub struct Payment {
    pub payer: u16,
    pub source: Source,
}

/// Who runs in a tick, and who pays for it. In idle time nobody runs, and for an empty tick nobody pays.
#[derive(Clone, Copy, PartialEq, Eq, Debug)]
pub struct Turn {
    pub runner: Option<u16>,
    pub payment: Option<Payment>,
}
