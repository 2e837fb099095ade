// The executive itself.
use server::{Instant, Table};
use std::marker::Model;

mod calls;
mod making;
mod readers;
mod ticking;

/// The executive of a plan under a donor rule: the instant, the table of servers and the rule. Part of the type is
/// what every row keeps, and the demand bound.
#[derive(Drop)]
pub struct Executive<R> {
    instant: Instant,
    table: Table,
    rule: R,
}

/// To its callers an executive is its state.
impl<R> Model for Executive<R> {
    ghost use Rattle.executive.specs.Calls.{State};

    ghost Value = { State R };

    ghost use Rattle.server.specs.Table.{table_rows};
    ghost use Rattle.server.specs.Demand.{Sound};
    ghost use Rattle.executive.specs.State.{state_of};

    ghost view = { state_of };

    ghost invariant = { λ e. Sound e.instant.ticks (table_rows e.table) };
}
