// Making a table of a plan.
ghost use Rattle.std.specs.Prelude.{◌≡◌};
ghost use Rattle.plan.specs.Plan.{rows_of};
ghost use Rattle.server.specs.Tick.{fresh_rows};
ghost use Rattle.server.specs.Table.{table_rows};
ghost use Rattle.server.specs.Demand.{Sound, ArrivalKeepsTheBound, TickKeepsTheBound, NothingIsLeftAtADeadline};

use super::Table;
use crate::row::Row;
use plan::table::MOST_ROWS;
use plan::{Plan, Terms};

impl Table {
    /// A table for a plan: a fresh row for each server. The demand bound holds of it, every arrival and every
    /// tick keep the bound under every donor choice that names an offer or nobody, and so nothing is left at a
    /// deadline.
    pub fn of(plan: &Plan) -> Table
        ensures rows { table_rows result ≡ fresh_rows 0 (rows_of plan.now) }
        ensures bound { Sound 0 (table_rows result) }
        ensures arrival { ArrivalKeepsTheBound }
        ensures tick { TickKeepsTheBound }
        ensures nothing_left { NothingIsLeftAtADeadline }
    {
        let mut rows = [Row::fresh(0, Terms::BLANK); MOST_ROWS];
        let all = plan.rows();
        // The number goes into the row, too, so it is counted here.
        for (k, terms) in all.iter().enumerate() {
            rows[k] = Row::fresh(k as u16, *terms);
        }
        Table {
            rows,
            count: all.len(),
        }
    }
}
