// What changes a table: one row at a time, or all as the clock goes on; every other row stays.
ghost use Rattle.std.specs.Prelude.{◌≡◌, ℕ, suc, map, slice_index_or};
ghost use Rattle.std.specs.List.{AllByRecursion};
ghost use Rattle.plan.specs.declared.terms.Kind.TheVariants.{NonIsolated};
ghost use Rattle.server.specs.Row.{happens};
ghost use Rattle.server.specs.Tick.{changed, charged_for, passed};
ghost use Rattle.server.specs.Table.{table_rows};
ghost use Rattle.server.specs.Turn.{blank_row};
ghost use Rattle.server.specs.Demand.{Kept, Sound};
ghost use Rattle.server.specs.declared.row.Event.TheVariants.{Arrival};
ghost use Rattle.server.specs.declared.turn.Source.TheVariants.{Stolen};

use super::Table;
use crate::instant::Instant;
use crate::row::{Event, Row};
use crate::turn::Payment;

// By rules of the project an event changes a row by value, which is then written back whole, and a row is lent to be charged, behind a
// test of its place, since `get_mut` says nothing of the elements afterwards. That each row
// keeps its limits depends on the instant, which no table has, so it stands in each contract and not in the type.
impl Table {
    /// What an event does to the row of a server, if there is one of this number.
    pub fn happens(&mut self, event: Event, at: Instant, server: u16)
        ensures rows { table_rows self.new ≡ changed (happens event at.ticks) server (table_rows self.old) }
        ensures kept { AllByRecursion (Kept at.ticks) (table_rows self.old) → AllByRecursion (Kept at.ticks) (table_rows self.new) }
        ensures bound { event ≡ Arrival → Sound at.ticks (table_rows self.old) → Sound at.ticks (table_rows self.new) }
    {
        let place = server as usize;
        if place < self.count {
            let mut row = self.rows[place];
            row.happens(event, at);
            self.rows[place] = row;
        }
    }

    /// Charges a tick to the payer's row.
    pub fn pay(&mut self, payment: Payment, at: Instant)
        ensures rows { table_rows self.new ≡ changed (charged_for payment.source at.ticks) payment.payer (table_rows self.old) }
        ensures kept { (payment.source ≡ Stolen → (slice_index_or (table_rows self.old) payment.payer blank_row).terms.kind ≡ NonIsolated) → AllByRecursion (Kept at.ticks) (table_rows self.old) → AllByRecursion (Kept at.ticks) (table_rows self.new) }
    {
        let place = payment.payer as usize;
        if place < self.count {
            self.rows[place].pay(payment.source, at);
        }
    }

    /// All rows as the clock comes to an instant: each deadline that has come, and then the cuts.
    pub fn pass(&mut self, at: Instant)
        ensures rows { table_rows self.new ≡ map (passed at.ticks) (table_rows self.old) }
        ensures kept { (t : ℕ) → at.ticks ≡ suc t → AllByRecursion (Kept t) (table_rows self.old) → AllByRecursion (Kept (suc t)) (table_rows self.new) }
    {
        pass_all(&mut self.rows[0..self.count], at);
    }
}

fn pass_all(rows: &mut [Row], at: Instant)
    ensures { rows.new ≡ map (passed at.ticks) rows.old }
{
    for row in rows.iter_mut() {
        row.pass(at);
    }
}
