// Who runs at an instant and who pays, by the rows of a table and a donor rule.
ghost use Rattle.std.specs.Prelude.{◌≡◌, slice_index_or};
ghost use Rattle.server.specs.Table.{table_rows};
ghost use Rattle.server.specs.Turn.{blank_row, supplies, earliest_row, supplies_by, from_residual, from_own, from_theft, idle_payment, offers_to, payment_for, can_run, runner_of, payment_of};

use super::marks::Mark;
use super::{Payment, Source};
use crate::instant::Instant;
use crate::row::{Phase, Row};
use crate::table::Table;
use donor::DonorRule;
use earliest::Contender;
use plan::Terms;

/// What decides a tick: the table, the donor rule and the instant.
#[derive(Drop)]
pub(crate) struct Dispatcher<'a, R> {
    pub(crate) table: &'a Table,
    pub(crate) rule: &'a R,
    pub(crate) at: Instant,
}

// The clauses spell out the rule's choice, the instant and the rows: a choice is a function, which can stand in no model's value.
impl<R: DonorRule> Dispatcher<'_, R> {
    // The runner: by deadline and then by number, the first row at work that can run.
    pub(crate) fn runner(&self) -> Option<u16>
        ensures { result ≡ runner_of (R.DonorRule.choice self.now.rule.now self.now.at.ticks) self.now.at.ticks (table_rows self.now.table.now) }
    {
        self.table.earliest(|row| self.can_run(row))
    }

    // Who pays, if anybody: for the runner, or for idle time where nobody runs.
    pub(crate) fn payment(&self, runner: Option<u16>) -> Option<Payment>
        ensures { result ≡ payment_of (R.DonorRule.choice self.now.rule.now self.now.at.ticks) self.now.at.ticks (table_rows self.now.table.now) runner }
    {
        match runner {
            None => for_idle_time(self.table),
            Some(number) => self.payment_for(&row_at(self.table, number)),
        }
    }

    // Whether a row can run: it is at work, and somebody pays.
    fn can_run(&self, row: &Row) -> bool
        ensures { result ≡ can_run (R.DonorRule.choice self.now.rule.now self.now.at.ticks) self.now.at.ticks (table_rows self.now.table.now) row.now }
    {
        row.phase == Phase::AtWork && self.payment_for(row).is_some()
    }

    // Who pays for a row at work, if anybody: the sources in turn.
    fn payment_for(&self, row: &Row) -> Option<Payment>
        ensures { result ≡ payment_for (R.DonorRule.choice self.now.rule.now self.now.at.ticks) self.now.at.ticks (table_rows self.now.table.now) row.now }
    {
        let held = from_residual(self.table, row.account.deadline).or(from_own(row));
        // No `or_else`: of a closure that asks the rule the proof learns nothing there.
        match held {
            Some(payment) => Some(payment),
            None => self.from_theft(row),
        }
    }

    // Theft: the rule is asked, if there is an offer.
    fn from_theft(&self, thief: &Row) -> Option<Payment>
        ensures { result ≡ from_theft (R.DonorRule.choice self.now.rule.now self.now.at.ticks) thief.now.number (offers_to self.now.at.ticks thief.now.account.deadline (table_rows self.now.table.now)) }
    {
        let offers = self.table.offers(self.at, thief.account.deadline);
        let items = offers.items();
        if items.is_empty() {
            return None;
        }
        let k = self.rule.choose(self.at.ticks, thief.number, items)?;
        Some(Payment {
            payer: items[k].server,
            source: Source::Stolen,
        })
    }
}

// What is supplied by a deadline: the earliest such row pays. The rules name it and the pay for idle time apart, and each is
// one expression over the one search.
fn from_residual(table: &Table, deadline: u32) -> Option<Payment>
    ensures { result ≡ from_residual (earliest_row (supplies_by deadline) (table_rows table.now)) }
{
    table
        .earliest(|row| row.takes_part(Mark::SupplyingBy(deadline)))
        .map(|payer| Payment {
            payer,
            source: Source::Residual,
        })
}

// The row's own capacity.
fn from_own(row: &Row) -> Option<Payment>
    ensures { result ≡ from_own row.now }
{
    (row.account.capacity > 0).then_some(Payment {
        payer: row.number,
        source: Source::Own,
    })
}

// Who pays for idle time, if anybody: the earliest row that supplies.
fn for_idle_time(table: &Table) -> Option<Payment>
    ensures { result ≡ idle_payment (earliest_row supplies (table_rows table.now)) }
{
    table
        .earliest(|row| row.takes_part(Mark::Supplying))
        .map(|payer| Payment {
            payer,
            source: Source::Idle,
        })
}

// The row of a server; where there is none, one that has done nothing and has no terms.
fn row_at(table: &Table, number: u16) -> Row
    ensures { result ≡ slice_index_or (table_rows table.now) number blank_row }
{
    table.row(number).unwrap_or(Row::fresh(0, Terms::BLANK))
}
