// Carrying out a tick, once who runs and who pays are known.
ghost use Rattle.std.specs.Prelude.{◌≡◌, map};
ghost use Rattle.server.specs.Tick.{paid, finished_by, passed};
ghost use Rattle.server.specs.Table.{table_rows};
ghost use Rattle.executive.specs.Calls.{runner_number, payer_number, source_of, left_of, payer_deadline, payer_left, ticked_with, told_of};

use crate::answer::{TickAnswer, runner_number, who_runs};
use donor::DonorRule;
use server::{Event, Instant, Payment, Row, Source, Table, Turn};

// What is left of the capacity that this source is charged to.
fn left_of(source: Source, row: &Row) -> u16
    ensures { result ≡ left_of source row.now }
{
    match source {
        Source::Own => row.account.capacity,
        Source::Residual => row.account.residual,
        Source::Stolen => row.account.capacity,
        Source::Idle => row.account.residual,
        Source::Empty => 0,
    }
}

/// A tick about to be carried out: its instant, who runs and who pays, and whether the runner's job is done with it.
#[derive(Clone, Copy)]
pub(crate) struct Tick {
    pub(crate) at: Instant,
    pub(crate) turn: Turn,
    // As the call was told.
    pub(crate) finished: bool,
}

impl Tick {
    // The charge, if anybody pays.
    fn charge(&self, table: &mut Table)
        ensures { table_rows table.new ≡ paid self.now.at.ticks self.now.turn.payment (table_rows table.old) }
    {
        if let Some(payment) = self.turn.payment {
            table.pay(payment, self.at);
        }
    }

    // The finish of the runner's job, if it is told and somebody runs.
    fn finish(&self, table: &mut Table)
        ensures { table_rows table.new ≡ finished_by self.now.finished self.now.at.ticks self.now.turn.runner (table_rows table.old) }
    {
        if self.finished {
            if let Some(server) = self.turn.runner {
                table.happens(Event::Finish, self.at, server);
            }
        }
    }

    // The rule is told of a stolen tick.
    fn tell<R: DonorRule>(&self, rule: &mut R)
        ensures { rule.new ≡ told_of R.DonorRule.step (source_of self.now.turn.payment) rule.old self.now.at.ticks (runner_number self.now.turn.runner) (payer_number self.now.turn.payment) }
    {
        if let Some(
            Payment {
                payer,
                source: Source::Stolen,
            },
        ) = self.turn.payment
        {
            rule.charged(self.at.ticks, runner_number(self.turn.runner), payer);
        }
    }

    // The payer's deadline and what is left of the capacity charged.
    fn payer_account(&self, table: &Table) -> (u32, u16)
        ensures { result ≡ (payer_deadline self.now.turn.payment (table_rows table.now), payer_left self.now.turn.payment (table_rows table.now)) }
    {
        let Some(payment) = self.turn.payment else {
            return (0, 0);
        };
        let Some(row) = table.row(payment.payer) else {
            return (0, 0);
        };
        (row.account.deadline, left_of(payment.source, &row))
    }

    // The tick itself: the charge, what is answered, the rule told, the finish, and the clock with all deadlines and cuts.
    pub(crate) fn carry_out<R: DonorRule>(
        &self,
        table: &mut Table,
        rule: &mut R,
        next: Instant,
    ) -> TickAnswer
        ensures answer { result ≡ ticked_with self.now.turn.runner self.now.turn.payment (paid self.now.at.ticks self.now.turn.payment (table_rows table.old)) }
        ensures rows { table_rows table.new ≡ map (passed next.ticks) (finished_by self.now.finished self.now.at.ticks self.now.turn.runner (paid self.now.at.ticks self.now.turn.payment (table_rows table.old))) }
        ensures rule { rule.new ≡ told_of R.DonorRule.step (source_of self.now.turn.payment) rule.old self.now.at.ticks (runner_number self.now.turn.runner) (payer_number self.now.turn.payment) }
    {
        self.charge(table);
        let (deadline, left) = self.payer_account(table);
        self.tell(rule);
        self.finish(table);
        table.pass(next);
        let (runner, payer, source) = who_runs(self.turn);
        (runner, payer, source, deadline, left)
    }
}
