// The three calls.
ghost use Rattle.std.specs.Prelude.{◌≡◌, suc, Ok, None};
ghost use Rattle.server.specs.Demand.{Sound};
ghost use Rattle.server.specs.Turn.{runner_of};
ghost use Rattle.executive.specs.Calls.{arrive_answer, after_arrive, who_of, choice_at, payment_at, tick_refusal, tick_of, ticked_by};

use super::Executive;
use super::ticking::Tick;
use crate::answer::{TickAnswer, who_runs};
use crate::fault::CallFault;
use donor::DonorRule;
use server::row::MOST_JOBS;
use server::{Event, Instant, Source, Turn};

impl<R: DonorRule> Executive<R> {
    /// A job comes to a server. Refused where no server has this number, or where it has all jobs that it can count.
    pub fn arrive(&mut self, server: u16) -> Result<(), CallFault>
        ensures answer { result ≡ arrive_answer self.old.rows server }
        ensures state { self.new ≡ after_arrive self.old server }
        ensures bound { Sound self.new.instant self.new.rows }
    {
        let row = self.table.row(server).ok_or(CallFault::NoServer)?;
        if row.account.jobs >= MOST_JOBS {
            return Err(CallFault::Jobs);
        }
        self.table.happens(Event::Arrival, self.instant, server);
        Ok(())
    }

    /// Who would run in a tick now, who would pay, and from what: nobody is [`crate::NOBODY`].
    pub fn who(&self) -> (u16, u16, Source)
        ensures { result ≡ who_of R.DonorRule.choice self.now }
    {
        who_runs(self.table.turn(&self.rule, self.instant))
    }

    /// A tick, with or without a finish of the runner's job: who runs, who pays and from what, then the payer's deadline and
    /// what is left of the capacity charged, both right after the charge and 0 where nobody pays. Refused where the clock
    /// stands at its last instant, or where a finish is told and nobody runs.
    pub fn tick(&mut self, finished: bool) -> Result<TickAnswer, CallFault>
        ensures answer { result ≡ tick_of R.DonorRule.choice self.old finished }
        ensures state { self.new ≡ ticked_by R.DonorRule.choice R.DonorRule.step self.old finished }
        ensures bound { Sound self.new.instant self.new.rows }
    {
        let next = self.instant.next().ok_or(CallFault::Clock)?;
        let turn = self.table.turn(&self.rule, self.instant);
        if finished && turn.runner.is_none() {
            return Err(CallFault::Finish);
        }
        Ok(self.grant(turn, finished, next))
    }

    // A tick that nothing refuses is carried out. Apart from the call, so that what a refusal leaves is shown by itself.
    fn grant(&mut self, turn: Turn, finished: bool, next: Instant) -> TickAnswer
        requires next { next.ticks ≡ suc self.now.instant }
        requires runner { turn.runner ≡ runner_of (choice_at R.DonorRule.choice self.now) self.now.instant self.now.rows }
        requires payment { turn.payment ≡ payment_at (choice_at R.DonorRule.choice self.now) self.now.instant self.now.rows }
        requires granted { tick_refusal (choice_at R.DonorRule.choice self.now) self.now.instant self.now.rows finished ≡ None }
        ensures answer { Ok result ≡ tick_of R.DonorRule.choice self.old finished }
        ensures state { self.new ≡ ticked_by R.DonorRule.choice R.DonorRule.step self.old finished }
        ensures bound { Sound self.new.instant self.new.rows }
    {
        let tick = Tick {
            at: self.instant,
            turn,
            finished,
        };
        let answer = tick.carry_out(&mut self.table, &mut self.rule, next);
        self.instant = next;
        answer
    }
}
