// What an arrival, a finish or a deadline does to a row, by the phase and the event together.
ghost use Rattle.std.specs.Prelude.{◌≡◌};
ghost use Rattle.server.specs.Row.{one_more, woken, done, renewed, supplied, happens};

use super::{Event, Phase, Row};
use crate::instant::Instant;

impl Row {
    /// What an event does to the row.
    pub fn happens(&mut self, event: Event, at: Instant)
        ensures { self.new ≡ happens event at.ticks self.old }
    {
        match (self.phase, event) {
            (Phase::Resting, Event::Arrival) => {
                self.wake(at);
                self.add_job();
            }
            (Phase::AtWork, Event::Arrival) => self.add_job(),
            (Phase::Supplying, Event::Arrival) => self.add_job(),
            (Phase::AtWork, Event::Finish) => self.end_job(),
            (Phase::AtWork, Event::Deadline) => self.renew(at),
            (Phase::Supplying, Event::Deadline) => self.end_supply(at),
            (Phase::Resting, Event::Finish) => {}
            (Phase::Supplying, Event::Finish) => {}
            (Phase::Resting, Event::Deadline) => {}
        }
    }

    // One job more.
    fn add_job(&mut self)
        ensures { self.new ≡ one_more self.old }
    {
        self.account.jobs = self.account.jobs.saturating_add(1);
    }

    // A resting row goes to work; if its deadline has passed it is recharged first.
    fn wake(&mut self, at: Instant)
        ensures { self.new ≡ woken at.ticks self.old }
    {
        if self.account.deadline <= at.ticks {
            self.recharge(at);
        }
        self.phase = Phase::AtWork;
    }

    // The job that runs is done: after the last one the row supplies what it has left.
    fn end_job(&mut self)
        ensures { self.new ≡ done self.old }
    {
        if self.account.jobs <= 1 {
            self.phase = Phase::Supplying;
            self.account.jobs = 0;
            self.account.residual = self.account.capacity;
            self.account.capacity = 0;
        } else {
            self.account.jobs -= 1;
        }
    }

    // Back to work with a new budget.
    fn renew(&mut self, at: Instant)
        ensures { self.new ≡ renewed at.ticks self.old }
    {
        self.recharge(at);
        self.phase = Phase::AtWork;
    }

    // A supplying row at its deadline: back to work if jobs wait, else it rests with nothing.
    fn end_supply(&mut self, at: Instant)
        ensures { self.new ≡ supplied at.ticks self.old }
    {
        if self.account.jobs == 0 {
            self.phase = Phase::Resting;
            self.account.capacity = 0;
            self.account.residual = 0;
        } else {
            self.renew(at);
        }
    }
}
