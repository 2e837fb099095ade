// What is done to a row: making it, recharging, charging and cutting it.
ghost use Rattle.std.specs.Prelude.{◌≡◌};
ghost use Rattle.server.specs.Row.{fresh_row, recharged, charged_own, charged_residual, share_left, cut_at};
ghost use Rattle.server.specs.Tick.{charged_for, passed};

use super::{Account, Event, Phase, Row};
use crate::instant::Instant;
use crate::turn::Source;
use plan::Terms;

impl Row {
    /// A row that has done nothing yet.
    pub fn fresh(number: u16, terms: Terms) -> Row
        ensures { result ≡ fresh_row number terms }
    {
        let account = Account {
            capacity: 0,
            residual: 0,
            deadline: 0,
            jobs: 0,
        };
        Row {
            number,
            terms,
            phase: Phase::Resting,
            account,
        }
    }

    /// Gives it its whole budget, with the deadline a period away.
    pub fn recharge(&mut self, at: Instant)
        ensures { self.new ≡ recharged at.ticks self.old }
    {
        self.account = Account {
            capacity: self.terms.budget,
            residual: 0,
            deadline: at.ticks + self.terms.period as u32,
            jobs: self.account.jobs,
        };
    }

    // Two charges, and not one with the field as a parameter: a lent field would say no more, and each is one line.
    /// Takes one tick from its own capacity, if there is one.
    pub fn charge_own(&mut self)
        ensures { self.new ≡ charged_own self.old }
    {
        self.account.capacity = self.account.capacity.saturating_sub(1);
    }

    /// Takes one tick from what it supplies, if there is one.
    pub fn charge_residual(&mut self)
        ensures { self.new ≡ charged_residual self.old }
    {
        self.account.residual = self.account.residual.saturating_sub(1);
    }

    /// The share of its budget that it may hold with its deadline still to come. A row with no period, which
    /// no plan has, has none.
    pub fn share_left(&self, at: Instant) -> u64
        ensures { result ≡ share_left at.ticks self.now }
    {
        if self.terms.period == 0 {
            return 0;
        }
        let left = self.account.deadline.saturating_sub(at.ticks);
        left as u64 * self.terms.budget as u64 / self.terms.period as u64
    }

    /// Cuts what a resting row holds to its share up to its deadline, if that has not passed.
    pub fn cut(&mut self, at: Instant)
        ensures { self.new ≡ cut_at at.ticks self.old }
    {
        if self.phase == Phase::Resting && at.ticks <= self.account.deadline {
            let share = self.share_left(at);
            if share < self.account.capacity as u64 {
                self.account.capacity = share as u16;
            }
        }
    }

    /// The row as the clock comes to an instant: its deadline, if that has come, and then the cut.
    pub fn pass(&mut self, at: Instant)
        ensures { self.new ≡ passed at.ticks self.old }
    {
        if self.account.deadline == at.ticks {
            self.happens(Event::Deadline, at);
        }
        self.cut(at);
    }

    /// Pays for a tick from this source. A row that is stolen from is recharged first, if its deadline has come.
    pub fn pay(&mut self, source: Source, at: Instant)
        ensures { self.new ≡ charged_for source at.ticks self.old }
    {
        match source {
            Source::Own => self.charge_own(),
            Source::Residual => self.charge_residual(),
            Source::Stolen => {
                if self.account.deadline <= at.ticks {
                    self.recharge(at);
                }
                self.charge_own();
            }
            Source::Idle => self.charge_residual(),
            Source::Empty => {}
        }
    }
}
