// The terms of one server: its kind, its budget and its period.
ghost use Rattle.std.specs.Prelude.{◌≡◌};
ghost use Rattle.plan.specs.Terms.{weight_of, bad_period, bad_budget, checked};

use crate::fault::PlanFault;

/// The common multiple of all periods, in ticks: every period divides it, and the weights of a plan
/// never add up to more.
pub const COMMON_MULTIPLE: u32 = 14_400;

/// Whether others may steal a server's capacity while it rests.
#[derive(Clone, Copy, PartialEq, Eq, Debug)]
pub enum Kind {
    /// An overloaded server may steal its capacity while it rests.
    NonIsolated,
    /// Others use only what it supplies of its own accord.
    Isolated,
}

/// What a server is owed: `budget` ticks in each `period` of ticks.
#[derive(Clone, Copy, PartialEq, Eq, Debug)]
pub struct Terms {
    pub kind: Kind,
    pub budget: u16,
    pub period: u16,
}

/// Whether no server may have this period: it is zero or does not divide the common multiple.
pub fn period_is_bad(period: u16) -> bool
    ensures { result ≡ bad_period period }
{
    period == 0 || COMMON_MULTIPLE % period as u32 != 0
}

/// Whether no server with this period may have this budget: it is zero or more than the period.
pub fn budget_is_bad(budget: u16, period: u16) -> bool
    ensures { result ≡ bad_budget budget period }
{
    budget == 0 || budget > period
}

impl Terms {
    /// The terms of no server, which an unused place of a table holds.
    pub const BLANK: Terms = Terms {
        kind: Kind::NonIsolated,
        budget: 0,
        period: 0,
    };

    // Refuses terms that no server may have, for the first limit that they break.
    pub(crate) fn check(&self) -> Result<(), PlanFault>
        ensures { result ≡ checked self.now }
    {
        if period_is_bad(self.period) {
            return Err(PlanFault::Period);
        }
        if budget_is_bad(self.budget, self.period) {
            return Err(PlanFault::Budget);
        }
        Ok(())
    }

    /// What the server weighs: the ticks that it is owed in one common multiple. A period of zero,
    /// which no plan has, weighs nothing.
    pub fn weight(&self) -> u32
        ensures { result ≡ weight_of self.now }
    {
        if self.period == 0 {
            return 0;
        }
        self.budget as u32 * (COMMON_MULTIPLE / self.period as u32)
    }
}
