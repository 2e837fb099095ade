// Making an executive.
ghost use Rattle.std.specs.Prelude.{◌≡◌};
ghost use Rattle.plan.specs.Plan.{rows_of};
ghost use Rattle.server.specs.Demand.{Sound};
ghost use Rattle.executive.specs.Calls.{fresh_state};
ghost use Rattle.executive.specs.Shares.{LawOfShares};

use super::Executive;
use donor::DonorRule;
use plan::Plan;
use server::{Instant, Table};

impl<R: DonorRule> Executive<R> {
    /// An executive for a plan, under a donor rule in whatever state it is. The clock stands at 0 and every row is
    /// fresh. It promises the whole law of shares: whatever calls it hears from now on, each server gets what the
    /// plan gives it. The demand bound holds of it, and of what each call leaves.
    pub fn new(plan: &Plan, rule: R) -> Executive<R>
        ensures state { result ≡ fresh_state (rows_of plan.now) rule }
        ensures bound { Sound result.instant result.rows }
        ensures law { LawOfShares R.DonorRule.choice R.DonorRule.step (rows_of plan.now) result }
    {
        Executive {
            instant: Instant::start(),
            table: Table::of(plan),
            rule,
        }
    }
}
