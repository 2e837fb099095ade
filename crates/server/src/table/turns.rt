// Who runs in a tick and who pays for it, over a table, under any donor rule.
ghost use Rattle.std.specs.Prelude.{◌≡◌};
ghost use Rattle.server.specs.Turn.{offers_to, runner_of, payment_of};
ghost use Rattle.server.specs.Gathered.{gathered};
ghost use Rattle.server.specs.Table.{table_rows};

use super::Table;
use crate::instant::Instant;
use crate::offers::{Offers, offer_of};
use crate::turn::dispatching::Dispatcher;
use crate::turn::{Payment, Turn};
use donor::DonorRule;

impl Table {
    /// All offers to a thief with this deadline, by rising number.
    pub fn offers(&self, at: Instant, deadline: u32) -> Offers
        ensures { gathered result ≡ offers_to at.ticks deadline (table_rows self.now) }
    {
        let mut offers = Offers::none();
        for row in self.rows().iter() {
            offers.join(offer_of(row, at, deadline));
        }
        offers
    }

    /// The runner: by deadline and then by number, the first row at work that can run.
    pub fn runner<R: DonorRule>(&self, rule: &R, at: Instant) -> Option<u16>
        ensures { result ≡ runner_of (R.DonorRule.choice rule.now at.ticks) at.ticks (table_rows self.now) }
    {
        self.dispatcher(rule, at).runner()
    }

    /// Who pays for a tick, if anybody: for the runner, or for idle time where nobody runs.
    pub fn payment<R: DonorRule>(
        &self,
        rule: &R,
        at: Instant,
        runner: Option<u16>,
    ) -> Option<Payment>
        ensures { result ≡ payment_of (R.DonorRule.choice rule.now at.ticks) at.ticks (table_rows self.now) runner }
    {
        self.dispatcher(rule, at).payment(runner)
    }

    /// Who runs in a tick, and who pays for it.
    pub fn turn<R: DonorRule>(&self, rule: &R, at: Instant) -> Turn
        ensures runner { result.runner ≡ runner_of (R.DonorRule.choice rule.now at.ticks) at.ticks (table_rows self.now) }
        ensures payment { result.payment ≡ payment_of (R.DonorRule.choice rule.now at.ticks) at.ticks (table_rows self.now) result.runner }
    {
        let dispatcher = self.dispatcher(rule, at);
        let runner = dispatcher.runner();
        let payment = dispatcher.payment(runner);
        Turn { runner, payment }
    }

    fn dispatcher<'a, R>(&'a self, rule: &'a R, at: Instant) -> Dispatcher<'a, R>
        ensures { (result.table.now ≡ self.now) × (result.rule.now ≡ rule.now) × (result.at ≡ at) }
    {
        Dispatcher {
            table: self,
            rule,
            at,
        }
    }
}
