//! A table: who runs, who pays and from what, and what is done to its rows, one at a time.
#![tactic(auto)]

#[cfg(test)]
mod tests {
    use donor::{EarliestFirst, Nobody, Offer};
    use plan::{Kind, Plan, Terms};
    use server::{Event, Instant, Payment, Phase, Source, Table};
    use std::process::Abort;
    use std::test::Fail;

    // As in another table of examples; a library for one line would be longer.
    fn instant(ticks: u32) -> Result<Instant, Fail> {
        Instant::new(ticks).ok_or_else(|| Fail::new("the clock does not come to it"))
    }

    // `add` and `holds` are much the same in two tables of examples; a library for them would be longer.
    fn add(plan: &mut Plan, kind: Kind, budget: u16, period: u16) -> Result<(), Fail> {
        let terms = Terms {
            kind,
            budget,
            period,
        };
        plan.add(terms)
            .map(|_| ())
            .map_err(|_| Fail::new("the plan has no room"))
    }

    fn pays(payer: u16, source: Source) -> Option<Payment> {
        Some(Payment { payer, source })
    }

    // under the rule that picks the earliest offer, this server runs at this instant, and this is who pays
    fn turn(
        rt: &impl Abort,
        table: &Table,
        ticks: u32,
        runner: Option<u16>,
        payment: Option<Payment>,
    ) -> Result<(), Fail> {
        let at = instant(ticks)?;
        let rule = EarliestFirst;
        assert_eq!(rt; table.runner(&rule, at), runner);
        assert_eq!(rt; table.payment(&rule, at, runner), payment);
        Ok(())
    }

    // a tick by its parts: the charge, a finish of the server if one is named, and the clock
    fn pass(
        table: &mut Table,
        ticks: u32,
        payment: Payment,
        finishes: Option<u16>,
    ) -> Result<(), Fail> {
        let at = instant(ticks)?;
        table.pay(payment, at);
        if let Some(server) = finishes {
            table.happens(Event::Finish, at, server);
        }
        table.pass(instant(ticks.saturating_add(1))?);
        Ok(())
    }

    // a server's phase, capacity, residual, deadline and jobs
    fn holds(
        rt: &impl Abort,
        table: &Table,
        server: u16,
        phase: Phase,
        account: (u16, u16, u32, u8),
    ) -> Result<(), Fail> {
        let row = table
            .row(server)
            .ok_or_else(|| Fail::new("there is no such server"))?;
        assert_eq!(rt; row.number, server);
        assert_eq!(rt; row.phase, phase);
        assert_eq!(rt;
            (
                row.account.capacity,
                row.account.residual,
                row.account.deadline,
                row.account.jobs,
            ),
            account
        );
        Ok(())
    }

    #[test]
    fn equal_deadlines_go_by_number(rt: HostRuntime) -> Result<(), Fail> {
        let mut plan = Plan::new();
        add(&mut plan, Kind::Isolated, 2, 4)?;
        add(&mut plan, Kind::Isolated, 2, 4)?;
        let mut table = Table::of(&plan);
        assert_eq!(rt; table.count(), 2);
        turn(&rt, &table, 0, None, None)?;
        table.happens(Event::Arrival, instant(0)?, 1);
        turn(&rt, &table, 0, Some(1), pays(1, Source::Own))?;
        table.happens(Event::Arrival, instant(0)?, 0);
        turn(&rt, &table, 0, Some(0), pays(0, Source::Own))?;
        // a server that is not there changes nothing
        table.happens(Event::Arrival, instant(0)?, 2);
        table.happens(Event::Arrival, instant(0)?, 65_535);
        table.pay(
            Payment {
                payer: 2,
                source: Source::Own,
            },
            instant(0)?,
        );
        assert_eq!(rt; table.rows().len(), 2);
        holds(&rt, &table, 0, Phase::AtWork, (2, 0, 4, 1))?;
        holds(&rt, &table, 1, Phase::AtWork, (2, 0, 4, 1))
    }

    #[test]
    fn what_is_supplied_comes_before_the_own_capacity(rt: HostRuntime) -> Result<(), Fail> {
        let mut plan = Plan::new();
        add(&mut plan, Kind::Isolated, 2, 4)?;
        add(&mut plan, Kind::Isolated, 2, 8)?;
        let mut table = Table::of(&plan);
        table.happens(Event::Arrival, instant(0)?, 0);
        table.happens(Event::Arrival, instant(0)?, 1);
        turn(&rt, &table, 0, Some(0), pays(0, Source::Own))?;
        let own = Payment {
            payer: 0,
            source: Source::Own,
        };
        pass(&mut table, 0, own, Some(0))?;
        holds(&rt, &table, 0, Phase::Supplying, (0, 1, 4, 0))?;
        turn(&rt, &table, 1, Some(1), pays(0, Source::Residual))?;
        let supplied = Payment {
            payer: 0,
            source: Source::Residual,
        };
        pass(&mut table, 1, supplied, None)?;
        holds(&rt, &table, 0, Phase::Supplying, (0, 0, 4, 0))?;
        holds(&rt, &table, 1, Phase::AtWork, (2, 0, 8, 1))?;
        turn(&rt, &table, 2, Some(1), pays(1, Source::Own))?;
        // at its deadline the supplying row rests
        table.pass(instant(4)?);
        holds(&rt, &table, 0, Phase::Resting, (0, 0, 4, 0))
    }

    #[test]
    fn what_is_supplied_past_the_deadline_is_not_taken(rt: HostRuntime) -> Result<(), Fail> {
        let mut plan = Plan::new();
        add(&mut plan, Kind::Isolated, 2, 8)?;
        add(&mut plan, Kind::Isolated, 2, 4)?;
        let mut table = Table::of(&plan);
        table.happens(Event::Arrival, instant(0)?, 0);
        table.happens(Event::Finish, instant(0)?, 0);
        holds(&rt, &table, 0, Phase::Supplying, (0, 2, 8, 0))?;
        // idle time takes it, a row at work with an earlier deadline does not
        turn(&rt, &table, 0, None, pays(0, Source::Idle))?;
        table.happens(Event::Arrival, instant(0)?, 1);
        turn(&rt, &table, 0, Some(1), pays(1, Source::Own))
    }

    #[test]
    fn a_row_that_cannot_run_is_passed_over(rt: HostRuntime) -> Result<(), Fail> {
        let mut plan = Plan::new();
        add(&mut plan, Kind::Isolated, 1, 4)?;
        add(&mut plan, Kind::Isolated, 2, 8)?;
        let mut table = Table::of(&plan);
        table.happens(Event::Arrival, instant(0)?, 0);
        table.happens(Event::Arrival, instant(0)?, 1);
        let own = Payment {
            payer: 0,
            source: Source::Own,
        };
        turn(&rt, &table, 0, Some(0), Some(own))?;
        pass(&mut table, 0, own, None)?;
        holds(&rt, &table, 0, Phase::AtWork, (0, 0, 4, 1))?;
        turn(&rt, &table, 1, Some(1), pays(1, Source::Own))
    }

    // server 2 is at work with the deadline 8 and nothing left at instant 2
    fn a_thief(rt: &impl Abort) -> Result<Table, Fail> {
        let mut plan = Plan::new();
        add(&mut plan, Kind::NonIsolated, 2, 4)?;
        add(&mut plan, Kind::NonIsolated, 1, 4)?;
        add(&mut plan, Kind::Isolated, 2, 8)?;
        let mut table = Table::of(&plan);
        let own = Payment {
            payer: 2,
            source: Source::Own,
        };
        table.happens(Event::Arrival, instant(0)?, 2);
        pass(&mut table, 0, own, None)?;
        pass(&mut table, 1, own, None)?;
        holds(rt, &table, 2, Phase::AtWork, (0, 0, 8, 1))?;
        Ok(table)
    }

    #[test]
    fn a_thief_and_its_donor(rt: HostRuntime) -> Result<(), Fail> {
        let mut table = a_thief(&rt)?;
        turn(&rt, &table, 2, Some(2), pays(0, Source::Stolen))?;
        // a rule that picks nobody leaves the thief without a tick
        let rule = Nobody;
        assert_eq!(rt; table.runner(&rule, instant(2)?), None);
        assert_eq!(rt; table.payment(&rule, instant(2)?, Some(2)), None);
        // the donor is recharged for it
        let stolen = Payment {
            payer: 0,
            source: Source::Stolen,
        };
        pass(&mut table, 2, stolen, None)?;
        holds(&rt, &table, 0, Phase::Resting, (1, 0, 6, 0))?;
        turn(&rt, &table, 3, Some(2), pays(0, Source::Stolen))?;
        // and not again before its deadline
        pass(&mut table, 3, stolen, None)?;
        holds(&rt, &table, 0, Phase::Resting, (0, 0, 6, 0))?;
        turn(&rt, &table, 4, Some(2), pays(1, Source::Stolen))
    }

    #[test]
    fn offers_stand_by_rising_number(rt: HostRuntime) -> Result<(), Fail> {
        let mut table = a_thief(&rt)?;
        let first = table.offers(instant(2)?, 8);
        let items = first.items();
        assert_eq!(rt; items.len(), 2);
        assert_eq!(rt;
            items[0],
            Offer {
                server: 0,
                deadline: 6,
                capacity: 2,
            }
        );
        assert_eq!(rt;
            items[1],
            Offer {
                server: 1,
                deadline: 6,
                capacity: 1,
            }
        );
        table.happens(Event::Arrival, instant(2)?, 0);
        let second = table.offers(instant(2)?, 8);
        assert_eq!(rt; second.items().len(), 1);
        assert_eq!(rt; table.offers(instant(2)?, 5).items().len(), 0);
        Ok(())
    }
}
