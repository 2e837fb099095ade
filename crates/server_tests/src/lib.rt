//! One row: what each event does in each phase, and recharges, charges and cuts at their edges.
#![tactic(auto)]

#[cfg(test)]
mod tests {
    use plan::{Kind, Plan, Terms};
    use server::{Account, Event, Instant, Phase, Row, Table, offer_of};
    use std::process::Abort;
    use std::test::Fail;

    // a row of budget 3 and period 8
    fn row(phase: Phase, capacity: u16, residual: u16, deadline: u32, jobs: u8) -> Row {
        let terms = Terms {
            kind: Kind::NonIsolated,
            budget: 3,
            period: 8,
        };
        Row {
            number: 5,
            terms,
            phase,
            account: Account {
                capacity,
                residual,
                deadline,
                jobs,
            },
        }
    }

    // As in another table of examples; a library for one line would be longer.
    fn instant(ticks: u32) -> Result<Instant, Fail> {
        Instant::new(ticks).ok_or_else(|| Fail::new("the clock does not come to it"))
    }

    // the event at this instant makes the second row of the first
    fn leads(
        rt: &impl Abort,
        before: Row,
        event: Event,
        ticks: u32,
        after: Row,
    ) -> Result<(), Fail> {
        let mut found = before;
        found.happens(event, instant(ticks)?);
        assert_eq!(rt; found, after);
        Ok(())
    }

    #[test]
    fn an_arrival_at_rest(rt: HostRuntime) -> Result<(), Fail> {
        let work = Phase::AtWork;
        // the deadline has passed, or has just come: recharged
        leads(
            &rt,
            row(Phase::Resting, 0, 0, 0, 0),
            Event::Arrival,
            0,
            row(work, 3, 0, 8, 1),
        )?;
        leads(
            &rt,
            row(Phase::Resting, 1, 0, 20, 0),
            Event::Arrival,
            20,
            row(work, 3, 0, 28, 1),
        )?;
        leads(
            &rt,
            row(Phase::Resting, 1, 0, 19, 0),
            Event::Arrival,
            20,
            row(work, 3, 0, 28, 1),
        )?;
        // the deadline is still to come: it keeps what it has, if only nothing
        leads(
            &rt,
            row(Phase::Resting, 1, 0, 21, 0),
            Event::Arrival,
            20,
            row(work, 1, 0, 21, 1),
        )?;
        leads(
            &rt,
            row(Phase::Resting, 0, 0, 21, 0),
            Event::Arrival,
            20,
            row(work, 0, 0, 21, 1),
        )?;
        leads(
            &rt,
            row(Phase::Resting, 0, 0, 0, 0),
            Event::Arrival,
            4_000_000_000,
            row(work, 3, 0, 4_000_000_008, 1),
        )
    }

    #[test]
    fn an_arrival_in_the_other_phases(rt: HostRuntime) -> Result<(), Fail> {
        let work = Phase::AtWork;
        let supply = Phase::Supplying;
        leads(
            &rt,
            row(work, 2, 0, 9, 1),
            Event::Arrival,
            3,
            row(work, 2, 0, 9, 2),
        )?;
        leads(
            &rt,
            row(work, 0, 0, 9, 254),
            Event::Arrival,
            3,
            row(work, 0, 0, 9, 255),
        )?;
        leads(
            &rt,
            row(supply, 0, 2, 9, 0),
            Event::Arrival,
            3,
            row(supply, 0, 2, 9, 1),
        )?;
        leads(
            &rt,
            row(supply, 0, 0, 9, 7),
            Event::Arrival,
            3,
            row(supply, 0, 0, 9, 8),
        )
    }

    #[test]
    fn a_finish(rt: HostRuntime) -> Result<(), Fail> {
        let work = Phase::AtWork;
        let supply = Phase::Supplying;
        // the last job: what is left is supplied
        leads(
            &rt,
            row(work, 2, 0, 9, 1),
            Event::Finish,
            3,
            row(supply, 0, 2, 9, 0),
        )?;
        leads(
            &rt,
            row(work, 0, 0, 9, 1),
            Event::Finish,
            3,
            row(supply, 0, 0, 9, 0),
        )?;
        // the next job goes on
        leads(
            &rt,
            row(work, 2, 0, 9, 2),
            Event::Finish,
            3,
            row(work, 2, 0, 9, 1),
        )?;
        // only a row at work runs
        leads(
            &rt,
            row(supply, 0, 2, 9, 1),
            Event::Finish,
            3,
            row(supply, 0, 2, 9, 1),
        )?;
        leads(
            &rt,
            row(Phase::Resting, 2, 0, 9, 0),
            Event::Finish,
            3,
            row(Phase::Resting, 2, 0, 9, 0),
        )
    }

    #[test]
    fn a_deadline(rt: HostRuntime) -> Result<(), Fail> {
        let work = Phase::AtWork;
        let supply = Phase::Supplying;
        leads(
            &rt,
            row(work, 0, 0, 9, 2),
            Event::Deadline,
            9,
            row(work, 3, 0, 17, 2),
        )?;
        leads(
            &rt,
            row(work, 1, 0, 9, 2),
            Event::Deadline,
            9,
            row(work, 3, 0, 17, 2),
        )?;
        leads(
            &rt,
            row(supply, 0, 1, 9, 4),
            Event::Deadline,
            9,
            row(work, 3, 0, 17, 4),
        )?;
        leads(
            &rt,
            row(supply, 0, 1, 9, 0),
            Event::Deadline,
            9,
            row(Phase::Resting, 0, 0, 9, 0),
        )?;
        leads(
            &rt,
            row(Phase::Resting, 2, 0, 9, 0),
            Event::Deadline,
            9,
            row(Phase::Resting, 2, 0, 9, 0),
        )
    }

    // the cut at this instant leaves this capacity
    fn cut_to(rt: &impl Abort, before: Row, ticks: u32, capacity: u16) -> Result<(), Fail> {
        let mut found = before;
        found.cut(instant(ticks)?);
        let mut after = before;
        after.account.capacity = capacity;
        assert_eq!(rt; found, after);
        Ok(())
    }

    #[test]
    fn the_cut(rt: HostRuntime) -> Result<(), Fail> {
        let rest = Phase::Resting;
        // 3 ticks in 8: with 8, 6, 5, 3, 2 and 0 ticks to go, 3, 2 (18 / 8), 1 (15 / 8), 1 (9 / 8), 0 and 0
        cut_to(&rt, row(rest, 3, 0, 28, 0), 20, 3)?;
        cut_to(&rt, row(rest, 3, 0, 28, 0), 22, 2)?;
        cut_to(&rt, row(rest, 3, 0, 28, 0), 23, 1)?;
        cut_to(&rt, row(rest, 3, 0, 28, 0), 25, 1)?;
        cut_to(&rt, row(rest, 3, 0, 28, 0), 26, 0)?;
        cut_to(&rt, row(rest, 3, 0, 28, 0), 28, 0)?;
        // it never adds, and leaves a deadline that has passed and the other phases
        cut_to(&rt, row(rest, 1, 0, 28, 0), 20, 1)?;
        cut_to(&rt, row(rest, 3, 0, 28, 0), 29, 3)?;
        cut_to(&rt, row(Phase::AtWork, 3, 0, 28, 1), 27, 3)?;
        cut_to(&rt, row(Phase::Supplying, 0, 3, 28, 0), 27, 0)
    }

    #[test]
    fn the_cut_of_a_late_waker(rt: HostRuntime) -> Result<(), Fail> {
        // budget 8 in 20, robbed of one tick, deadline 21: at 17, 4 * 8 / 20 is 1
        let terms = Terms {
            kind: Kind::NonIsolated,
            budget: 8,
            period: 20,
        };
        let mut found = Row::fresh(0, terms);
        found.recharge(instant(1)?);
        found.charge_own();
        assert!(rt; found.account.capacity == 7 && found.account.deadline == 21);
        found.cut(instant(17)?);
        assert_eq!(rt; found.account.capacity, 1);
        Ok(())
    }

    #[test]
    fn recharges_and_charges(rt: HostRuntime) -> Result<(), Fail> {
        let mut found = row(Phase::Supplying, 0, 2, 9, 1);
        found.charge_residual();
        assert_eq!(rt; found, row(Phase::Supplying, 0, 1, 9, 1));
        found.charge_residual();
        found.charge_residual();
        assert_eq!(rt; found, row(Phase::Supplying, 0, 0, 9, 1));
        found.recharge(instant(40)?);
        assert_eq!(rt; found, row(Phase::Supplying, 3, 0, 48, 1));
        found.charge_own();
        assert_eq!(rt; found, row(Phase::Supplying, 2, 0, 48, 1));
        assert_eq!(rt; Row::fresh(5, found.terms), row(Phase::Resting, 0, 0, 0, 0));
        Ok(())
    }

    // what the row offers at this instant to a thief with this deadline: a deadline and a capacity
    fn offers(
        rt: &impl Abort,
        row: Row,
        ticks: u32,
        deadline: u32,
        offer: Option<(u32, u16)>,
    ) -> Result<(), Fail> {
        let found = offer_of(&row, instant(ticks)?, deadline);
        assert_eq!(rt;
            found.map(|shown| (shown.server, shown.deadline, shown.capacity)),
            offer.map(|(deadline, capacity)| (5, deadline, capacity))
        );
        Ok(())
    }

    #[test]
    fn offers_at_their_edges(rt: HostRuntime) -> Result<(), Fail> {
        let rest = Phase::Resting;
        // never recharged: due a period from now, with the whole budget, if that is by the thief's deadline
        let mut fresh = Row::fresh(
            5,
            Terms {
                kind: Kind::NonIsolated,
                budget: 2,
                period: 5,
            },
        );
        offers(&rt, fresh, 5, 10, Some((10, 2)))?;
        offers(&rt, fresh, 6, 10, None)?;
        offers(&rt, fresh, 0, 10, Some((5, 2)))?;
        // isolated rows offer nothing
        fresh.terms.kind = Kind::Isolated;
        offers(&rt, fresh, 5, 10, None)?;
        // a deadline still to come, by the thief's, with something left
        offers(&rt, row(rest, 2, 0, 10, 0), 9, 10, Some((10, 2)))?;
        offers(&rt, row(rest, 2, 0, 11, 0), 9, 10, None)?;
        offers(&rt, row(rest, 0, 0, 10, 0), 9, 10, None)?;
        // a deadline that has just come counts as passed
        offers(&rt, row(rest, 2, 0, 9, 0), 9, 17, Some((17, 3)))?;
        offers(&rt, row(rest, 2, 0, 9, 0), 9, 16, None)?;
        // only resting rows
        offers(&rt, row(Phase::AtWork, 2, 0, 10, 1), 9, 10, None)?;
        offers(&rt, row(Phase::Supplying, 0, 2, 10, 0), 9, 10, None)
    }

    #[test]
    fn a_table_of_a_plan(rt: HostRuntime) {
        let shared = Terms {
            kind: Kind::NonIsolated,
            budget: 2,
            period: 5,
        };
        let isolated = Terms {
            kind: Kind::Isolated,
            budget: 4,
            period: 10,
        };
        let mut plan = Plan::new();
        assert_eq!(rt; plan.add(shared), Ok(0));
        assert_eq!(rt; plan.add(isolated), Ok(1));
        let table = Table::of(&plan);
        assert_eq!(rt; table.row(0), Some(Row::fresh(0, shared)));
        assert_eq!(rt; table.row(1), Some(Row::fresh(1, isolated)));
        assert_eq!(rt; table.row(2), None);
        assert_eq!(rt; table.row(65_535), None);
        assert_eq!(rt; Table::of(&Plan::new()).row(0), None);
    }

    #[test]
    fn the_clock_stops(rt: HostRuntime) {
        assert!(rt; Instant::new(4_000_000_000).is_some());
        assert!(rt; Instant::new(4_000_000_001).is_none());
    }
}
