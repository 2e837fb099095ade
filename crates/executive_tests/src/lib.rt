//! Executives at work: worked runs, refusals, and rules side by side. The expected numbers are worked out by hand from the
//! rules.
#![tactic(auto)]

#[cfg(test)]
mod tests {
    use donor::{Allowance, DonorRule, EarliestFirst, Turns};
    use executive::{CallFault, Executive, NOBODY, TickAnswer};
    use faults::Fault;
    use plan::{Kind, Plan, Terms};
    use richest::Richest;
    use server::{Phase, Row, Source};
    use std::process::Abort;
    use std::test::Fail;

    // `add` and `holds` are much the same in two tables of examples; a library for them would be longer.
    fn add(plan: &mut Plan, kind: Kind, budget: u16, period: u16) -> Result<(), Fail> {
        let terms = Terms {
            kind,
            budget,
            period,
        };
        plan.add(terms)
            .map(|_| ())
            .map_err(|_| Fail::new("the plan has no room"))
    }

    fn arrives<R: DonorRule>(rt: &impl Abort, executive: &mut Executive<R>, server: u16) {
        assert_eq!(rt; executive.arrive(server), Ok(()));
    }

    // the next tick answers this: who says so before it, and the clock goes on by one
    fn ticks<R: DonorRule>(
        rt: &impl Abort,
        executive: &mut Executive<R>,
        finished: bool,
        answer: TickAnswer,
    ) {
        let before = executive.instant();
        let (runner, payer, source, _, _) = answer;
        assert_eq!(rt; executive.who(), (runner, payer, source));
        assert_eq!(rt; executive.tick(finished), Ok(answer));
        assert_eq!(rt; executive.instant(), before.saturating_add(1));
    }

    // so many ticks with nobody running and nobody paying
    fn waits<R: DonorRule>(rt: &impl Abort, executive: &mut Executive<R>, count: u32) {
        for _ in 0..count {
            ticks(rt, executive, false, (NOBODY, NOBODY, Source::Empty, 0, 0));
        }
    }

    // a server's phase, capacity, residual, deadline and jobs
    fn holds<R>(
        rt: &impl Abort,
        executive: &Executive<R>,
        server: u16,
        phase: Phase,
        account: (u16, u16, u32, u8),
    ) -> Result<(), Fail> {
        let row = executive
            .row(server)
            .ok_or_else(|| Fail::new("there is no such server"))?;
        assert_eq!(rt; row.phase, phase);
        assert_eq!(rt;
            (
                row.account.capacity,
                row.account.residual,
                row.account.deadline,
                row.account.jobs,
            ),
            account
        );
        Ok(())
    }

    #[test]
    fn two_of_half_the_processor(rt: HostRuntime) -> Result<(), Fail> {
        let mut plan = Plan::new();
        add(&mut plan, Kind::Isolated, 2, 4)?;
        add(&mut plan, Kind::Isolated, 2, 4)?;
        let mut executive = Executive::new(&plan, EarliestFirst);
        assert_eq!(rt; executive.servers(), 2);
        assert_eq!(rt; executive.instant(), 0);
        arrives(&rt, &mut executive, 0);
        arrives(&rt, &mut executive, 1);
        ticks(&rt, &mut executive, false, (0, 0, Source::Own, 4, 1));
        ticks(&rt, &mut executive, false, (0, 0, Source::Own, 4, 0));
        ticks(&rt, &mut executive, false, (1, 1, Source::Own, 4, 1));
        ticks(&rt, &mut executive, false, (1, 1, Source::Own, 4, 0));
        // both are recharged at 4
        holds(&rt, &executive, 0, Phase::AtWork, (2, 0, 8, 1))?;
        holds(&rt, &executive, 1, Phase::AtWork, (2, 0, 8, 1))?;
        ticks(&rt, &mut executive, true, (0, 0, Source::Own, 8, 1));
        // what server 0 has left is due as early as server 1, and comes first
        ticks(&rt, &mut executive, false, (1, 0, Source::Residual, 8, 0));
        ticks(&rt, &mut executive, false, (1, 1, Source::Own, 8, 1));
        Ok(())
    }

    #[test]
    fn a_late_waker(rt: HostRuntime) -> Result<(), Fail> {
        let mut plan = Plan::new();
        add(&mut plan, Kind::NonIsolated, 8, 20)?;
        add(&mut plan, Kind::Isolated, 2, 4)?;
        add(&mut plan, Kind::Isolated, 1, 30)?;
        let mut executive = Executive::new(&plan, EarliestFirst);
        arrives(&rt, &mut executive, 2);
        ticks(&rt, &mut executive, false, (2, 2, Source::Own, 30, 0));
        ticks(&rt, &mut executive, true, (2, 0, Source::Stolen, 21, 7));
        holds(&rt, &executive, 0, Phase::Resting, (7, 0, 21, 0))?;
        waits(&rt, &mut executive, 15);
        // at 17 its share up to 21 is 4 * 8 / 20, which is 1
        assert_eq!(rt; executive.instant(), 17);
        holds(&rt, &executive, 0, Phase::Resting, (1, 0, 21, 0))?;
        arrives(&rt, &mut executive, 0);
        arrives(&rt, &mut executive, 1);
        ticks(&rt, &mut executive, false, (0, 0, Source::Own, 21, 0));
        ticks(&rt, &mut executive, false, (1, 1, Source::Own, 21, 1));
        ticks(&rt, &mut executive, false, (1, 1, Source::Own, 21, 0));
        Ok(())
    }

    // two servers that can be stolen from, and a thief with the deadline 8 that has used its budget at instant 2
    fn a_thief<R: DonorRule + Drop>(rt: &impl Abort, rule: R) -> Result<Executive<R>, Fail> {
        let mut plan = Plan::new();
        add(&mut plan, Kind::NonIsolated, 2, 4)?;
        add(&mut plan, Kind::NonIsolated, 1, 4)?;
        add(&mut plan, Kind::Isolated, 2, 8)?;
        let mut executive = Executive::new(&plan, rule);
        arrives(rt, &mut executive, 2);
        ticks(rt, &mut executive, false, (2, 2, Source::Own, 8, 1));
        ticks(rt, &mut executive, false, (2, 2, Source::Own, 8, 0));
        ticks(rt, &mut executive, false, (2, 0, Source::Stolen, 6, 1));
        Ok(executive)
    }

    #[test]
    fn rules_are_asked_and_told(rt: HostRuntime) -> Result<(), Fail> {
        // E: the earliest offer again
        ticks(
            &rt,
            &mut a_thief(&rt, EarliestFirst)?,
            false,
            (2, 0, Source::Stolen, 6, 0),
        );
        // T: the next server after the last payer
        ticks(
            &rt,
            &mut a_thief(&rt, Turns::new())?,
            false,
            (2, 1, Source::Stolen, 7, 0),
        );
        // an allowance of one tick over E: nobody
        waits(&rt, &mut a_thief(&rt, Allowance::new(1, EarliestFirst))?, 5);
        // an allowance of two: the third tick is refused to the thief
        let mut two = a_thief(&rt, Allowance::new(2, EarliestFirst))?;
        ticks(&rt, &mut two, false, (2, 0, Source::Stolen, 6, 0));
        waits(&rt, &mut two, 4);
        Ok(())
    }

    // at instant 2 server 0 offers one tick due at 6, and server 1 two ticks due at 7
    fn poor_and_rich<R: DonorRule + Drop>(rt: &impl Abort, rule: R) -> Result<Executive<R>, Fail> {
        let mut plan = Plan::new();
        add(&mut plan, Kind::NonIsolated, 1, 4)?;
        add(&mut plan, Kind::NonIsolated, 2, 5)?;
        add(&mut plan, Kind::Isolated, 2, 8)?;
        let mut executive = Executive::new(&plan, rule);
        arrives(rt, &mut executive, 2);
        ticks(rt, &mut executive, false, (2, 2, Source::Own, 8, 1));
        ticks(rt, &mut executive, false, (2, 2, Source::Own, 8, 0));
        Ok(executive)
    }

    #[test]
    fn a_rule_from_outside(rt: HostRuntime) -> Result<(), Fail> {
        ticks(
            &rt,
            &mut poor_and_rich(&rt, EarliestFirst)?,
            false,
            (2, 0, Source::Stolen, 6, 0),
        );
        let mut rich = poor_and_rich(&rt, Richest)?;
        ticks(&rt, &mut rich, false, (2, 1, Source::Stolen, 7, 1));
        // server 1 holds 1 of 2 ticks, its share of 4 ticks; server 0 offers as much, and stands first
        ticks(&rt, &mut rich, false, (2, 0, Source::Stolen, 7, 0));
        ticks(&rt, &mut rich, true, (2, 1, Source::Stolen, 7, 0));
        holds(&rt, &rich, 2, Phase::Supplying, (0, 0, 8, 0))
    }

    #[test]
    fn an_empty_plan(rt: HostRuntime) {
        let mut executive = Executive::new(&Plan::new(), EarliestFirst);
        assert_eq!(rt; executive.servers(), 0);
        assert_eq!(rt; executive.row(0), None);
        assert_eq!(rt; executive.arrive(0), Err(CallFault::NoServer));
        assert_eq!(rt; executive.tick(true), Err(CallFault::Finish));
        assert_eq!(rt; executive.instant(), 0);
        waits(&rt, &mut executive, 3);
    }

    #[test]
    fn refusals_change_nothing(rt: HostRuntime) -> Result<(), Fail> {
        let mut plan = Plan::new();
        add(&mut plan, Kind::Isolated, 1, 4)?;
        add(&mut plan, Kind::NonIsolated, 1, 4)?;
        let mut executive = Executive::new(&plan, Turns::new());
        // a finish where nobody runs
        assert_eq!(rt; executive.tick(true), Err(CallFault::Finish));
        assert_eq!(rt; executive.instant(), 0);
        // no such server
        assert_eq!(rt; executive.arrive(2), Err(CallFault::NoServer));
        assert_eq!(rt; executive.arrive(65_535), Err(CallFault::NoServer));
        // as many jobs as a server counts
        for _ in 0..255 {
            arrives(&rt, &mut executive, 0);
        }
        holds(&rt, &executive, 0, Phase::AtWork, (1, 0, 4, 255))?;
        let full = executive.row(0);
        assert_eq!(rt; executive.arrive(0), Err(CallFault::Jobs));
        assert_eq!(rt; executive.row(0), full);
        // after a finish there is room for one more
        ticks(&rt, &mut executive, true, (0, 0, Source::Own, 4, 0));
        arrives(&rt, &mut executive, 0);
        assert_eq!(rt; executive.arrive(0), Err(CallFault::Jobs));
        holds(&rt, &executive, 1, Phase::Resting, (0, 0, 0, 0))
    }

    #[test]
    fn the_numbers_of_refusals(rt: HostRuntime) {
        assert_eq!(rt; CallFault::NoServer.number(), 10);
        assert_eq!(rt; CallFault::Jobs.number(), 11);
        assert_eq!(rt; CallFault::Clock.number(), 12);
        assert_eq!(rt; CallFault::Finish.number(), 13);
    }

    #[test]
    fn idle_time(rt: HostRuntime) -> Result<(), Fail> {
        let mut plan = Plan::new();
        add(&mut plan, Kind::NonIsolated, 2, 5)?;
        add(&mut plan, Kind::Isolated, 4, 10)?;
        add(&mut plan, Kind::Isolated, 3, 15)?;
        let mut executive = Executive::new(&plan, EarliestFirst);
        arrives(&rt, &mut executive, 1);
        ticks(&rt, &mut executive, true, (1, 1, Source::Own, 10, 3));
        ticks(&rt, &mut executive, false, (NOBODY, 1, Source::Idle, 10, 2));
        ticks(&rt, &mut executive, false, (NOBODY, 1, Source::Idle, 10, 1));
        // jobs that come meanwhile wait for the deadline
        arrives(&rt, &mut executive, 1);
        ticks(&rt, &mut executive, false, (NOBODY, 1, Source::Idle, 10, 0));
        waits(&rt, &mut executive, 6);
        ticks(&rt, &mut executive, true, (1, 1, Source::Own, 20, 3));
        Ok(())
    }
}
