//! Plans at the edges of their limits: what `add` takes, what it refuses, and in which order.
#![tactic(auto)]

#[cfg(test)]
mod tests {
    use faults::Fault;
    use plan::{Kind, Plan, PlanFault, Terms};
    use std::process::Abort;

    // As in other tables of examples; a library for a few lines would be longer.
    fn shared(budget: u16, period: u16) -> Terms {
        Terms {
            kind: Kind::NonIsolated,
            budget,
            period,
        }
    }

    fn isolated(budget: u16, period: u16) -> Terms {
        Terms {
            kind: Kind::Isolated,
            budget,
            period,
        }
    }

    // the whole processor: 5,760 + 5,760 + 2,880
    fn full_plan(rt: &impl Abort) -> Plan {
        let mut plan = Plan::new();
        assert_eq!(rt; plan.add(shared(2, 5)), Ok(0));
        assert_eq!(rt; plan.add(isolated(4, 10)), Ok(1));
        assert_eq!(rt; plan.add(isolated(3, 15)), Ok(2));
        plan
    }

    #[test]
    fn weights_add_up(rt: HostRuntime) {
        assert_eq!(rt; shared(2, 5).weight(), 5_760);
        assert_eq!(rt; isolated(4, 10).weight(), 5_760);
        assert_eq!(rt; isolated(3, 15).weight(), 2_880);
        let plan = full_plan(&rt);
        assert_eq!(rt; plan.load(), 14_400);
        assert_eq!(rt; plan.free(), 0);
        assert_eq!(rt; plan.count(), 3);
        assert_eq!(rt; plan.rows().len(), 3);
        assert_eq!(rt; plan.row(0), Some(shared(2, 5)));
        assert_eq!(rt; plan.row(2), Some(isolated(3, 15)));
        assert_eq!(rt; plan.row(3), None);
    }

    #[test]
    fn more_than_the_processor_is_refused(rt: HostRuntime) {
        let mut plan = full_plan(&rt);
        assert_eq!(rt; plan.add(shared(1, 14_400)), Err(PlanFault::Weight));
        assert_eq!(rt; plan.count(), 3);
        assert_eq!(rt; plan.load(), 14_400);
    }

    // a period on an empty plan, with a budget of 1
    fn alone(rt: &impl Abort, period: u16, answer: Result<u16, PlanFault>) {
        let mut plan = Plan::new();
        assert_eq!(rt; plan.add(shared(1, period)), answer);
    }

    #[test]
    fn a_period_divides_the_common_multiple(rt: HostRuntime) {
        for period in [1, 2, 3, 4, 16, 64, 225, 4_800, 7_200, 14_400] {
            alone(&rt, period, Ok(0));
        }
        for period in [
            0, 7, 11, 14, 28, 128, 14_399, 14_401, 28_800, 43_200, 65_535,
        ] {
            alone(&rt, period, Err(PlanFault::Period));
        }
    }

    #[test]
    fn a_budget_is_1_to_the_period(rt: HostRuntime) {
        let mut plan = Plan::new();
        assert_eq!(rt; plan.add(isolated(0, 16)), Err(PlanFault::Budget));
        assert_eq!(rt; plan.add(isolated(17, 16)), Err(PlanFault::Budget));
        assert_eq!(rt; plan.add(isolated(65_535, 16)), Err(PlanFault::Budget));
        assert_eq!(rt; plan.count(), 0);
        assert_eq!(rt; plan.add(isolated(16, 16)), Ok(0));
        assert_eq!(rt; plan.add(isolated(1, 16)), Err(PlanFault::Weight));
    }

    #[test]
    fn the_first_reason_is_told(rt: HostRuntime) {
        let mut plan = Plan::new();
        // a bad period before a bad budget, and that before the weight
        assert_eq!(rt; plan.add(shared(0, 7)), Err(PlanFault::Period));
        assert_eq!(rt; plan.add(shared(0, 0)), Err(PlanFault::Period));
        assert_eq!(rt; plan.add(shared(9, 7)), Err(PlanFault::Period));
        assert_eq!(rt; plan.add(shared(5, 5)), Ok(0));
        assert_eq!(rt; plan.add(shared(0, 5)), Err(PlanFault::Budget));
        assert_eq!(rt; plan.add(shared(6, 5)), Err(PlanFault::Budget));
        assert_eq!(rt; plan.add(shared(1, 5)), Err(PlanFault::Weight));
    }

    #[test]
    fn there_are_32_rows_at_most(rt: HostRuntime) {
        let mut plan = Plan::new();
        for number in 0..32u16 {
            assert_eq!(rt; plan.add(shared(1, 14_400)), Ok(number));
        }
        // the number of rows comes before every other reason
        assert_eq!(rt; plan.add(shared(1, 14_400)), Err(PlanFault::Full));
        assert_eq!(rt; plan.add(shared(0, 7)), Err(PlanFault::Full));
        assert_eq!(rt; plan.count(), 32);
        assert_eq!(rt; plan.load(), 32);
    }

    #[test]
    fn refusals_are_numbered(rt: HostRuntime) {
        assert_eq!(rt; PlanFault::Full.number(), 1);
        assert_eq!(rt; PlanFault::Period.number(), 2);
        assert_eq!(rt; PlanFault::Budget.number(), 3);
        assert_eq!(rt; PlanFault::Weight.number(), 4);
    }
}
