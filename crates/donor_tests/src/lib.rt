//! Donor rules on examples: who is picked, step after step, and at the edges of the allowance.
#![tactic(auto)]

#[cfg(test)]
mod tests {
    use donor::{Allowance, DonorRule, EarliestFirst, Nobody, Offer, Tally, Turns};
    use richest::Richest;
    use std::process::Abort;

    fn offer(server: u16, deadline: u32, capacity: u16) -> Offer {
        Offer {
            server,
            deadline,
            capacity,
        }
    }

    // the rule picks the offer at this position, or nobody
    fn picks<R: DonorRule>(
        rt: &impl Abort,
        rule: &R,
        instant: u32,
        thief: u16,
        offers: &[Offer],
        k: Option<usize>,
    ) {
        assert_eq!(rt; rule.choose(instant, thief, offers), k);
    }

    #[test]
    fn the_earliest_offer(rt: HostRuntime) {
        let rule = EarliestFirst;
        picks(&rt, &rule, 3, 2, &[offer(0, 6, 1), offer(1, 7, 1)], Some(0));
        picks(&rt, &rule, 3, 2, &[offer(0, 7, 1), offer(1, 6, 1)], Some(1));
        // at equal deadlines the smaller number, wherever it stands
        picks(
            &rt,
            &rule,
            3,
            2,
            &[offer(5, 6, 1), offer(4, 6, 9), offer(9, 6, 1)],
            Some(1),
        );
        picks(&rt, &rule, 3, 2, &[offer(31, 4_000_014_400, 1)], Some(0));
        picks(&rt, &rule, 3, 2, &[], None);
    }

    #[test]
    fn nobody_at_all(rt: HostRuntime) {
        picks(&rt, &Nobody, 3, 2, &[offer(0, 6, 1), offer(1, 7, 1)], None);
        picks(&rt, &Nobody, 3, 2, &[], None);
    }

    #[test]
    fn taking_turns(rt: HostRuntime) {
        let offers = [offer(0, 6, 1), offer(1, 7, 1)];
        let mut rule = Turns::new();
        picks(&rt, &rule, 0, 2, &offers, Some(0));
        rule.charged(0, 2, 0);
        picks(&rt, &rule, 1, 2, &offers, Some(1));
        rule.charged(1, 2, 1);
        picks(&rt, &rule, 2, 2, &offers, Some(0));
        // the last payer need not be on offer, nor the thief be the same
        rule.charged(2, 5, 3);
        picks(
            &rt,
            &rule,
            3,
            9,
            &[
                offer(1, 7, 1),
                offer(3, 7, 1),
                offer(6, 9, 1),
                offer(7, 8, 1),
            ],
            Some(2),
        );
        picks(&rt, &rule, 3, 9, &[offer(1, 7, 1), offer(3, 7, 1)], Some(0));
        rule.charged(3, 9, 65_535);
        picks(&rt, &rule, 4, 9, &[offer(65_535, 7, 1)], Some(0));
        picks(&rt, &rule, 4, 9, &[], None);
    }

    #[test]
    fn an_allowance_of_one(rt: HostRuntime) {
        let offers = [offer(0, 6, 1), offer(1, 7, 1)];
        let mut rule = Allowance::new(1, EarliestFirst);
        picks(&rt, &rule, 2, 2, &offers, Some(0));
        rule.charged(2, 2, 0);
        picks(&rt, &rule, 3, 2, &offers, None);
        // others are not limited by it
        picks(&rt, &rule, 3, 4, &offers, Some(0));
        picks(&rt, &rule, 14_399, 2, &offers, None);
        // in the next frame the count reads zero, and a step there clears it
        picks(&rt, &rule, 14_400, 2, &offers, Some(0));
        rule.charged(14_400, 4, 1);
        picks(&rt, &rule, 14_401, 2, &offers, Some(0));
        picks(&rt, &rule, 14_401, 4, &offers, None);
        // back in the first frame, which no clock does, nothing is counted
        picks(&rt, &rule, 14_399, 4, &offers, Some(0));
    }

    #[test]
    fn an_allowance_of_nothing(rt: HostRuntime) {
        let offers = [offer(0, 6, 1)];
        let rule = Allowance::new(0, EarliestFirst);
        for thief in [0u16, 1, 30, 31] {
            picks(&rt, &rule, 0, thief, &offers, None);
            picks(&rt, &rule, 28_800, thief, &offers, None);
        }
        // thieves above 31 are not limited
        for thief in [32u16, 33, 65_535] {
            picks(&rt, &rule, 0, thief, &offers, Some(0));
        }
    }

    #[test]
    fn the_largest_allowance(rt: HostRuntime) {
        let offers = [offer(0, 6, 1)];
        let mut rule = Allowance::new(65_535, EarliestFirst);
        for _ in 0..65_534u32 {
            rule.charged(7, 31, 0);
        }
        picks(&rt, &rule, 7, 31, &offers, Some(0));
        rule.charged(7, 31, 0);
        picks(&rt, &rule, 7, 31, &offers, None);
        // the count has come to its stop, and stays there
        rule.charged(7, 31, 0);
        rule.charged(7, 31, 0);
        picks(&rt, &rule, 7, 31, &offers, None);
        picks(&rt, &rule, 7, 30, &offers, Some(0));
    }

    #[test]
    fn thieves_that_are_not_counted(rt: HostRuntime) {
        let offers = [offer(0, 6, 1)];
        let mut rule = Allowance::new(1, EarliestFirst);
        rule.charged(0, 32, 0);
        rule.charged(0, 65_535, 0);
        picks(&rt, &rule, 1, 32, &offers, Some(0));
        picks(&rt, &rule, 1, 65_535, &offers, Some(0));
        picks(&rt, &rule, 1, 31, &offers, Some(0));
        rule.charged(1, 31, 0);
        picks(&rt, &rule, 2, 31, &offers, None);
        // their step in another frame clears the counts all the same
        rule.charged(14_400, 40, 0);
        picks(&rt, &rule, 14_401, 31, &offers, Some(0));
    }

    #[test]
    fn an_allowance_steps_the_rule_below(rt: HostRuntime) {
        let offers = [offer(0, 6, 1), offer(1, 7, 1)];
        let mut rule = Allowance::new(5, Turns::new());
        picks(&rt, &rule, 0, 2, &offers, Some(0));
        rule.charged(0, 2, 0);
        picks(&rt, &rule, 1, 2, &offers, Some(1));
        // an allowance over an allowance: the lower one counts too
        let mut twice = Allowance::new(9, Allowance::new(1, EarliestFirst));
        picks(&rt, &twice, 0, 2, &offers, Some(0));
        twice.charged(0, 2, 0);
        picks(&rt, &twice, 1, 2, &offers, None);
    }

    #[test]
    fn counts_by_frame(rt: HostRuntime) {
        let mut tally = Tally::new();
        assert_eq!(rt; tally.count(0, 3), 0);
        tally.note(14_399, 3);
        tally.note(0, 3);
        tally.note(0, 40);
        assert_eq!(rt; tally.count(5, 3), 2);
        assert_eq!(rt; tally.count(5, 2), 0);
        assert_eq!(rt; tally.count(5, 40), 0);
        assert_eq!(rt; tally.count(14_400, 3), 0);
        tally.note(4_000_000_000, 31);
        assert_eq!(rt; tally.count(4_000_000_000, 31), 1);
        assert_eq!(rt; tally.count(4_000_000_000, 3), 0);
    }

    #[test]
    fn a_stranger_picks_the_richest(rt: HostRuntime) {
        picks(
            &rt,
            &Richest,
            3,
            2,
            &[offer(0, 6, 2), offer(1, 7, 5), offer(4, 6, 3)],
            Some(1),
        );
        // the first of several
        picks(
            &rt,
            &Richest,
            3,
            2,
            &[offer(0, 6, 2), offer(1, 7, 5), offer(4, 6, 5)],
            Some(1),
        );
        picks(
            &rt,
            &Richest,
            3,
            2,
            &[offer(8, 6, 0), offer(9, 7, 0)],
            Some(0),
        );
        picks(&rt, &Richest, 3, 2, &[], None);
        let mut limited = Allowance::new(1, Richest);
        picks(
            &rt,
            &limited,
            3,
            2,
            &[offer(0, 6, 2), offer(1, 7, 5)],
            Some(1),
        );
        limited.charged(3, 2, 1);
        picks(&rt, &limited, 4, 2, &[offer(0, 6, 2), offer(1, 7, 5)], None);
    }

    #[test]
    fn letters(rt: HostRuntime) {
        assert_eq!(rt; <EarliestFirst as DonorRule>::LETTER, 'E');
        assert_eq!(rt; <Nobody as DonorRule>::LETTER, 'N');
        assert_eq!(rt; <Turns as DonorRule>::LETTER, 'T');
        assert_eq!(rt; <Richest as DonorRule>::LETTER, 'R');
    }
}
