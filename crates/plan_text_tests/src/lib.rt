//! Tests of plans as text: what is read, what is not understood or refused, and what is shown.
#![tactic(auto)]

#[cfg(test)]
mod tests {
    use plan::{Kind, Plan, PlanFault, Terms};
    use plan_text::{LineFault, TextFault, message, parse_plan, table};
    use std::alloc::Global;
    use std::process::Abort;
    use std::test::Fail;

    // As in other tables of examples; a library for a few lines would be longer.
    const FIRST: Terms = Terms {
        kind: Kind::NonIsolated,
        budget: 2,
        period: 5,
    };

    const SECOND: Terms = Terms {
        kind: Kind::Isolated,
        budget: 4,
        period: 10,
    };

    // The text stands for the first row and the second.
    fn reads_both(rt: &impl Abort, text: &str) {
        let mut plan = Plan::new();
        assert_eq!(rt; parse_plan(text.as_bytes(), &mut plan), Ok(()), "{text}");
        assert_eq!(rt; plan.count(), 2, "{text}");
        assert_eq!(rt; plan.row(0), Some(FIRST), "{text}");
        assert_eq!(rt; plan.row(1), Some(SECOND), "{text}");
    }

    // The text has this fault, and a plan that is to take it keeps its only row.
    fn fails(rt: &impl Abort, text: &[u8], note: &str, line: usize, fault: LineFault) {
        let mut plan = Plan::new();
        assert_eq!(rt; plan.add(SECOND), Ok(0), "{note}");
        assert_eq!(rt;
            parse_plan(text, &mut plan),
            Err(TextFault { line, fault }),
            "{note}"
        );
        assert_eq!(rt; plan.count(), 1, "{note}");
        assert_eq!(rt; plan.row(0), Some(SECOND), "{note}");
    }

    #[test]
    fn reads_rows(rt: HostRuntime) {
        let texts = [
            "shared 2 5\nisolated 4 10\n",
            "shared 2 5\nisolated 4 10",
            "shared 2 5\r\nisolated 4 10\r\n",
            "\tshared\t 2   5 \n  isolated 4\t\t10\n",
            "# two servers\n\nshared 2 5 # fast\n \t\nisolated 4 10#slow\n# end",
            "shared 0002 05\nisolated 000000000000000000000000004 10\n",
        ];
        for text in texts {
            reads_both(&rt, text);
        }
    }

    #[test]
    fn reads_no_rows(rt: HostRuntime) {
        let mut plan = Plan::new();
        assert_eq!(rt; plan.add(FIRST), Ok(0));
        assert_eq!(rt; parse_plan(b"", &mut plan), Ok(()));
        assert_eq!(rt; plan.count(), 0);
        assert_eq!(rt; plan.add(FIRST), Ok(0));
        assert_eq!(rt; parse_plan(b"\n \r\n# nothing", &mut plan), Ok(()));
        assert_eq!(rt; plan.count(), 0);
    }

    #[test]
    fn tells_what_is_not_understood(rt: HostRuntime) {
        let cases = [
            ("shared", 1, LineFault::Words),
            ("\nshared 2\n", 2, LineFault::Words),
            ("shared 2 5 1", 1, LineFault::Words),
            ("x x x x", 1, LineFault::Words),
            ("shared 2 # 5", 1, LineFault::Words),
            ("shared 2 5\n# one\nShared 4 x", 3, LineFault::Kind),
            ("isolate 2 5", 1, LineFault::Kind),
            ("isolatedx 2 5", 1, LineFault::Kind),
            ("shared -2 5", 1, LineFault::Number),
            ("shared 2 5.0", 1, LineFault::Number),
            ("shared / 5\nx", 1, LineFault::Number),
            ("shared : 5", 1, LineFault::Number),
        ];
        for (text, line, fault) in cases {
            fails(&rt, text.as_bytes(), text, line, fault);
        }
        fails(
            &rt,
            b"shared 2 \xff",
            "no text at all",
            1,
            LineFault::Number,
        );
    }

    #[test]
    fn tells_what_is_refused(rt: HostRuntime) {
        // 16 bits would wrap 65541 to 5 and 65538 to 2.
        let cases = [
            ("shared 1 7", 1, PlanFault::Period),
            ("shared 1 0", 1, PlanFault::Period),
            ("shared 0 5", 1, PlanFault::Budget),
            ("shared 5 5\n\nshared 1 14400", 3, PlanFault::Weight),
            ("shared 1 65535", 1, PlanFault::Period),
            ("shared 65535 5", 1, PlanFault::Budget),
            ("shared 2 65541", 1, PlanFault::Period),
            ("shared 65538 5", 1, PlanFault::Budget),
            (
                "shared 2 1000000000000000000000000000000000000005",
                1,
                PlanFault::Period,
            ),
        ];
        for (text, line, refusal) in cases {
            fails(
                &rt,
                text.as_bytes(),
                text,
                line,
                LineFault::Refused(refusal),
            );
        }
    }

    #[test]
    fn refuses_a_row_too_many(rt: HostRuntime) -> Result<(), Fail> {
        let mut text = String::new(rt.alloc());
        for _ in 0..33 {
            text.push_str("isolated 1 14400\n")?;
        }
        fails(
            &rt,
            text.as_bytes(),
            "33 servers",
            33,
            LineFault::Refused(PlanFault::Full),
        );
        Ok(())
    }

    #[test]
    fn numbers_only_refusals(rt: HostRuntime) {
        let cases = [
            (LineFault::Words, None),
            (LineFault::Kind, None),
            (LineFault::Number, None),
            (LineFault::Refused(PlanFault::Full), Some(1)),
            (LineFault::Refused(PlanFault::Period), Some(2)),
            (LineFault::Refused(PlanFault::Budget), Some(3)),
            (LineFault::Refused(PlanFault::Weight), Some(4)),
        ];
        for (fault, number) in cases {
            assert_eq!(rt; fault.number(), number);
        }
    }

    // The plan of the text has this table.
    fn shows(
        rt: &impl Abort,
        heap: Global,
        text: &[u8],
        length: usize,
        want: &str,
    ) -> Result<(), Fail> {
        let mut plan = Plan::new();
        assert_eq!(rt; parse_plan(text, &mut plan), Ok(()));
        assert_eq!(rt; table(heap, &plan, length)?.as_str(), want);
        Ok(())
    }

    #[test]
    fn shows_tables(rt: HostRuntime) -> Result<(), Fail> {
        let full = concat!(
            "server  kind           Q      T  period ms  weight   share %\n",
            "     0  shared         2      5       1.25    5760     40.00\n",
            "     1  isolated       4     10       2.50    5760     40.00\n",
            "     2  isolated       3     15       3.75    2880     20.00\n",
            " total                                       14400    100.00\n",
            "  free                                           0      0.00\n",
            "file 21 bytes\n",
        );
        shows(
            &rt,
            rt.alloc(),
            b"shared 2 5\nisolated 4 10\nisolated 3 15",
            21,
            full,
        )?;
        let none = concat!(
            "server  kind           Q      T  period ms  weight   share %\n",
            " total                                           0      0.00\n",
            "  free                                       14400    100.00\n",
            "file 0 bytes\n",
        );
        shows(&rt, rt.alloc(), b"", 0, none)?;
        // 18 of 14,400 are 0.125 percent: half a hundredth goes up.
        let small = concat!(
            "server  kind           Q      T  period ms  weight   share %\n",
            "     0  isolated      18  14400    3600.00      18      0.13\n",
            " total                                          18      0.13\n",
            "  free                                       14382     99.88\n",
            "file 65536 bytes\n",
        );
        shows(&rt, rt.alloc(), b"isolated 18 14400", 65536, small)
    }

    #[test]
    fn writes_messages(rt: HostRuntime) -> Result<(), Fail> {
        let cases = [
            (
                3,
                LineFault::Refused(PlanFault::Period),
                "line 3: refusal 2: the period must be a divisor of 14400 ticks",
            ),
            (
                10,
                LineFault::Refused(PlanFault::Full),
                "line 10: refusal 1: a plan has at most 32 servers",
            ),
            (
                1,
                LineFault::Words,
                "line 1: not understood: a row is a kind, a budget and a period",
            ),
            (
                2,
                LineFault::Kind,
                "line 2: not understood: the kind must be isolated or shared",
            ),
            (
                7,
                LineFault::Number,
                "line 7: not understood: the budget and the period must be whole numbers of ticks",
            ),
        ];
        for (line, fault, want) in cases {
            assert_eq!(rt;
                message(rt.alloc(), &TextFault { line, fault })?.as_str(),
                want
            );
        }
        Ok(())
    }
}
