//! Traces, flights and lines: records at their edges, where a fault ends a flight and what then stands, and the bytes of
//! lines.
#![tactic(auto)]

#[cfg(test)]
mod tests {
    use bits::BitsFault;
    use donor::EarliestFirst;
    use executive::{CallFault, Executive, NOBODY, TickAnswer};
    use faults::Fault;
    use flight::{FlightFault, Page, TickCount, play};
    use plan::{Kind, Plan, Terms};
    use records::{RecordsFault, TraceRecord, read_record};
    use server::Source;
    use std::process::Abort;
    use std::test::Fail;

    #[test]
    fn records_of_a_trace(rt: HostRuntime) {
        let trace = [
            0x00, 0x01, 0x3f, 0xff, 0x40, 0x00, 0x7f, 0xff, 0x80, 0x00, 0x00,
        ];
        assert_eq!(rt; read_record(&trace, 0), Ok(TraceRecord::Ticks(1)));
        assert_eq!(rt; read_record(&trace, 2), Ok(TraceRecord::Ticks(16_383)));
        assert_eq!(rt; read_record(&trace, 4), Ok(TraceRecord::Arrival(0)));
        assert_eq!(rt; read_record(&trace, 6), Ok(TraceRecord::Arrival(16_383)));
        assert_eq!(rt; read_record(&trace, 8), Ok(TraceRecord::Finish));
        // one byte is left, and none
        let short = Err(RecordsFault::Bits(BitsFault::Short));
        assert_eq!(rt; read_record(&trace, 10), short);
        assert_eq!(rt; read_record(&trace, 11), short);
    }

    #[test]
    fn records_that_there_are_not(rt: HostRuntime) {
        let bad = Err(RecordsFault::Trace);
        assert_eq!(rt; read_record(&[0x00, 0x00], 0), bad);
        assert_eq!(rt; read_record(&[0x80, 0x01], 0), bad);
        assert_eq!(rt; read_record(&[0xbf, 0xff], 0), bad);
        assert_eq!(rt; read_record(&[0xc0, 0x00], 0), bad);
        assert_eq!(rt; read_record(&[0xff, 0xff], 0), bad);
    }

    // one isolated server of 2 ticks in 4
    fn one_server() -> Result<Executive<EarliestFirst>, Fail> {
        let mut plan = Plan::new();
        let terms = Terms {
            kind: Kind::Isolated,
            budget: 2,
            period: 4,
        };
        plan.add(terms)
            .map_err(|_| Fail::new("the plan has no room"))?;
        Ok(Executive::new(&plan, EarliestFirst))
    }

    // the trace ends with this fault at this byte, if with one, after so many ticks, and the clock has gone as far
    fn flies(
        rt: &impl Abort,
        trace: &[u8],
        ticks: u32,
        fault: Option<(FlightFault, usize)>,
    ) -> Result<(), Fail> {
        let mut executive = one_server()?;
        let mut count = TickCount { ticks: 0 };
        let ended = play(&mut executive, trace, &mut count).err();
        assert_eq!(rt; ended.map(|placed| (placed.fault, placed.byte)), fault);
        assert_eq!(rt; count.ticks, ticks);
        assert_eq!(rt; executive.instant(), ticks);
        Ok(())
    }

    #[test]
    fn whole_flights(rt: HostRuntime) -> Result<(), Fail> {
        flies(&rt, &[], 0, None)?;
        flies(&rt, &[0x00, 0x05], 5, None)?;
        // a finish on the server's own capacity
        flies(&rt, &[0x40, 0x00, 0x80, 0x00, 0x00, 0x01], 2, None)
    }

    #[test]
    fn flights_that_a_fault_ends(rt: HostRuntime) -> Result<(), Fail> {
        // what came before stands
        flies(
            &rt,
            &[0x00, 0x03, 0x40, 0x01, 0x00, 0x09],
            3,
            Some((FlightFault::Executive(CallFault::NoServer), 2)),
        )?;
        flies(
            &rt,
            &[0x80, 0x00],
            0,
            Some((FlightFault::Executive(CallFault::Finish), 0)),
        )?;
        flies(
            &rt,
            &[0x00, 0x03, 0xc0, 0x00, 0x00, 0x09],
            3,
            Some((FlightFault::Records(RecordsFault::Trace), 2)),
        )?;
        flies(
            &rt,
            &[0x00, 0x03, 0x00],
            3,
            Some((
                FlightFault::Records(RecordsFault::Bits(BitsFault::Short)),
                2,
            )),
        )?;
        // after its two ticks the server cannot run, so nobody can finish
        flies(
            &rt,
            &[0x40, 0x00, 0x00, 0x02, 0x80, 0x00, 0x00, 0x03],
            2,
            Some((FlightFault::Executive(CallFault::Finish), 4)),
        )
    }

    #[test]
    fn numbers_and_layers(rt: HostRuntime) {
        let refused = FlightFault::Executive(CallFault::Clock);
        assert_eq!(rt; refused.number(), 12);
        assert_eq!(rt; refused.layer().word(), "executive");
        let record = FlightFault::Records(RecordsFault::Trace);
        assert_eq!(rt; record.number(), 9);
        assert_eq!(rt; record.layer().word(), "records");
        let short = FlightFault::Records(RecordsFault::Bits(BitsFault::Short));
        assert_eq!(rt; short.number(), 5);
        assert_eq!(rt; short.layer().word(), "bits");
    }

    // the line of a tick is this text
    fn lists(rt: &impl Abort, instant: u32, answer: TickAnswer, text: &[u8]) {
        let mut page = Page::new();
        page.put_line(instant, answer);
        assert!(rt; page.text() == text);
    }

    #[test]
    fn lines(rt: HostRuntime) {
        lists(&rt, 3, (2, 1, Source::Residual, 10, 0), b"3 2 r 1 10 0\n");
        lists(
            &rt,
            9,
            (NOBODY, NOBODY, Source::Empty, 0, 0),
            b"9 - e - - -\n",
        );
        lists(&rt, 1, (NOBODY, 1, Source::Idle, 10, 2), b"1 - i 1 10 2\n");
        lists(&rt, 7, (2, 0, Source::Stolen, 12, 1), b"7 2 s 0 12 1\n");
        lists(
            &rt,
            0,
            (0, 0, Source::Own, 14_400, 14_399),
            b"0 0 o 0 14400 14399\n",
        );
        lists(
            &rt,
            3_999_999_999,
            (31, 30, Source::Residual, 4_000_014_400, 65_535),
            b"3999999999 31 r 30 4000014400 65535\n",
        );
    }
}
