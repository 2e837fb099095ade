//! Plan files: worked examples, and every fault with its number, layer and byte.
#![tactic(auto)]

#[cfg(test)]
mod tests {
    use faults::Fault;
    use plan::{Kind, Plan, Terms};
    use records::{Layer, Placed, PlanFileFault, packed_length, read_plan, write_plan};
    use std::process::Abort;
    use std::test::Fail;

    const FIRST: Terms = Terms {
        kind: Kind::NonIsolated,
        budget: 2,
        period: 5,
    };

    const SECOND: Terms = Terms {
        kind: Kind::Isolated,
        budget: 4,
        period: 10,
    };

    const THIRD: Terms = Terms {
        kind: Kind::Isolated,
        budget: 3,
        period: 15,
    };

    // the three, packed
    const FULL: [u8; 13] = [
        0x03, 0x00, 0x00, 0x80, 0x05, 0x80, 0x01, 0x00, 0x0A, 0x80, 0x00, 0xC0, 0x0F,
    ];

    fn full_plan(rt: &impl Abort) -> Plan {
        let mut plan = Plan::new();
        assert_eq!(rt; plan.add(FIRST), Ok(0));
        assert_eq!(rt; plan.add(SECOND), Ok(1));
        assert_eq!(rt; plan.add(THIRD), Ok(2));
        plan
    }

    #[test]
    fn the_full_plan_is_written(rt: HostRuntime) {
        let plan = full_plan(&rt);
        assert_eq!(rt; packed_length(&plan), 13);
        let mut buffer = [0xEE; 15];
        assert_eq!(rt; write_plan(&plan, &mut buffer), Ok(13));
        let (file, rest) = buffer.split_at(13);
        assert_eq!(rt; file, FULL.as_slice());
        assert_eq!(rt; rest, [0xEE, 0xEE].as_slice());
    }

    #[test]
    fn the_full_plan_is_read(rt: HostRuntime) {
        let mut plan = Plan::new();
        assert!(rt; read_plan(&FULL, &mut plan).is_ok());
        assert_eq!(rt; plan.count(), 3);
        assert_eq!(rt; plan.load(), 14_400);
        assert_eq!(rt; plan.row(0), Some(FIRST));
        assert_eq!(rt; plan.row(1), Some(SECOND));
        assert_eq!(rt; plan.row(2), Some(THIRD));
    }

    #[test]
    fn the_empty_plan_is_one_byte(rt: HostRuntime) {
        let mut plan = full_plan(&rt);
        assert!(rt; read_plan(&[0x00], &mut plan).is_ok());
        assert_eq!(rt; plan.count(), 0);
        let mut buffer = [0x77; 2];
        assert!(rt; write_plan(&plan, &mut buffer).is_ok());
        assert_eq!(rt; buffer, [0x00, 0x77]);
    }

    fn is_fault(
        rt: &impl Abort,
        found: Placed<PlanFileFault>,
        number: u8,
        layer: Layer,
        byte: usize,
    ) {
        assert_eq!(rt; found.fault.number(), number);
        assert_eq!(rt; found.fault.layer(), layer);
        assert_eq!(rt; found.byte, byte);
    }

    // the file has this fault, and a plan to be read into keeps its rows
    fn faulty(
        rt: &impl Abort,
        file: &[u8],
        number: u8,
        layer: Layer,
        byte: usize,
    ) -> Result<(), Fail> {
        let mut plan = full_plan(rt);
        let found = read_plan(file, &mut plan)
            .err()
            .ok_or_else(|| Fail::new("the file was accepted"))?;
        is_fault(rt, found, number, layer, byte);
        assert_eq!(rt; plan.count(), 3);
        assert_eq!(rt; plan.row(2), Some(THIRD));
        Ok(())
    }

    #[test]
    fn short_files(rt: HostRuntime) -> Result<(), Fail> {
        faulty(&rt, &[], 5, Layer::Bits, 0)?;
        faulty(&rt, &[0x01], 5, Layer::Bits, 1)?;
        faulty(&rt, &[0x01, 0x00, 0x00, 0x80], 5, Layer::Bits, 1)?;
        // a set zero bit is not told before the record is there whole
        faulty(&rt, &[0x01, 0x70, 0x00, 0x80], 5, Layer::Bits, 1)?;
        faulty(&rt, &[0x02, 0x00, 0x00, 0x80, 0x05], 5, Layer::Bits, 5)?;
        faulty(
            &rt,
            &[0x02, 0x00, 0x00, 0x80, 0x05, 0x80, 0x01, 0x00],
            5,
            Layer::Bits,
            5,
        )?;
        faulty(&rt, &[0xFF, 0x00, 0x00, 0x80, 0x05], 5, Layer::Bits, 5)
    }

    #[test]
    fn set_zero_bits(rt: HostRuntime) -> Result<(), Fail> {
        faulty(&rt, &[0x01, 0x40, 0x00, 0x80, 0x05], 6, Layer::Records, 1)?;
        faulty(&rt, &[0x01, 0x20, 0x00, 0x80, 0x05], 6, Layer::Records, 1)?;
        faulty(&rt, &[0x01, 0x10, 0x00, 0x80, 0x05], 6, Layer::Records, 1)?;
        // before the period of 7 is refused
        faulty(&rt, &[0x01, 0xF0, 0x00, 0x40, 0x07], 6, Layer::Records, 1)?;
        faulty(
            &rt,
            &[0x02, 0x00, 0x00, 0x80, 0x05, 0x10, 0x00, 0x80, 0x05],
            6,
            Layer::Records,
            5,
        )
    }

    #[test]
    fn bytes_after_the_last_row(rt: HostRuntime) -> Result<(), Fail> {
        faulty(&rt, &[0x00, 0x00], 7, Layer::Records, 1)?;
        faulty(
            &rt,
            &[0x01, 0x00, 0x00, 0x80, 0x05, 0x00],
            7,
            Layer::Records,
            5,
        )?;
        faulty(
            &rt,
            &[0x01, 0x00, 0x00, 0x80, 0x05, 0x80, 0x01, 0x00, 0x0A],
            7,
            Layer::Records,
            5,
        )
    }

    #[test]
    fn rows_that_the_plan_refuses(rt: HostRuntime) -> Result<(), Fail> {
        // period 0, 7 and 16,383; budget 0 and above the period; then more than the whole processor
        faulty(&rt, &[0x01, 0x00, 0x00, 0x40, 0x00], 2, Layer::Plan, 1)?;
        faulty(&rt, &[0x01, 0x00, 0x00, 0x40, 0x07], 2, Layer::Plan, 1)?;
        faulty(&rt, &[0x01, 0x00, 0x00, 0x7F, 0xFF], 2, Layer::Plan, 1)?;
        faulty(&rt, &[0x01, 0x00, 0x00, 0x00, 0x05], 3, Layer::Plan, 1)?;
        faulty(&rt, &[0x01, 0x00, 0x01, 0x80, 0x05], 3, Layer::Plan, 1)?;
        faulty(
            &rt,
            &[0x02, 0x00, 0x01, 0x40, 0x05, 0x80, 0x00, 0x40, 0x05],
            4,
            Layer::Plan,
            5,
        )?;
        // the row is refused before the bytes behind it are looked at
        faulty(
            &rt,
            &[0x01, 0x00, 0x00, 0x40, 0x07, 0x00],
            2,
            Layer::Plan,
            1,
        )
    }

    // rows of budget 1 and period 14,400, as many as fit
    fn fill_rows(rows: &mut [u8]) {
        for row in rows.chunks_exact_mut(4) {
            row[2] = 0x78;
            row[3] = 0x40;
        }
    }

    #[test]
    fn the_row_after_the_last_place(rt: HostRuntime) -> Result<(), Fail> {
        let mut file = [0u8; 133];
        fill_rows(&mut file[1..]);
        file[0] = 33;
        faulty(&rt, &file, 1, Layer::Plan, 129)?;
        file[0] = 32;
        faulty(&rt, &file, 7, Layer::Records, 129)?;
        let mut plan = Plan::new();
        assert!(rt; read_plan(&file[0..129], &mut plan).is_ok());
        assert_eq!(rt; plan.count(), 32);
        Ok(())
    }

    // a buffer of so many bytes is too short, and keeps each of them
    fn too_short(rt: &impl Abort, length: usize) -> Result<(), Fail> {
        let plan = full_plan(rt);
        let mut buffer = [0x5A; 13];
        if length > 13 {
            return Err(Fail::new("no such buffer"));
        }
        let found = write_plan(&plan, &mut buffer[0..length])
            .err()
            .ok_or_else(|| Fail::new("the buffer was taken"))?;
        is_fault(rt, found, 8, Layer::Records, 0);
        assert_eq!(rt; buffer, [0x5A; 13]);
        Ok(())
    }

    #[test]
    fn short_buffers(rt: HostRuntime) -> Result<(), Fail> {
        too_short(&rt, 0)?;
        too_short(&rt, 1)?;
        too_short(&rt, 12)
    }

    #[test]
    fn layers_have_words(rt: HostRuntime) {
        assert_eq!(rt; Layer::Bits.word(), "bits");
        assert_eq!(rt; Layer::Records.word(), "records");
        assert_eq!(rt; Layer::Plan.word(), "plan");
    }
}
