//! Fields of 1 to 16 bits at each of the eight bits of a byte, held to a table of bits.
#![tactic(auto)]

#[cfg(test)]
mod tests {
    use bits::{BitsFault, Place, Width, read_field, write_field};
    use faults::Fault;
    use std::process::Abort;
    use std::test::Fail;

    const BYTES: [u8; 5] = [0xA5, 0x3C, 0x96, 0x0F, 0x5A];

    // the same five bytes, bit by bit
    const BITS: [u8; 40] = [
        1, 0, 1, 0, 0, 1, 0, 1, // A5
        0, 0, 1, 1, 1, 1, 0, 0, // 3C
        1, 0, 0, 1, 0, 1, 1, 0, // 96
        0, 0, 0, 0, 1, 1, 1, 1, // 0F
        0, 1, 0, 1, 1, 0, 1, 0, // 5A
    ];

    fn width_of(bits: u8) -> Result<Width, Fail> {
        Width::new(bits).ok_or_else(|| Fail::new("there is no such width"))
    }

    // the value of so many bits from this one on, by the table
    fn by_table(start: usize, bits: usize) -> u32 {
        let mut value: u32 = 0;
        for bit in BITS.iter().skip(start).take(bits) {
            value = value.wrapping_mul(2).wrapping_add(u32::from(*bit));
        }
        value
    }

    fn reads(rt: &impl Abort, bit: u8, bits: u8) -> Result<(), Fail> {
        let width = width_of(bits)?;
        let mut at = Place {
            byte: 1,
            bit: bit % 8,
        };
        let start = 8 + (bit % 8) as usize;
        assert_eq!(rt;
            read_field(&BYTES, &mut at, width),
            Ok(by_table(start, bits as usize))
        );
        assert_eq!(rt; at.byte, (start + bits as usize) / 8);
        assert_eq!(rt; at.bit as usize, (start + bits as usize) % 8);
        Ok(())
    }

    #[test]
    fn each_width_at_each_bit_is_read(rt: HostRuntime) -> Result<(), Fail> {
        for bit in 0..8u8 {
            for bits in 1..17u8 {
                reads(&rt, bit, bits)?;
            }
        }
        Ok(())
    }

    // bit `k` that five bytes must have after the low `bits` bits of `value` were written from `start` on
    // into bytes that all were `fill`
    fn expected_bit(k: usize, start: usize, bits: usize, value: u32, fill: u8) -> u32 {
        if k < start || k - start >= bits || bits > 16 {
            return u32::from(fill % 2);
        }
        (value >> (bits - 1 - (k - start))) % 2
    }

    fn writes(rt: &impl Abort, bit: u8, bits: u8, value: u32, fill: u8) -> Result<(), Fail> {
        let width = width_of(bits)?;
        let mut bytes = [fill; 5];
        let mut at = Place {
            byte: 1,
            bit: bit % 8,
        };
        let start = 8 + (bit % 8) as usize;
        assert_eq!(rt; write_field(&mut bytes, &mut at, width, value), Ok(()));
        // the bits of a byte are no list
        for k in 0..40usize {
            let found = u32::from(bytes[k / 8] >> (7 - k % 8)) % 2;
            assert_eq!(rt; found, expected_bit(k, start, bits as usize, value, fill));
        }
        assert_eq!(rt; at.byte * 8 + at.bit as usize, start + bits as usize);
        Ok(())
    }

    #[test]
    fn each_width_at_each_bit_is_written(rt: HostRuntime) -> Result<(), Fail> {
        for bit in 0..8u8 {
            for bits in 1..17u8 {
                writes(&rt, bit, bits, 0x1_5A35, 0x00)?;
                writes(&rt, bit, bits, 0x1_5A35, 0xFF)?;
            }
        }
        Ok(())
    }

    #[test]
    fn a_field_past_the_end_is_refused(rt: HostRuntime) -> Result<(), Fail> {
        let mut at = Place { byte: 4, bit: 7 };
        assert_eq!(rt;
            read_field(&BYTES, &mut at, width_of(2)?),
            Err(BitsFault::Short)
        );
        let mut bytes = BYTES;
        assert_eq!(rt;
            write_field(&mut bytes, &mut at, width_of(2)?, 3),
            Err(BitsFault::Short)
        );
        assert_eq!(rt; bytes, BYTES);
        assert!(rt; at.byte == 4 && at.bit == 7);
        assert_eq!(rt; read_field(&BYTES, &mut at, width_of(1)?), Ok(0));
        assert_eq!(rt;
            read_field(&BYTES, &mut at, width_of(1)?),
            Err(BitsFault::Short)
        );
        let mut far = Place {
            byte: usize::MAX,
            bit: 7,
        };
        assert_eq!(rt;
            read_field(&BYTES, &mut far, width_of(32)?),
            Err(BitsFault::Short)
        );
        assert_eq!(rt; BitsFault::Short.number(), 5);
        Ok(())
    }

    #[test]
    fn a_width_is_1_to_32_bits(rt: HostRuntime) {
        assert!(rt; Width::new(0).is_none());
        assert!(rt; Width::new(1).is_some());
        assert!(rt; Width::new(32).is_some());
        assert!(rt; Width::new(33).is_none());
    }
}
