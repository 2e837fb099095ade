// Reading a field, bit by bit.
ghost use Rattle.std.specs.Prelude.{◌≡◌, ◌+◌, ◌*◌, ◌^◌, ◌<◌, ◌≤◌, length, IfOk};
ghost use Rattle.bits.specs.Fields.{bits_before, bit_of, field_at, field_read, place_after};

use crate::fault::BitsFault;
use crate::place::{Place, Width};

/// Reads the field of this width at this place, and moves the place behind it. Where fewer bits are
/// left, it refuses and leaves the place.
#[tactic(auto, using(crate::proofs::Fields::field_lt))]
pub fn read_field(bytes: &[u8], at: &mut Place, width: Width) -> Result<u32, BitsFault>
    ensures value { result ≡ field_read bytes.now (bits_before at.old) width.bits }
    ensures place { bits_before at.new ≡ place_after bytes.now (bits_before at.old) width.bits }
    ensures fits { IfOk result (λ value. value < 2 ^ width.bits) }
{
    if !at.has_room(bytes.len(), width) {
        return Err(BitsFault::Short);
    }
    let value = field(bytes, *at, width);
    *at = at.after(width);
    Ok(value)
}

// No model: its view would be these two fields again, and no clause shorter.
/// Reads the fields of some bytes, each behind the one before.
#[derive(Clone, Copy)]
pub struct FieldReader<'a> {
    bytes: &'a [u8],
    at: Place,
}

impl<'a> FieldReader<'a> {
    /// A reader whose first field begins with this byte.
    pub fn at_byte(bytes: &'a [u8], byte: usize) -> FieldReader<'a>
        ensures bytes { result.bytes.now ≡ bytes.now }
        ensures place { bits_before result.at ≡ 8 * byte }
    {
        FieldReader {
            bytes,
            at: Place::at_byte(byte),
        }
    }

    /// Reads the next field, which has this width. Where fewer bits are left, it refuses and stays there.
    pub fn read(&mut self, width: Width) -> Result<u32, BitsFault>
        ensures value { result ≡ field_read self.old.bytes.now (bits_before self.old.at) width.bits }
        ensures place { bits_before self.new.at ≡ place_after self.old.bytes.now (bits_before self.old.at) width.bits }
        ensures bytes { self.new.bytes.now ≡ self.old.bytes.now }
        ensures fits { IfOk result (λ value. value < 2 ^ width.bits) }
    {
        read_field(self.bytes, &mut self.at, width)
    }
}

// The value of a field that the bytes have.
#[tactic(auto, using(crate::proofs::Fields::field_fits))]
fn field(bytes: &[u8], at: Place, width: Width) -> u32
    requires { bits_before at + width.bits ≤ 8 * length bytes.now }
    ensures { result ≡ field_at bytes.now (bits_before at) width.bits }
{
    let mut value: u32 = 0;
    // Bits have no list to go over: `k` is the number of a bit, and no index.
    for k in 0..width.bits {
        let bit = at.bit + k;
        value = value * 2 + bit_of(bytes[at.byte + (bit / 8) as usize], bit % 8) as u32;
    }
    value
}

// Bit `k` of a byte, 0 the most significant.
pub(crate) fn bit_of(byte: u8, k: u8) -> u8
    requires { k < 8 }
    ensures { result ≡ bit_of byte k }
{
    (byte >> (7 - k)) % 2
}
