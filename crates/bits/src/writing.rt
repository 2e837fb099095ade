// Writing a field, bit by bit. The bytes and the place stay two arguments, unlike a reader's: a writer that
// held both would keep the caller's bytes to itself, and each clause would have to say what becomes of them.
ghost use Rattle.std.specs.Prelude.{◌≡◌, ℕ, ◌+◌, ◌-◌, ◌*◌, ◌%◌, ◌^◌, ◌<◌, ◌≤◌, ◌⊎◌, length, OnOk};
ghost use Rattle.bits.specs.Fields.{bits_before, bit_at, field_at, byte_with, put_field, field_written, bytes_after, place_after};

use crate::fault::BitsFault;
use crate::place::{Place, Width};
use crate::reading::bit_of;

/// Writes the low bits of a value as the field of this width at this place, and moves the place behind
/// it: the field then reads back as those bits, and no other bit has changed. Where fewer bits are
/// left, it refuses, and leaves the bytes and the place.
#[tactic(auto, using(crate::proofs::Written::put_field_made, crate::proofs::Written::put_field_kept))]
pub fn write_field(
    bytes: &mut [u8],
    at: &mut Place,
    width: Width,
    value: u32,
) -> Result<(), BitsFault>
    ensures answer { result ≡ field_written bytes.old (bits_before at.old) width.bits }
    ensures bytes { bytes.new ≡ bytes_after bytes.old (bits_before at.old) width.bits value }
    ensures place { bits_before at.new ≡ place_after bytes.old (bits_before at.old) width.bits }
    ensures reads_back { OnOk result (field_at bytes.new (bits_before at.old) width.bits ≡ value % 2 ^ width.bits) }
    ensures elsewhere { (q : ℕ) → (q < bits_before at.old) ⊎ (bits_before at.old + width.bits ≤ q) → bit_at bytes.new q ≡ bit_at bytes.old q }
{
    if !at.has_room(bytes.len(), width) {
        return Err(BitsFault::Short);
    }
    put_field(bytes, *at, width, value);
    *at = at.after(width);
    Ok(())
}

// Writes a field that the bytes have room for.
#[tactic(auto, using(crate::proofs::Written::put_field_more))]
fn put_field(bytes: &mut [u8], at: Place, width: Width, value: u32)
    requires { bits_before at + width.bits ≤ 8 * length bytes.old }
    ensures { bytes.new ≡ put_field bytes.old (bits_before at) width.bits value }
{
    // Bits have no list to go over: `k` is the number of a bit, and no index.
    for k in 0..width.bits {
        let bit = at.bit + k;
        let byte = at.byte + (bit / 8) as usize;
        let digit = (value >> (width.bits - 1 - k)) % 2;
        bytes[byte] = byte_with(bytes[byte], bit % 8, digit as u8);
    }
}

// A byte with bit `k`, 0 the most significant, made `digit`.
#[tactic(auto, using(crate::proofs::Bytes::byte_parts, crate::proofs::Bytes::byte_lt))]
fn byte_with(byte: u8, k: u8, digit: u8) -> u8
    requires { (k < 8) × (digit < 2) }
    ensures { result ≡ byte_with byte k digit }
{
    let weight = weight_of(k);
    byte - bit_of(byte, k) * weight + digit * weight
}

// What bit `k` of a byte weighs.
fn weight_of(k: u8) -> u8
    requires { k < 8 }
    ensures { result ≡ 2 ^ (7 - k) }
{
    1 << (7 - k)
}
