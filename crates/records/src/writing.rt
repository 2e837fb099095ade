// Writing a plan file into the caller's buffer.
ghost use Rattle.std.specs.Prelude.{◌≡◌, ◌+◌, ◌*◌, ◌^◌, ◌<◌, ◌≤◌, ◌∷◌, ◌++◌, length, take, drop, IfOk, Ok};
ghost use Rattle.bits.specs.Fields.{bits_before, put_field};
ghost use Rattle.plan.specs.Plan.{rows_of};
ghost use Rattle.records.specs.Packed.{kind_bit, packed_row, packed_plan, packed_length};
ghost use Rattle.records.specs.PlanFile.{plan_read, plan_written, buffer_after};

use crate::fault::{Placed, PlanFileFault, RecordsFault, located};
use crate::layout::{COUNT, KIND, ROW_BYTES, TICKS, ZEROS};
use bits::{Place, Width, write_field};
use plan::table::MOST_ROWS;
use plan::{Kind, Plan, Terms};

/// How many bytes the longest plan file has.
pub const MOST_PLAN_BYTES: usize = 1 + ROW_BYTES * MOST_ROWS;

/// How many bytes the packed form of a plan has.
pub fn packed_length(plan: &Plan) -> usize
    ensures { result ≡ packed_length (length (rows_of plan.now)) }
{
    1 + ROW_BYTES * plan.count() as usize
}

// The bit that tells a kind. It is no `From`, since neither a kind nor a number is a type of this crate.
fn kind_bit(kind: Kind) -> u32
    ensures { result ≡ kind_bit kind }
{
    match kind {
        Kind::NonIsolated => 0,
        Kind::Isolated => 1,
    }
}

// Writes a field that the buffer has room for.
fn put(buffer: &mut [u8], at: &mut Place, width: Width, value: u32)
    requires { bits_before at.old + width.bits ≤ 8 * length buffer.old }
    ensures place { bits_before at.new ≡ bits_before at.old + width.bits }
    ensures bytes { buffer.new ≡ put_field buffer.old (bits_before at.old) width.bits value }
{
    write_field(buffer, at, width, value).unwrap()
}

// Writes the number of rows into the first byte.
fn put_count(buffer: &mut [u8], count: u16)
    requires { (1 ≤ length buffer.old) × (count < 256) }
    ensures { buffer.new ≡ count ∷ drop 1 buffer.old }
{
    let mut at = Place::at_byte(0);
    put(buffer, &mut at, COUNT, count as u32);
}

// Writes a row into the four bytes from this one on.
fn put_row(buffer: &mut [u8], byte: usize, terms: Terms)
    requires room { byte + 4 ≤ length buffer.old }
    requires budget { terms.budget < 2 ^ 14 }
    requires period { terms.period < 2 ^ 14 }
    ensures { buffer.new ≡ take byte buffer.old ++ (packed_row terms ++ drop (byte + 4) buffer.old) }
{
    let mut at = Place::at_byte(byte);
    put(buffer, &mut at, KIND, kind_bit(terms.kind));
    put(buffer, &mut at, ZEROS, 0);
    put(buffer, &mut at, TICKS, terms.budget as u32);
    put(buffer, &mut at, TICKS, terms.period as u32);
}

// Writes the packed form of a plan into a buffer that has room for it.
fn put_plan(plan: &Plan, buffer: &mut [u8])
    requires { packed_length (length (rows_of plan.now)) ≤ length buffer.old }
    ensures { buffer.new ≡ packed_plan (rows_of plan.now) ++ drop (packed_length (length (rows_of plan.now))) buffer.old }
{
    put_count(buffer, plan.count());
    for (k, terms) in plan.rows().iter().enumerate() {
        put_row(buffer, 1 + ROW_BYTES * k, *terms);
    }
}

/// Writes the packed form of a plan into the first bytes of the buffer, leaves the others, and answers
/// how many it filled: those bytes read back as the same plan. A buffer that is too short is refused,
/// and keeps every byte.
pub fn write_plan(plan: &Plan, buffer: &mut [u8]) -> Result<usize, Placed<PlanFileFault>>
    ensures answer { result ≡ plan_written (rows_of plan.now) buffer.old }
    ensures bytes { buffer.new ≡ buffer_after (rows_of plan.now) buffer.old }
    ensures reads_back { IfOk result (λ n. plan_read (take n buffer.new) ≡ Ok (rows_of plan.now)) }
{
    let length = packed_length(plan);
    if buffer.len() < length {
        return located(Err(RecordsFault::Buffer.into()), 0);
    }
    put_plan(plan, buffer);
    Ok(length)
}
