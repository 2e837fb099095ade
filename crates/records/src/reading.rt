// Reading a plan file, record by record.
ghost use Rattle.std.specs.Prelude.{◌≡◌, ◌+◌, ◌*◌, ◌<◌, ◌≤◌, [], length, OnErr, OnOk};
ghost use Rattle.plan.specs.Plan.{rows_of};
ghost use Rattle.records.specs.Packed.{kind_of, packed_plan};
ghost use Rattle.records.specs.PlanFile.{count_read, in_file, row_read, row_taken, rows_from, plan_read, answer_of, rows_left};

use crate::fault::{Placed, PlanFileFault, RecordsFault, located};
use crate::layout::{COUNT, KIND, ROW_BYTES, TICKS, ZEROS};
use bits::FieldReader;
use plan::{Kind, Plan, Terms};

// The number of rows that the file announces.
fn read_count(bytes: &[u8]) -> Result<u8, PlanFileFault>
    ensures { result ≡ in_file (count_read bytes.now) }
{
    // A `?` goes one layer up, and a fault of these bits goes two.
    let count = FieldReader::at_byte(bytes, 0)
        .read(COUNT)
        .map_err(RecordsFault::Bits)?;
    Ok(count as u8)
}

// The kind that a bit tells. It is no `From`, since neither a kind nor a number is a type of this crate.
fn kind_of(bit: u32) -> Kind
    ensures { result ≡ kind_of bit }
{
    if bit == 0 {
        Kind::NonIsolated
    } else {
        Kind::Isolated
    }
}

// The row in the record that begins at this byte.
fn read_row(bytes: &[u8], byte: usize) -> Result<Terms, RecordsFault>
    ensures { result ≡ row_read bytes.now byte }
{
    let mut fields = FieldReader::at_byte(bytes, byte);
    let kind = fields.read(KIND)?;
    let zeros = fields.read(ZEROS)?;
    let budget = fields.read(TICKS)?;
    let period = fields.read(TICKS)?;
    if zeros != 0 {
        return Err(RecordsFault::ZeroBits);
    }
    Ok(Terms {
        kind: kind_of(kind),
        budget: budget as u16,
        period: period as u16,
    })
}

// Reads the row at this byte and adds it to the plan.
fn take_row(bytes: &[u8], byte: usize, plan: &mut Plan) -> Result<(), PlanFileFault>
    ensures answer { result ≡ answer_of (row_taken bytes.now byte (rows_of plan.old)) }
    ensures rows { rows_of plan.new ≡ rows_left (row_taken bytes.now byte (rows_of plan.old)) (rows_of plan.old) }
{
    let terms = read_row(bytes, byte)?;
    plan.add(terms)?;
    Ok(())
}

// Reads so many rows from byte 1 on and adds them to the plan; nothing may follow the last.
fn take_rows(bytes: &[u8], count: u8, plan: &mut Plan) -> Result<(), Placed<PlanFileFault>>
    ensures answer { result ≡ answer_of (rows_from bytes.now 1 count (rows_of plan.old)) }
    ensures rows { OnOk result (rows_of plan.new ≡ rows_left (rows_from bytes.now 1 count (rows_of plan.old)) []) }
{
    // By the number of the row: a loop by `step_by` over the bytes ends in two places, and each would
    // need the proof of its last turn again.
    for k in 0..count {
        let byte = 1 + ROW_BYTES * k as usize;
        located(take_row(bytes, byte, plan), byte)?;
    }
    let end = 1 + ROW_BYTES * count as usize;
    if end < bytes.len() {
        return located(Err(RecordsFault::Trailing.into()), end);
    }
    Ok(())
}

/// Reads a plan file. The caller's plan becomes the one in the file where the whole file is accepted;
/// a fault leaves it. An accepted file is the packed form of the plan that it gave, byte for byte.
pub fn read_plan(bytes: &[u8], plan: &mut Plan) -> Result<(), Placed<PlanFileFault>>
    ensures answer { result ≡ answer_of (plan_read bytes.now) }
    ensures rows { rows_of plan.new ≡ rows_left (plan_read bytes.now) (rows_of plan.old) }
    ensures kept { OnErr result (plan.new ≡ plan.old) }
    ensures one_file { OnOk result (bytes.now ≡ packed_plan (rows_of plan.new)) }
{
    let mut fresh = Plan::new();
    let count = located(read_count(bytes), 0)?;
    take_rows(bytes, count, &mut fresh)?;
    *plan = fresh;
    Ok(())
}
