// The records of a trace: what an executive hears in a flight.
ghost use Rattle.std.specs.Prelude.{◌≡◌};
ghost use Rattle.records.specs.Trace.{record_of, record_read};

use crate::fault::RecordsFault;
use crate::layout::{ARGUMENT, TRACE_KIND};
use bits::FieldReader;

/// A record of a trace.
#[derive(Clone, Copy, PartialEq, Eq, Debug)]
pub enum TraceRecord {
    /// So many ticks without a finish, at least one.
    Ticks(u16),
    /// An arrival at the server of this number.
    Arrival(u16),
    /// One tick with a finish.
    Finish,
}

/// How many bytes a record has.
pub const RECORD_BYTES: usize = 2;

// The record of a kind with this argument.
fn record_of(kind: u32, argument: u16) -> Result<TraceRecord, RecordsFault>
    ensures { result ≡ record_of kind argument }
{
    match (kind, argument) {
        (0, 1..) => Ok(TraceRecord::Ticks(argument)),
        (1, _) => Ok(TraceRecord::Arrival(argument)),
        (2, 0) => Ok(TraceRecord::Finish),
        _ => Err(RecordsFault::Trace),
    }
}

/// The record of a trace that begins at this byte.
pub fn read_record(bytes: &[u8], byte: usize) -> Result<TraceRecord, RecordsFault>
    ensures { result ≡ record_read bytes.now byte }
{
    let mut fields = FieldReader::at_byte(bytes, byte);
    let kind = fields.read(TRACE_KIND)?;
    let argument = fields.read(ARGUMENT)?;
    record_of(kind, argument as u16)
}
