// Playing a trace, record by record, up to the first fault.
ghost use Rattle.std.specs.Prelude.{◌≡◌, List, ◌++◌};
ghost use Rattle.records.specs.Trace.{record_read};
ghost use Rattle.flight.specs.Flight.{Line, Flies, ended_by, flown_tick, flown_ticks, flown_record, flown_read, played};

use crate::fault::FlightFault;
use crate::listener::Listener;
use donor::DonorRule;
use executive::{CallFault, Executive};
use records::fault::located;
use records::trace::RECORD_BYTES;
use records::{Placed, TraceRecord, read_record};

// The executive and the listener stay two parameters throughout: a struct of the two loans would make no contract shorter.

// One tick.
fn fly_tick<R: DonorRule, L: Listener>(
    executive: &mut Executive<R>,
    finished: bool,
    listener: &mut L,
) -> Result<(), CallFault>
    ensures { Flies L.Listener.heard (flown_tick R.DonorRule.choice R.DonorRule.step finished executive.old) result executive.new listener.old listener.new }
{
    let at = executive.instant();
    let answer = executive.tick(finished)?;
    listener.hear(at, answer);
    Ok(())
}

// So many ticks without a finish.
fn fly_ticks<R: DonorRule, L: Listener>(
    executive: &mut Executive<R>,
    count: u16,
    listener: &mut L,
) -> Result<(), CallFault>
    ensures { Flies L.Listener.heard (flown_ticks R.DonorRule.choice R.DonorRule.step count executive.old) result executive.new listener.old listener.new }
{
    for _ in 0..count {
        fly_tick(executive, false, listener)?;
    }
    Ok(())
}

// One record.
fn fly_record<R: DonorRule, L: Listener>(
    executive: &mut Executive<R>,
    entry: TraceRecord,
    listener: &mut L,
) -> Result<(), CallFault>
    ensures { Flies L.Listener.heard (flown_record R.DonorRule.choice R.DonorRule.step entry executive.old) result executive.new listener.old listener.new }
{
    match entry {
        TraceRecord::Ticks(count) => fly_ticks(executive, count, listener),
        TraceRecord::Arrival(server) => executive.arrive(server),
        TraceRecord::Finish => fly_tick(executive, true, listener),
    }
}

// The record that begins at this byte, if it can be read.
fn fly_at<R: DonorRule, L: Listener>(
    executive: &mut Executive<R>,
    trace: &[u8],
    byte: usize,
    listener: &mut L,
) -> Result<(), FlightFault>
    ensures { Flies L.Listener.heard (flown_read R.DonorRule.choice R.DonorRule.step (record_read trace.now byte) executive.old) result executive.new listener.old listener.new }
{
    let entry = read_record(trace, byte)?;
    fly_record(executive, entry, listener)?;
    Ok(())
}

/// Plays a trace on an executive, record by record, up to the first fault: the executive is then as the records before it,
/// and the ticks of the same record before it, left it. The listener hears every tick in its order.
pub fn play<R: DonorRule, L: Listener>(
    executive: &mut Executive<R>,
    trace: &[u8],
    listener: &mut L,
) -> Result<(), Placed<FlightFault>>
    ensures answer { result ≡ ended_by (played R.DonorRule.choice R.DonorRule.step trace.now executive.old).fault }
    ensures state { executive.new ≡ (played R.DonorRule.choice R.DonorRule.step trace.now executive.old).state }
    ensures heard { (lines : List Line) → L.Listener.heard listener.old lines → L.Listener.heard listener.new (lines ++ (played R.DonorRule.choice R.DonorRule.step trace.now executive.old).lines) }
{
    for byte in (0..trace.len()).step_by(RECORD_BYTES) {
        located(fly_at(executive, trace, byte, listener), byte)?;
    }
    Ok(())
}
