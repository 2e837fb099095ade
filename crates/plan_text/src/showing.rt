// A plan as a table, and faults as messages.
ghost use Rattle.std.specs.Prelude.{◌≡◌, IfOk, string_bytes};
ghost use Rattle.plan.specs.Plan.{rows_of};
ghost use Rattle.plan_text.specs.Faults.{message_text, placed_message};
ghost use Rattle.plan_text.specs.Table.{hundredths, share_of, row_line, row_lines, sum_lines, table_text};

use crate::fault::TextFault;
use crate::words::kind_word;
use faults::{Fault, Placed};
use plan::terms::COMMON_MULTIPLE;
use plan::{Plan, Terms};
use std::alloc::{AllocError, Global};

/// Hundredths of a millisecond in a tick.
const TICK: u64 = 25;

/// A weight in hundredths of a percent of the whole processor, to the nearest one.
fn share(weight: u32) -> u64
    ensures { result ≡ share_of weight }
{
    let whole = u64::from(COMMON_MULTIPLE);
    (u64::from(weight) * 10_000 + whole / 2) / whole
}

/// As many hundredths, with two decimals.
fn decimals(heap: Global, n: u64) -> Result<String, AllocError>
    ensures { IfOk result (λ s. string_bytes s ≡ hundredths n) }
{
    let whole = n / 100;
    let part = n % 100;
    format!(in heap; "{whole}.{part:02}")
}

/// The line of the server with this number.
fn row_line(heap: Global, server: usize, terms: &Terms) -> Result<String, AllocError>
    ensures { IfOk result (λ s. string_bytes s ≡ row_line server terms.now) }
{
    let kind = kind_word(terms.kind);
    let budget = terms.budget;
    let period = terms.period;
    let milliseconds = decimals(heap, u64::from(period) * TICK)?;
    let weight = terms.weight();
    let percent = decimals(heap, share(weight))?;
    format!(in heap;
        "{server:>6}  {kind:<8}{budget:>8}{period:>7}{milliseconds:>11}{weight:>8}{percent:>10}\n"
    )
}

/// The lines of the servers.
fn row_lines(heap: Global, rows: &[Terms]) -> Result<String, AllocError>
    ensures { IfOk result (λ s. string_bytes s ≡ row_lines 0 rows.now) }
{
    let mut out = String::new(heap);
    for (server, terms) in rows.iter().enumerate() {
        let line = row_line(heap, server, terms)?;
        out.push_str(line.as_str())?;
    }
    Ok(out)
}

/// The lines below the servers: what they weigh together, and what a further one may weigh. The
/// weights stand below those of the servers, 44 places past the end of their numbers.
fn sum_lines(heap: Global, load: u32, free: u32) -> Result<String, AllocError>
    ensures { IfOk result (λ s. string_bytes s ≡ sum_lines load free) }
{
    let taken = decimals(heap, share(load))?;
    let left = decimals(heap, share(free))?;
    format!(in heap; " total{load:>44}{taken:>10}\n  free{free:>44}{left:>10}\n")
}

/// The plan as a table: a line for each server, the sums, and the length of the plan's file.
pub fn table(heap: Global, plan: &Plan, file_length: usize) -> Result<String, AllocError>
    ensures { IfOk result (λ s. string_bytes s ≡ table_text (rows_of plan.now) file_length) }
{
    let lines = row_lines(heap, plan.rows())?;
    let sums = sum_lines(heap, plan.load(), plan.free())?;
    format!(in heap;
        "server  kind           Q      T  period ms  weight   share %\n{lines}{sums}file {file_length} bytes\n"
    )
}

/// What is wrong with a written plan, in one line for whoever wrote it.
pub fn message(heap: Global, fault: &TextFault) -> Result<String, AllocError>
    ensures { IfOk result (λ s. string_bytes s ≡ message_text fault.now) }
{
    let TextFault { line, fault } = *fault;
    match fault.number() {
        Some(number) => format!(in heap; "line {line}: refusal {number}: {fault}"),
        None => format!(in heap; "line {line}: not understood: {fault}"),
    }
}

/// What is wrong with a file: a line with the number, the layer and the byte, and the sentence.
pub fn fault_message<F: Fault>(heap: Global, fault: &Placed<F>) -> Result<String, AllocError>
    ensures { IfOk result (λ s. string_bytes s ≡ placed_message F.number F.layer F.sentence fault.now) }
{
    let sentence = fault.fault.sentence();
    format!(in heap; "{fault}\n{sentence}")
}
