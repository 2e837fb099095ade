// The header of a listing, and the line of a fault.
ghost use Rattle.std.specs.Prelude.{◌≡◌, IfOk, string_bytes};
ghost use Rattle.flight.specs.Listing.{header_text, placed_line};

use faults::{Fault, Placed};
use std::alloc::{AllocError, Global};

/// The first line of a listing: the rule's letter and the number of servers.
pub fn header(heap: Global, letter: char, servers: u16) -> Result<String, AllocError>
    ensures { IfOk result (λ s. string_bytes s ≡ header_text letter servers) }
{
    format!(in heap; "rule {letter} servers {servers}\n")
}

/// The line of a fault: its number, layer and byte. It is the last line of a listing that a fault ended, and the one line of
/// a listing whose plan file is at fault.
pub fn fault_line<F: Fault>(heap: Global, ended: &Placed<F>) -> Result<String, AllocError>
    ensures { IfOk result (λ s. string_bytes s ≡ placed_line F.number F.layer ended.now) }
{
    format!(in heap; "{ended}\n")
}
