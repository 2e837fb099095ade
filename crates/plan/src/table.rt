// The plan itself: at most 32 rows that weigh no more than the common multiple.
ghost use Rattle.std.specs.Prelude.{◌≡◌, ℕ, ◌%◌, ◌<◌, ◌≤◌, length, take, sum_by, slice_index_or};
ghost use Rattle.plan.specs.Terms.{common_multiple, most_rows, weight_of, blank};

use crate::terms::Terms;

mod calls;
mod readers;

/// How many rows a plan can have.
pub const MOST_ROWS: usize = 32;

// The rows stand in an array with their count beside it: a plan is `Copy` and needs no heap, and no
// collection of the library has both. It has no model, as one of a `Copy` type must give back the unused
// places too; clauses say `rows_of`. A type shared with the offers would carry the same two facts, and no
// more.
/// A plan of servers. Its limits are part of the type: there are at most 32 rows, each period divides
/// the common multiple, each budget is 1 to the period, and the weights add up to no more than the
/// common multiple.
#[derive(Clone, Copy)]
pub struct Plan {
    rows: [Terms; MOST_ROWS],
    count: usize,
    load: u32,
    ghost whole: { length rows ≡ most_rows },
    ghost room: { count ≤ most_rows },
    ghost loads: { load ≡ sum_by weight_of (take count rows) },
    ghost light: { load ≤ common_multiple },
    ghost sound: { (k : ℕ) → k < count → (1 ≤ (slice_index_or rows k blank).budget) × ((slice_index_or rows k blank).budget ≤ (slice_index_or rows k blank).period) × (common_multiple % (slice_index_or rows k blank).period ≡ 0) },
}
