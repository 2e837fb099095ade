// The table of rows.
ghost use Rattle.std.specs.Prelude.{◌≡◌, ◌≤◌, length};
ghost use Rattle.plan.specs.Terms.{most_rows};

use crate::row::Row;
use plan::table::MOST_ROWS;

mod changing;
mod making;
mod readers;
mod turns;

// The rows stand in an array with their count beside it, by a rule of the project: a table is `Copy` and needs no heap, and no collection of the
// library has both. It has no model, as one of a `Copy` type must give back the unused places too.
/// The rows of all servers, in the places of their numbers.
#[derive(Clone, Copy)]
pub struct Table {
    rows: [Row; MOST_ROWS],
    count: usize,
    ghost whole: { length rows ≡ most_rows },
    ghost room: { count ≤ most_rows },
}
