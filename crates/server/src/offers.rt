// What a row offers a thief, and all offers of a table.
ghost use Rattle.std.specs.Prelude.{◌≡◌, ◌≤◌, length};
ghost use Rattle.plan.specs.Terms.{most_rows};
ghost use Rattle.server.specs.Turn.{offer_shown, offer_of};

use crate::instant::Instant;
use crate::row::{Phase, Row};
use donor::Offer;
use plan::Kind;
use plan::table::MOST_ROWS;

mod gathering;

// As a table's rows, in an array with their count beside it and with no model: offers are `Copy` and need no heap. A type
// shared with the plan would carry the same two facts, and no more.
/// All offers to one thief, by rising number.
#[derive(Clone, Copy)]
pub struct Offers {
    items: [Offer; MOST_ROWS],
    count: usize,
    ghost whole: { length items ≡ most_rows },
    ghost room: { count ≤ most_rows },
}

// What a resting row that is not isolated offers a thief with this deadline.
fn shown(row: &Row, at: Instant, deadline: u32) -> Option<Offer>
    ensures { result ≡ offer_shown at.ticks deadline row.now }
{
    let renewed = at.ticks + row.terms.period as u32;
    if row.account.deadline <= at.ticks {
        return (renewed <= deadline).then_some(Offer {
            server: row.number,
            deadline: renewed,
            capacity: row.terms.budget,
        });
    }
    (row.account.deadline <= deadline && row.account.capacity > 0).then_some(Offer {
        server: row.number,
        deadline: row.account.deadline,
        capacity: row.account.capacity,
    })
}

// By a function, as the rules name it: row, instant and deadline meet here and in `shown` alone.
/// What a row offers a thief with this deadline, if anything: only a resting row that is not isolated does.
pub fn offer_of(row: &Row, at: Instant, deadline: u32) -> Option<Offer>
    ensures { result ≡ offer_of at.ticks deadline row.now }
{
    match (row.phase, row.terms.kind) {
        (Phase::Resting, Kind::NonIsolated) => shown(row, at, deadline),
        (Phase::Resting, Kind::Isolated) => None,
        (Phase::AtWork, _) => None,
        (Phase::Supplying, _) => None,
    }
}
