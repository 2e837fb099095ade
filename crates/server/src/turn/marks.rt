// Rows as contenders: the earliest of those that supply is found by the one text there is for it.
ghost use Rattle.std.specs.Prelude.{◌≡◌};
ghost use Rattle.server.specs.Turn.{supplies};
ghost use Rattle.server.specs.Marks.{marked};

use crate::row::{Phase, Row};
use earliest::Contender;

/// Which rows take part: those that have something to supply, all of them or those due by a deadline.
#[derive(Clone, Copy)]
pub enum Mark {
    Supplying,
    SupplyingBy(u32),
}

// Whether a row has something to supply.
fn supplies(row: &Row) -> bool
    ensures { result ≡ supplies row.now }
{
    row.phase == Phase::Supplying && row.account.residual > 0
}

/// A row competes by its own deadline.
impl Contender for Row {
    type Ask = Mark;

    ghost deadline = { λ row. row.account.deadline };

    ghost number = { λ row. row.number };

    ghost takes = { marked };

    fn deadline(&self) -> u32 {
        self.account.deadline
    }

    fn number(&self) -> u16 {
        self.number
    }

    fn takes_part(&self, mark: Mark) -> bool {
        match mark {
            Mark::Supplying => supplies(self),
            Mark::SupplyingBy(deadline) => supplies(self) && self.account.deadline <= deadline,
        }
    }
}
