// What can be read off a plan.
ghost use Rattle.std.specs.Prelude.{◌≡◌, ◌-◌, length};
ghost use Rattle.plan.specs.Terms.{common_multiple};
ghost use Rattle.plan.specs.Plan.{rows_of, row_at, load_of};

use super::Plan;
use crate::terms::{COMMON_MULTIPLE, Terms};

impl Plan {
    /// How many rows there are: they are numbered from 0 upward.
    pub fn count(&self) -> u16
        ensures { result ≡ length (rows_of self.now) }
    {
        self.count as u16
    }

    /// The terms of the row with this number, if there is one.
    pub fn row(&self, number: u16) -> Option<Terms>
        ensures { result ≡ row_at (rows_of self.now) number }
    {
        self.rows().get(number as usize).copied()
    }

    /// All rows, in the order of their numbers.
    pub fn rows(&self) -> &[Terms]
        ensures { result.now ≡ rows_of self.now }
    {
        &self.rows[..self.count]
    }

    /// What the rows weigh together.
    pub fn load(&self) -> u32
        ensures { result ≡ load_of (rows_of self.now) }
    {
        self.load
    }

    /// What a further row may weigh at most.
    pub fn free(&self) -> u32
        ensures { result ≡ common_multiple - load_of (rows_of self.now) }
    {
        COMMON_MULTIPLE - self.load
    }
}
