// Making a plan, row by row.
ghost use Rattle.std.specs.Prelude.{◌≡◌, []};
ghost use Rattle.plan.specs.Plan.{rows_of, added, rows_after};

use super::{MOST_ROWS, Plan};
use crate::fault::PlanFault;
use crate::terms::{COMMON_MULTIPLE, Terms};

impl Plan {
    /// A plan with no rows.
    pub fn new() -> Plan
        ensures { rows_of result ≡ [] }
    {
        Plan {
            rows: [Terms::BLANK; MOST_ROWS],
            count: 0,
            load: 0,
        }
    }

    /// Adds a row with these terms and answers its number, or refuses and leaves the plan as it was.
    pub fn add(&mut self, terms: Terms) -> Result<u16, PlanFault>
        ensures answer { result ≡ added (rows_of self.old) terms }
        ensures rows { rows_of self.new ≡ rows_after (rows_of self.old) terms }
    {
        let number = self.count;
        if number >= MOST_ROWS {
            return Err(PlanFault::Full);
        }
        terms.check()?;
        let load = self.load + terms.weight();
        if load > COMMON_MULTIPLE {
            return Err(PlanFault::Weight);
        }
        self.rows[number] = terms;
        self.load = load;
        self.count = number + 1;
        Ok(number as u16)
    }
}
