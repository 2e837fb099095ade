// What `add` refuses, case by case.
ghost use Rattle.std.specs.Prelude.{Some};
ghost use Rattle.plan.specs.Faults.{plan_number, plan_layer, plan_sentence};

use faults::{Fault, Layer};
use std::fmt;

/// Why a plan takes no further row with given terms.
#[derive(Clone, Copy, PartialEq, Eq, Debug)]
pub enum PlanFault {
    /// The plan has as many rows as a plan can have.
    Full,
    /// The period is zero or does not divide the common multiple.
    Period,
    /// The budget is zero or more than the period.
    Budget,
    /// The weights would add up to more than the common multiple.
    Weight,
}

impl Fault for PlanFault {
    ghost number = { plan_number };

    ghost layer = { plan_layer };

    ghost sentence = { plan_sentence };

    fn number(&self) -> u8 {
        match self {
            PlanFault::Full => 1,
            PlanFault::Period => 2,
            PlanFault::Budget => 3,
            PlanFault::Weight => 4,
        }
    }

    fn layer(&self) -> Layer {
        Layer::Plan
    }

    /// The same in words, for whoever wrote the plan.
    fn sentence(&self) -> &'static str {
        match self {
            PlanFault::Full => "a plan has at most 32 servers",
            PlanFault::Period => "the period must be a divisor of 14400 ticks",
            PlanFault::Budget => "the budget must be at least 1 tick and at most the period",
            PlanFault::Weight => "the servers together would need more than the whole processor",
        }
    }
}

/// A refusal is shown by its sentence.
impl fmt::Display for PlanFault {
    ghost output = { λ fault. Some (plan_sentence fault) };

    fn fmt<W: fmt::Write>(&self, f: &mut fmt::Formatter<W>) -> fmt::Result {
        f.write_str(self.sentence())
    }
}
