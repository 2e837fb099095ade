// What can be wrong with a written plan, case by case.
ghost use Rattle.std.specs.Prelude.{◌≡◌, Some};
ghost use Rattle.plan_text.specs.declared.fault.LineFault.TheVariants.{Refused};
ghost use Rattle.plan_text.specs.Faults.{line_number, line_sentence};

use faults::Fault;
use plan::PlanFault;
use std::fmt;

/// What is wrong with one line.
#[derive(Clone, Copy, PartialEq, Eq, Debug)]
pub enum LineFault {
    /// It has words, but not three.
    Words,
    /// Its first word names no kind.
    Kind,
    /// Its second or third word is no number.
    Number,
    /// The plan refuses the row.
    Refused(PlanFault),
}

// No `Placed`: its place is a line, and what is wrong may have no number.
/// The first line that is wrong, counted from 1, and what is wrong with it.
#[derive(Clone, Copy, PartialEq, Eq, Debug)]
pub struct TextFault {
    pub line: usize,
    pub fault: LineFault,
}

// By hand and not derived: `from_gives` says which fault a `?` makes, and clauses name it.
impl From<PlanFault> for LineFault {
    ghost from_gives = { λ f r. r ≡ Refused f };

    fn from(fault: PlanFault) -> LineFault {
        LineFault::Refused(fault)
    }
}

// No `Fault`: a line that is not understood has no number.
impl LineFault {
    /// The number of the refusal, if the plan refuses the row. A line that is not understood has none.
    pub fn number(&self) -> Option<u8>
        ensures { result ≡ line_number self.now }
    {
        match self {
            LineFault::Words => None,
            LineFault::Kind => None,
            LineFault::Number => None,
            LineFault::Refused(refusal) => Some(refusal.number()),
        }
    }

    /// The same in words, for whoever wrote the plan.
    pub fn sentence(&self) -> &'static str
        ensures { result.now ≡ line_sentence self.now }
    {
        match self {
            LineFault::Words => "a row is a kind, a budget and a period",
            LineFault::Kind => "the kind must be isolated or shared",
            LineFault::Number => "the budget and the period must be whole numbers of ticks",
            LineFault::Refused(refusal) => refusal.sentence(),
        }
    }
}

/// What is wrong is shown by its sentence.
impl fmt::Display for LineFault {
    ghost output = { λ fault. Some (line_sentence fault) };

    fn fmt<W: fmt::Write>(&self, f: &mut fmt::Formatter<W>) -> fmt::Result {
        f.write_str(self.sentence())
    }
}
