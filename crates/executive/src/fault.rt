// What the calls refuse, case by case.
ghost use Rattle.std.specs.Prelude.{Some};
ghost use Rattle.executive.specs.Faults.{call_number, call_layer, call_sentence};

use faults::{Fault, Layer};
use std::fmt;

/// Why a call is refused.
#[derive(Clone, Copy, PartialEq, Eq, Debug)]
pub enum CallFault {
    /// No server has this number.
    NoServer,
    /// The server has as many jobs as it can count.
    Jobs,
    /// The clock stands at its last instant.
    Clock,
    /// A finish was told, and nobody runs.
    Finish,
}

impl Fault for CallFault {
    ghost number = { call_number };

    ghost layer = { call_layer };

    ghost sentence = { call_sentence };

    fn number(&self) -> u8 {
        match self {
            CallFault::NoServer => 10,
            CallFault::Jobs => 11,
            CallFault::Clock => 12,
            CallFault::Finish => 13,
        }
    }

    fn layer(&self) -> Layer {
        Layer::Executive
    }

    /// The same in words, for whoever made the call.
    fn sentence(&self) -> &'static str {
        match self {
            CallFault::NoServer => "no server has this number",
            CallFault::Jobs => "the server has 255 jobs waiting already",
            CallFault::Clock => "the clock stands at its last instant, 4000000000",
            CallFault::Finish => "a finish was told, but nobody runs",
        }
    }
}

/// A refusal is shown by its sentence.
impl fmt::Display for CallFault {
    ghost output = { λ fault. Some (call_sentence fault) };

    fn fmt<W: fmt::Write>(&self, f: &mut fmt::Formatter<W>) -> fmt::Result {
        f.write_str(self.sentence())
    }
}
