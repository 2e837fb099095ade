// What ends a flight: a record that cannot be read, or a call that the executive refuses.
ghost use Rattle.std.specs.Prelude.{◌≡◌, Some};
ghost use Rattle.flight.specs.declared.fault.FlightFault.TheVariants.{Records, Executive};
ghost use Rattle.flight.specs.Faults.{flight_number, flight_layer, flight_sentence};

use executive::CallFault;
use faults::{Fault, Layer};
use records::RecordsFault;
use std::fmt;

// Of the shape of a plan file's faults; one type over both would name the cases of neither.
/// What ends a flight.
#[derive(Clone, Copy, PartialEq, Eq, Debug)]
pub enum FlightFault {
    Records(RecordsFault),
    Executive(CallFault),
}

// By hand and not derived: `from_gives` says which fault a `?` makes, and clauses name it.
impl From<RecordsFault> for FlightFault {
    ghost from_gives = { λ f r. r ≡ Records f };

    fn from(fault: RecordsFault) -> FlightFault {
        FlightFault::Records(fault)
    }
}

impl From<CallFault> for FlightFault {
    ghost from_gives = { λ f r. r ≡ Executive f };

    fn from(fault: CallFault) -> FlightFault {
        FlightFault::Executive(fault)
    }
}

impl Fault for FlightFault {
    ghost number = { flight_number };

    ghost layer = { flight_layer };

    ghost sentence = { flight_sentence };

    fn number(&self) -> u8 {
        match self {
            FlightFault::Records(fault) => fault.number(),
            FlightFault::Executive(fault) => fault.number(),
        }
    }

    fn layer(&self) -> Layer {
        match self {
            FlightFault::Records(fault) => fault.layer(),
            FlightFault::Executive(fault) => fault.layer(),
        }
    }

    fn sentence(&self) -> &'static str {
        match self {
            FlightFault::Records(fault) => fault.sentence(),
            FlightFault::Executive(fault) => fault.sentence(),
        }
    }
}

/// What ends a flight is shown by its sentence.
impl fmt::Display for FlightFault {
    ghost output = { λ fault. Some (flight_sentence fault) };

    fn fmt<W: fmt::Write>(&self, f: &mut fmt::Formatter<W>) -> fmt::Result {
        f.write_str(self.sentence())
    }
}
