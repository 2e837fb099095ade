// Faults on their way up: from the bits through the records to the plan, each layer with its own type.
ghost use Rattle.std.specs.Prelude.{◌≡◌, Some};
ghost use Rattle.records.specs.declared.fault.RecordsFault.TheVariants.{Bits};
ghost use Rattle.records.specs.declared.fault.PlanFileFault.TheVariants.{Records, Plan};
ghost use Rattle.records.specs.Faults.{records_number, records_layer, records_sentence, file_number, file_layer, file_sentence};

use bits::BitsFault;
use faults::Fault;
pub use faults::{Layer, Placed, located};
use plan::PlanFault;
use std::fmt;

/// What is wrong with a record, or with the room for it.
#[derive(Clone, Copy, PartialEq, Eq, Debug)]
pub enum RecordsFault {
    /// The bits of the record cannot be read.
    Bits(BitsFault),
    /// A bit that must be zero is set.
    ZeroBits,
    /// Bytes follow the last record.
    Trailing,
    /// The buffer is too short for the whole file.
    Buffer,
    /// The record of a trace has no kind that there is, or an argument that its kind does not have.
    Trace,
}

/// What is wrong with a plan file: a record, or a row that the plan refuses.
#[derive(Clone, Copy, PartialEq, Eq, Debug)]
pub enum PlanFileFault {
    Records(RecordsFault),
    Plan(PlanFault),
}

// By hand and not derived: `from_gives` says which fault a `?` makes, and clauses name it.
impl From<BitsFault> for RecordsFault {
    ghost from_gives = { λ f r. r ≡ Bits f };

    fn from(fault: BitsFault) -> RecordsFault {
        RecordsFault::Bits(fault)
    }
}

impl From<RecordsFault> for PlanFileFault {
    ghost from_gives = { λ f r. r ≡ Records f };

    fn from(fault: RecordsFault) -> PlanFileFault {
        PlanFileFault::Records(fault)
    }
}

impl From<PlanFault> for PlanFileFault {
    ghost from_gives = { λ f r. r ≡ Plan f };

    fn from(fault: PlanFault) -> PlanFileFault {
        PlanFileFault::Plan(fault)
    }
}

impl Fault for RecordsFault {
    ghost number = { records_number };

    ghost layer = { records_layer };

    ghost sentence = { records_sentence };

    fn number(&self) -> u8 {
        match self {
            RecordsFault::Bits(fault) => fault.number(),
            RecordsFault::ZeroBits => 6,
            RecordsFault::Trailing => 7,
            RecordsFault::Buffer => 8,
            RecordsFault::Trace => 9,
        }
    }

    fn layer(&self) -> Layer {
        match self {
            RecordsFault::Bits(fault) => fault.layer(),
            RecordsFault::ZeroBits
            | RecordsFault::Trailing
            | RecordsFault::Buffer
            | RecordsFault::Trace => Layer::Records,
        }
    }

    fn sentence(&self) -> &'static str {
        match self {
            RecordsFault::Bits(fault) => fault.sentence(),
            RecordsFault::ZeroBits => "a zero bit of a row is set",
            RecordsFault::Trailing => "there are bytes after the last server",
            RecordsFault::Buffer => "the buffer is too short for the plan",
            RecordsFault::Trace =>
                "a record of the trace is of no kind that there is, or has an argument that its kind does not have",
        }
    }
}

impl Fault for PlanFileFault {
    ghost number = { file_number };

    ghost layer = { file_layer };

    ghost sentence = { file_sentence };

    fn number(&self) -> u8 {
        match self {
            PlanFileFault::Records(fault) => fault.number(),
            PlanFileFault::Plan(fault) => fault.number(),
        }
    }

    fn layer(&self) -> Layer {
        match self {
            PlanFileFault::Records(fault) => fault.layer(),
            PlanFileFault::Plan(fault) => fault.layer(),
        }
    }

    fn sentence(&self) -> &'static str {
        match self {
            PlanFileFault::Records(fault) => fault.sentence(),
            PlanFileFault::Plan(fault) => fault.sentence(),
        }
    }
}

/// What is wrong is shown by its sentence.
impl fmt::Display for RecordsFault {
    ghost output = { λ fault. Some (records_sentence fault) };

    fn fmt<W: fmt::Write>(&self, f: &mut fmt::Formatter<W>) -> fmt::Result {
        f.write_str(self.sentence())
    }
}

/// A plan file's fault is shown as its cause is.
impl fmt::Display for PlanFileFault {
    ghost output = { λ fault. Some (file_sentence fault) };

    fn fmt<W: fmt::Write>(&self, f: &mut fmt::Formatter<W>) -> fmt::Result {
        match self {
            PlanFileFault::Records(fault) => fault.fmt(f),
            PlanFileFault::Plan(fault) => fault.fmt(f),
        }
    }
}
