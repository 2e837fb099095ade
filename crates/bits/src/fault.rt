// What the reading and writing of fields refuses.
ghost use Rattle.std.specs.Prelude.{Some};
ghost use Rattle.bits.specs.Faults.{bits_number, bits_layer, bits_sentence};

use faults::{Fault, Layer};
use std::fmt;

/// Why a field cannot be read or written.
#[derive(Clone, Copy, PartialEq, Eq, Debug)]
pub enum BitsFault {
    /// Fewer bits are left than the field has.
    Short,
}

impl Fault for BitsFault {
    ghost number = { bits_number };

    ghost layer = { bits_layer };

    ghost sentence = { bits_sentence };

    fn number(&self) -> u8 {
        match self {
            BitsFault::Short => 5,
        }
    }

    fn layer(&self) -> Layer {
        Layer::Bits
    }

    fn sentence(&self) -> &'static str {
        match self {
            BitsFault::Short => "the file ends inside a record",
        }
    }
}

/// A refusal is shown by its sentence.
impl fmt::Display for BitsFault {
    ghost output = { λ fault. Some (bits_sentence fault) };

    fn fmt<W: fmt::Write>(&self, f: &mut fmt::Formatter<W>) -> fmt::Result {
        f.write_str(self.sentence())
    }
}
