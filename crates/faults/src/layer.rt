// The layers that find faults, from the bottom up, and their words.
ghost use Rattle.std.specs.Prelude.{◌≡◌, Some};
ghost use Rattle.faults.specs.Faults.{layer_word};

use std::fmt;

/// The layer that finds a fault.
#[derive(Clone, Copy, PartialEq, Eq, Debug)]
pub enum Layer {
    Bits,
    Records,
    Plan,
    Executive,
}

impl Layer {
    /// The layer's word.
    pub fn word(&self) -> &'static str
        ensures { result.now ≡ layer_word self.now }
    {
        match self {
            Layer::Bits => "bits",
            Layer::Records => "records",
            Layer::Plan => "plan",
            Layer::Executive => "executive",
        }
    }
}

/// A layer is shown by its word.
impl fmt::Display for Layer {
    ghost output = { λ layer. Some (layer_word layer) };

    fn fmt<W: fmt::Write>(&self, f: &mut fmt::Formatter<W>) -> fmt::Result {
        f.write_str(self.word())
    }
}
