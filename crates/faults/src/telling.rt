// What every fault tells.
ghost use Rattle.std.specs.Prelude.{◌≡◌, ℕ, List};
ghost use Rattle.faults.specs.declared.layer.Layer.{Layer};

use crate::layer::Layer;

// Each type of faults has its own `Display`, of one line: for all of them at once there can be none, as `Display` is std's.

/// A fault: its number, the layer that found it, and the same in words. A type of faults says with its ghost members which
/// these are.
pub trait Fault {
    ghost number: { Self → ℕ };

    ghost layer: { Self → Layer };

    ghost sentence: { Self → List ℕ };

    /// The number of this fault.
    fn number(&self) -> u8
        ensures { result ≡ number self.now };

    /// The layer that found it.
    fn layer(&self) -> Layer
        ensures { result ≡ layer self.now };

    /// The same in words.
    fn sentence(&self) -> &'static str
        ensures { result.now ≡ sentence self.now };
}
