// A fault with the byte where it lies.
ghost use Rattle.std.specs.Prelude.{◌≡◌, Some};
ghost use Rattle.faults.specs.Faults.{placed_at, placed_text};

use crate::telling::Fault;
use std::fmt;

/// A fault with the byte where the faulty record begins.
#[derive(Clone, Copy, PartialEq, Eq, Debug)]
pub struct Placed<F> {
    pub fault: F,
    pub byte: usize,
}

/// Tells where a fault lies, if there is one.
pub fn located<T, F>(res: Result<T, F>, byte: usize) -> Result<T, Placed<F>>
    ensures { result ≡ placed_at res byte }
{
    res.map_err(|fault| Placed { fault, byte })
}

/// A fault is shown by its number, its layer and its byte, as in `fault 10 executive 6`.
impl<F: Fault> fmt::Display for Placed<F> {
    ghost output = { λ placed. Some (placed_text F.number F.layer placed) };

    fn fmt<W: fmt::Write>(&self, f: &mut fmt::Formatter<W>) -> fmt::Result {
        let number = self.fault.number();
        let layer = self.fault.layer();
        let byte = self.byte;
        write!(f, "fault {number} {layer} {byte}")
    }
}
