// What a rule is shown: the servers that can be stolen from.
ghost use Rattle.std.specs.Prelude.{true};

use earliest::Contender;

/// A resting server that an overloaded one may steal from: its number, and the deadline and the capacity
/// that it would pay under.
#[derive(Clone, Copy, PartialEq, Eq, Debug)]
pub struct Offer {
    pub server: u16,
    pub deadline: u32,
    pub capacity: u16,
}

/// Every offer takes part when the earliest is sought.
impl Contender for Offer {
    type Ask = ();

    ghost deadline = { λ o. o.deadline };

    ghost number = { λ o. o.server };

    ghost takes = { λ _ _. true };

    fn deadline(&self) -> u32 {
        self.deadline
    }

    fn number(&self) -> u16 {
        self.server
    }

    fn takes_part(&self, _ask: ()) -> bool {
        true
    }
}
