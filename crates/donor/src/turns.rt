// The rule that takes turns.
ghost use Rattle.std.specs.Prelude.{◌≡◌, None};
ghost use Rattle.donor.specs.Rules.{first_above, first_of, turns_choice, turns_step};
ghost use Rattle.donor.specs.Above.{turns_inside};

use crate::offer::Offer;
use crate::rule::DonorRule;

/// Remembers the last payer, and picks the first offer numbered above it, else the first offer.
#[derive(Clone, Copy, PartialEq, Eq, Debug)]
pub struct Turns {
    last: Option<u16>,
}

impl Turns {
    /// Nobody has paid yet.
    pub fn new() -> Turns
        ensures { result ≡ record { last = None } }
    {
        Turns { last: None }
    }
}

impl DonorRule for Turns {
    const LETTER: char = 'T';

    ghost choice = { λ rule _ _ offers. turns_choice rule.last offers };

    ghost step = { turns_step };

    ghost inside = { λ rule instant thief offers k chosen. turns_inside rule.last offers k chosen };

    fn choose(&self, _instant: u32, _thief: u16, offers: &[Offer]) -> Option<usize> {
        self.last
            .and_then(|payer| first_above(payer, offers))
            .or(first_of(offers))
    }

    fn charged(&mut self, _instant: u32, _thief: u16, payer: u16) {
        self.last = Some(payer);
    }
}

// The position of the first offer numbered above a server.
fn first_above(server: u16, offers: &[Offer]) -> Option<usize>
    ensures { result ≡ first_above server 0 offers.now }
{
    // A loop, and not `position`: a rule of the project asks for the loop over the offers and their places.
    for (k, offer) in offers.iter().enumerate() {
        if offer.server > server {
            return Some(k);
        }
    }
    None
}

// The first offer, if there is one.
fn first_of(offers: &[Offer]) -> Option<usize>
    ensures { result ≡ first_of offers.now }
{
    (!offers.is_empty()).then_some(0)
}
