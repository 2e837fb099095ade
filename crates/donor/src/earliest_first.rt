// The rule that steals where the deadline comes first.
ghost use Rattle.std.specs.Prelude.{◌≡◌, true};
ghost use Rattle.earliest.specs.Earliest.{IsEarliest};
ghost use Rattle.donor.specs.Rules.{earliest_choice, same_state};
ghost use Rattle.earliest.proofs.First.{found_inside};
ghost use Rattle.donor.specs.declared.offer.Offer.{Offer};

use crate::offer::Offer;
use crate::rule::DonorRule;
use earliest::earliest;

/// Picks the earliest offer, and remembers nothing.
#[derive(Clone, Copy, PartialEq, Eq, Debug)]
pub struct EarliestFirst;

impl DonorRule for EarliestFirst {
    const LETTER: char = 'E';

    ghost choice = { λ _ _ _ offers. earliest_choice offers };

    ghost step = { same_state };

    ghost inside = { λ rule instant thief offers k chosen. found_inside (λ (o : Offer). o.deadline) (λ (o : Offer). o.server) (λ _. true) offers k chosen };

    fn choose(&self, _instant: u32, _thief: u16, offers: &[Offer]) -> Option<usize>
        ensures value { result ≡ earliest_choice offers.now }
        ensures earliest { IsEarliest (λ o. o.deadline) (λ o. o.server) (λ _. true) offers.now result }
    {
        earliest(offers, ())
    }

    fn charged(&mut self, _instant: u32, _thief: u16, _payer: u16) {}
}
