//! A donor rule from outside the library: it steals from the richest offer. It is written and proved against
//! the interface alone, as anybody's rule can be.
#![tactic(auto)]

ghost use Rattle.std.specs.Prelude.{◌≡◌};
ghost use Rattle.donor.specs.Rules.{same_state};
ghost use Rattle.richest.specs.Richest.{richer, richest_choice, IsRichest};
ghost use Rattle.richest.specs.Leading.{picked_inside};

use donor::{DonorRule, Offer};

/// Picks the offer with the greatest capacity, and the first of several. It remembers nothing.
#[derive(Clone, Copy, PartialEq, Eq, Debug)]
pub struct Richest;

// Apart from the library's own search, which goes by deadlines: a rule from outside stands on the interface alone.
/// The richest offer so far: its position and capacity.
#[derive(Clone, Copy)]
struct Best {
    position: usize,
    capacity: u16,
}

// The richer of the best so far and one more offer; of two alike, the first.
fn better(best: Best, position: usize, offer: Offer) -> Best
    ensures { result ≡ richer best position offer }
{
    if offer.capacity > best.capacity {
        Best {
            position,
            capacity: offer.capacity,
        }
    } else {
        best
    }
}

impl DonorRule for Richest {
    const LETTER: char = 'R';

    ghost choice = { λ _ _ _ offers. richest_choice offers };

    ghost step = { same_state };

    ghost inside = { λ rule instant thief offers k chosen. picked_inside offers k chosen };

    #[tactic(auto, using(crate::specs::Leading::one_more, crate::specs::Leading::all_done, crate::specs::Leading::some_choice))]
    fn choose(&self, _instant: u32, _thief: u16, offers: &[Offer]) -> Option<usize>
        ensures value { result ≡ richest_choice offers.now }
        ensures richest { IsRichest offers.now result }
    {
        if offers.is_empty() {
            return None;
        }
        // A value to start from, and no `Option`: there is an offer, and the choice by recursion begins so too.
        let mut best = Best {
            position: 0,
            capacity: 0,
        };
        for (k, offer) in offers.iter().enumerate() {
            best = better(best, k, *offer);
        }
        Some(best.position)
    }

    fn charged(&mut self, _instant: u32, _thief: u16, _payer: u16) {}
}
