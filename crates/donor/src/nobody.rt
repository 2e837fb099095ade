// The rule that never lets anybody steal.
ghost use Rattle.donor.specs.Rules.{nobody_choice, same_state};
ghost use Rattle.std.proofs.Common.{rules};

use crate::offer::Offer;
use crate::rule::DonorRule;

/// Picks nobody, ever.
#[derive(Clone, Copy, PartialEq, Eq, Debug)]
pub struct Nobody;

impl DonorRule for Nobody {
    const LETTER: char = 'N';

    ghost choice = { λ _ _ _ offers. nobody_choice offers };

    ghost step = { same_state };

    ghost inside = { Prim.search rules };

    fn choose(&self, _instant: u32, _thief: u16, _offers: &[Offer]) -> Option<usize> {
        None
    }

    fn charged(&mut self, _instant: u32, _thief: u16, _payer: u16) {}
}
