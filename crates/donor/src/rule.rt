// The interface of donor rules: what a rule may rely on, and what it owes.
ghost use Rattle.std.specs.Prelude.{◌≡◌, ℕ, ◌<◌, List, length, Some, Option};
ghost use Rattle.donor.specs.declared.offer.Offer.{Offer as AnOffer};

use crate::offer::Offer;

/// A donor rule: it chooses from whom an overloaded server steals. Its meaning is a choice and a step,
/// both fixed by its present state.
pub trait DonorRule {
    /// The rule's own letter in listings.
    const LETTER: char;

    // the position of the offer that pays, or nobody, by the instant, the thief's number and the offers
    ghost choice: { Self → ℕ → ℕ → List AnOffer → Option ℕ };

    // the next state, after a stolen tick, by the instant, the thief and the payer
    ghost step: { Self → ℕ → ℕ → ℕ → Self };

    /// The position of the offer that pays, or nobody. Offers stand by rising server number.
    fn choose(&self, instant: u32, thief: u16, offers: &[Offer]) -> Option<usize>
        ensures { result ≡ choice self.now instant thief offers.now };

    // No body here for rules that remember nothing: a step of their own is what each must name.
    /// Told that the thief ran this tick on the payer's capacity.
    fn charged(&mut self, instant: u32, thief: u16, payer: u16)
        ensures { self.new ≡ step self.old instant thief payer };

    // a rule names an offer made to it, or nobody
    ghost inside: { (rule : Self) (instant thief : ℕ) (offers : List AnOffer) (k : ℕ) → choice rule instant thief offers ≡ Some k → k < length offers };
}
