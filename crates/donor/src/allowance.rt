// The allowance: a limit on what a thief may steal in a frame, over any rule.
ghost use Rattle.std.specs.Prelude.{◌≡◌, ℕ, ◌<◌, ◌≤◌, length, replicate, if◌then◌else◌, None, ◌≢◌, nat_eq};
ghost use Rattle.donor.specs.Tally.{counted_servers, count_at, frame_of};
ghost use Rattle.donor.specs.Allowance.{at_limit, allowance_choice, allowance_step};
ghost use Rattle.donor.specs.Counts.{limited_inside};

use crate::offer::Offer;
use crate::rule::DonorRule;
use crate::tally::{COUNTED_SERVERS, Tally};

/// A layer over a rule that lets each thief 0 to 31 steal at most `limit` ticks in a frame.
#[derive(Clone, Copy)]
pub struct Allowance<R> {
    limit: u16,
    tally: Tally,
    below: R,
}

impl<R> Allowance<R> {
    /// An allowance of this many ticks a frame over a rule, with nothing stolen yet.
    pub fn new(limit: u16, below: R) -> Allowance<R>
        ensures { result ≡ record { limit = limit; tally = record { frame = 0; counts = replicate 32 0 }; below = below } }
    {
        Allowance {
            limit,
            tally: Tally::new(),
            below,
        }
    }

    // Whether a thief that is counted has reached the limit.
    fn at_limit(&self, instant: u32, thief: u16) -> bool
        ensures { result ≡ at_limit self.now.limit self.now.tally instant thief }
    {
        (thief as usize) < COUNTED_SERVERS && self.limit <= self.tally.count(instant, thief)
    }
}

impl<R: DonorRule> DonorRule for Allowance<R> {
    const LETTER: char = 'A';

    ghost choice = { λ rule instant thief offers. allowance_choice R.DonorRule.choice rule instant thief offers };

    ghost step = { λ rule instant thief payer. allowance_step R.DonorRule.step rule instant thief payer };

    ghost inside = { λ rule instant thief offers k chosen. limited_inside (at_limit rule.limit rule.tally instant thief) (R.DonorRule.choice rule.below instant thief offers) k (length offers) (R.DonorRule.inside rule.below instant thief offers k) chosen };

    // A thief at the limit gets nobody; one below it, or not counted, gets exactly what the rule below picks.
    fn choose(&self, instant: u32, thief: u16, offers: &[Offer]) -> Option<usize>
        ensures value { result ≡ allowance_choice R.DonorRule.choice self.now instant thief offers.now }
        ensures at_limit { thief < counted_servers → self.now.limit ≤ count_at self.now.tally instant thief → result ≡ None }
        ensures below_limit { count_at self.now.tally instant thief < self.now.limit → result ≡ R.DonorRule.choice self.now.below instant thief offers.now }
        ensures not_counted { counted_servers ≤ thief → result ≡ R.DonorRule.choice self.now.below instant thief offers.now }
    {
        if self.at_limit(instant, thief) {
            return None;
        }
        self.below.choose(instant, thief, offers)
    }

    // After a step in a new frame only this thief has a count, and it is 1.
    #[tactic(auto, using(crate::specs::Counts::first_in_frame))]
    fn charged(&mut self, instant: u32, thief: u16, payer: u16)
        ensures value { self.new ≡ allowance_step R.DonorRule.step self.old instant thief payer }
        ensures new_frame { (self.old.tally.frame ≢ frame_of instant) → thief < counted_servers → (k : ℕ) → count_at self.new.tally instant k ≡ (if nat_eq k thief then 1 else 0) }
    {
        self.tally.note(instant, thief);
        self.below.charged(instant, thief, payer);
    }
}
