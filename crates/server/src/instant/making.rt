// Making instants.
ghost use Rattle.std.specs.Prelude.{◌≡◌, suc, ◌<◌, ◌≤◌, MatchOption};
ghost use Rattle.server.specs.Clock.{last_instant};

use super::{Instant, LAST_INSTANT};

// By tests first: `then_some` would make an instant past the last before the test, and in a closure handed to `then` the
// proof does not know the test (tried).
impl Instant {
    /// The instant of so many ticks, if the clock comes to it.
    pub fn new(ticks: u32) -> Option<Instant>
        ensures { MatchOption result (last_instant < ticks) (λ at. at.ticks ≡ ticks) }
    {
        if ticks > LAST_INSTANT {
            return None;
        }
        Some(Instant { ticks })
    }

    /// The instant that the clock starts at.
    pub fn start() -> Instant
        ensures { result.ticks ≡ 0 }
    {
        Instant { ticks: 0 }
    }

    /// The next instant, if the clock goes on.
    pub fn next(self) -> Option<Instant>
        ensures { MatchOption result (last_instant ≤ self.ticks) (λ at. (at.ticks ≡ suc self.ticks) × (self.ticks < last_instant)) }
    {
        if self.ticks >= LAST_INSTANT {
            return None;
        }
        Some(Instant {
            ticks: self.ticks + 1,
        })
    }
}
