// Instants of the clock, counted in ticks from its start.
ghost use Rattle.std.specs.Prelude.{◌≤◌};
ghost use Rattle.server.specs.Clock.{last_instant};

mod making;

/// The last instant: the clock stops there, so that an instant and a period always fit 32 bits.
pub const LAST_INSTANT: u32 = 4_000_000_000;

// No model: the field is public, and clauses read it.
/// An instant, at most the last one.
#[derive(Clone, Copy, PartialEq, Eq, Debug)]
pub struct Instant {
    pub ticks: u32,
    ghost bounded: { ticks ≤ last_instant },
}
