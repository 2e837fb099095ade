// What a record must have for the earliest of several to be found.
ghost use Rattle.std.specs.Prelude.{◌≡◌, ℕ, Bool};

/// A record with a deadline, a number and a mark that it takes part. Whether it takes part may depend on
/// what is asked.
pub trait Contender {
    /// What the mark depends on.
    type Ask: Copy;

    ghost deadline: { Self → ℕ };

    ghost number: { Self → ℕ };

    ghost takes: { Self.Ask → Self → Bool };

    fn deadline(&self) -> u32
        ensures { result ≡ deadline self.now };

    fn number(&self) -> u16
        ensures { result ≡ number self.now };

    fn takes_part(&self, ask: Self::Ask) -> bool
        ensures { result ≡ takes ask self.now };
}
