// Who hears the ticks of a flight.
ghost use Rattle.std.specs.Prelude.{List, [], ◌∷◌, ◌++◌};
ghost use Rattle.flight.specs.Flight.{Line};

use executive::TickAnswer;

/// One who hears each tick of a flight, in order: a listing, a counter, a test. Play is proved once for all of them.
pub trait Listener {
    // what may have been heard so far
    ghost heard: { Self → List Line → Type 0 };

    /// Told what the tick at this instant answered.
    fn hear(&mut self, instant: u32, answer: TickAnswer)
        ensures { (lines : List Line) → heard self.old lines → heard self.new (lines ++ ((instant, answer) ∷ [])) };
}
