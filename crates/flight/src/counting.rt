// A listener that only counts.
ghost use Rattle.std.specs.Prelude.{◌≡◌, min, length};

use crate::listener::Listener;
use executive::TickAnswer;

/// How many ticks were heard. The count stops at the largest number that it has.
#[derive(Clone, Copy, PartialEq, Eq, Debug)]
pub struct TickCount {
    pub ticks: u32,
}

impl Listener for TickCount {
    ghost heard = { λ count lines. count.ticks ≡ min 4294967295 (length lines) };

    fn hear(&mut self, _instant: u32, _answer: TickAnswer) {
        self.ticks = self.ticks.saturating_add(1);
    }
}
