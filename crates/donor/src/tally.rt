// Counting stolen ticks in a frame.
ghost use Rattle.std.specs.Prelude.{◌≡◌, ◌+◌, replicate};
ghost use Rattle.donor.specs.Tally.{frame_of, count_at, counted_once, noted};

/// How many ticks a frame has. Counts are kept within a frame.
pub const FRAME_TICKS: u32 = 14_400;

/// How many servers are counted: those numbered below.
pub const COUNTED_SERVERS: usize = 32;

/// Stolen ticks in the present frame, one count for each server 0 to 31. A count stops at 65,535.
#[derive(Clone, Copy)]
pub struct Tally {
    frame: u32,
    counts: [u16; COUNTED_SERVERS],
}

fn frame_of(instant: u32) -> u32
    ensures { result ≡ frame_of instant }
{
    instant / FRAME_TICKS
}

// One more for a server; one that is not counted changes nothing.
#[tactic(auto, using(std::proofs::lemmas::List::set_past))]
fn count_once(counts: &mut [u16; COUNTED_SERVERS], server: u16)
    ensures { counts.new ≡ counted_once counts.old server }
{
    // Not by `get_mut`, whose contract at an array says nothing of the elements afterwards.
    let place = server as usize;
    if place < COUNTED_SERVERS {
        counts[place] = counts[place].saturating_add(1);
    }
}

impl Tally {
    /// Nothing is counted yet.
    pub fn new() -> Tally
        ensures { result ≡ record { frame = 0; counts = replicate 32 0 } }
    {
        Tally {
            frame: 0,
            counts: [0; COUNTED_SERVERS],
        }
    }

    /// A server's count at this instant: zero in another frame than that of the last tick noted, and for a
    /// server that is not counted.
    #[tactic(auto, using(crate::specs::Counts::other_frame))]
    pub fn count(&self, instant: u32, server: u16) -> u16
        ensures { result ≡ count_at self.now instant server }
    {
        if self.frame != frame_of(instant) {
            return 0;
        }
        self.counts.get(server as usize).copied().unwrap_or(0)
    }

    /// Counts a stolen tick. In another frame than before, all counts are cleared first.
    pub fn note(&mut self, instant: u32, server: u16)
        ensures { self.new ≡ noted self.old instant server }
    {
        let frame = frame_of(instant);
        if self.frame != frame {
            self.frame = frame;
            self.counts = [0; COUNTED_SERVERS];
        }
        count_once(&mut self.counts, server);
    }
}
