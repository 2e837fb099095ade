// The lines of a listing, on a page.
ghost use Rattle.std.specs.Prelude.{◌≡◌, ◌≤◌, ◌++◌, length};
ghost use Rattle.flight.specs.Sizes.{column_bytes, line_bytes};
ghost use Rattle.flight.specs.Page.{fitting};
ghost use Rattle.flight.specs.Listing.{source_letter, unless_nobody, column_text, line_text};

use super::Page;
use executive::{NOBODY, TickAnswer};
use server::Source;

// By a function: a `Display` of a source would have to stand in the crate of sources, which knows no listing.
/// The letter of a source in listings.
pub fn letter_of(source: Source) -> u8
    ensures { result ≡ source_letter source }
{
    match source {
        Source::Own => b'o',
        Source::Residual => b'r',
        Source::Stolen => b's',
        Source::Idle => b'i',
        Source::Empty => b'e',
    }
}

impl Page {
    // A number, or a dash where the server that it goes with is nobody.
    fn put_unless_nobody(&mut self, server: u16, n: u32)
        ensures { self.new ≡ fitting (self.old ++ unless_nobody server n) }
    {
        if server == NOBODY {
            self.put(b'-');
        } else {
            self.put_number(n);
        }
    }

    // A column: a space, then the number or a dash.
    fn put_column(&mut self, server: u16, n: u32)
        ensures text { self.new ≡ fitting (self.old ++ column_text server n) }
        ensures short { length (column_text server n) ≤ column_bytes }
    {
        self.put(b' ');
        self.put_unless_nobody(server, n);
    }

    /// The line of a tick: its instant, then what it answered.
    pub fn put_line(&mut self, instant: u32, answer: TickAnswer)
        ensures text { self.new ≡ fitting (self.old ++ line_text (instant, answer)) }
        ensures short { length (line_text (instant, answer)) ≤ line_bytes }
    {
        let (runner, payer, source, deadline, left) = answer;
        self.put_number(instant);
        self.put_column(runner, runner as u32);
        self.put(b' ');
        self.put(letter_of(source));
        self.put_column(payer, payer as u32);
        self.put_column(payer, deadline);
        self.put_column(payer, left as u32);
        self.put(b'\n');
    }
}
