// The listing as a listener: lines gather on a page, and full pages are written.
ghost use Rattle.std.specs.Prelude.{◌≡◌, ◌+◌, ◌≤◌, IsErr, is_ok, [], length};
ghost use Rattle.flight.specs.Sizes.{page_bytes, line_bytes};
ghost use Rattle.flight.specs.Listing.{lines_text, EndsWith};

use crate::listener::Listener;
use crate::page::Page;
use executive::TickAnswer;
use std::io::{self, Print};

/// How much room a line can need.
const LINE_BYTES: usize = 64;

/// A listing on its way out.
#[derive(Drop)]
pub struct Listing<W> {
    page: Page,
    out: W,
    written: io::Result<()>,
}

impl<W: Print> Listing<W> {
    /// A listing with nothing heard yet.
    pub fn new(out: W) -> Listing<W>
        ensures { result.page ≡ [] }
    {
        Listing {
            page: Page::new(),
            out,
            written: Ok(()),
        }
    }

    // Tells whether, and not the failure: a loan of the failure would hold the listing, and `written` shows it.
    /// Writes what waits on the page, and tells whether all has been written so far. What cannot be written is lost, and
    /// after the first failure nothing more is written.
    pub fn flush(&mut self) -> bool
        ensures text { self.new.page ≡ [] }
        ensures told { result ≡ is_ok self.new.written }
        ensures remembered { IsErr self.old.written → self.new.written ≡ self.old.written }
    {
        if self.written.is_ok() {
            self.written = self.out.write_all(self.page.text());
        }
        self.page.clear();
        self.written.is_ok()
    }

    /// What came of writing so far: the first failure, if there was one.
    pub fn written(&self) -> &io::Result<()>
        ensures { result.now ≡ self.now.written }
    {
        &self.written
    }

    // Makes room for a line, where there is none.
    fn make_room(&mut self)
        ensures room { length self.new.page + line_bytes ≤ page_bytes }
        ensures text { EndsWith self.new.page self.old.page }
    {
        if !self.page.has_room(LINE_BYTES) {
            self.flush();
        }
    }
}

/// What waits on the page is the end of the text of all lines heard.
impl<W: Print> Listener for Listing<W> {
    ghost heard = { λ listing lines. EndsWith listing.page (lines_text lines) };

    fn hear(&mut self, instant: u32, answer: TickAnswer) {
        self.make_room();
        self.page.put_line(instant, answer);
    }
}
