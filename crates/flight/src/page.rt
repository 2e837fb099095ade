// A page: text that waits to be written.
mod lines;
mod writing;

use arrayvec::ArrayVec;
pub use lines::letter_of;
use std::marker::Model;

/// How many bytes a page can hold.
pub const PAGE_BYTES: usize = 4096;

/// Text that waits to be written. What does not fit is left out, so whoever writes makes room first.
#[derive(Drop)]
pub struct Page {
    bytes: ArrayVec<u8, PAGE_BYTES>,
}

/// To its callers a page is the text that stands on it.
impl Model for Page {
    ghost use Rattle.std.specs.Prelude.{ℕ, List};

    ghost Value = { List ℕ };

    ghost use Rattle.flight.specs.Page.{page_text};

    ghost view = { page_text };
}
