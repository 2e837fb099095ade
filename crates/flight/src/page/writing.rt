// Writing on a page: bytes and numbers.
ghost use Rattle.std.specs.Prelude.{◌≡◌, ◌-◌, ◌≤◌, [], ◌∷◌, ◌++◌, length, decimal, nat_le};
ghost use Rattle.flight.specs.Sizes.{page_bytes};
ghost use Rattle.flight.specs.Page.{fitting};

use super::Page;
use arrayvec::ArrayVec;
use itoa::Buffer;

impl Page {
    /// An empty page.
    pub fn new() -> Page
        ensures { result ≡ [] }
    {
        Page {
            bytes: ArrayVec::new(),
        }
    }

    /// What stands on the page.
    pub fn text(&self) -> &[u8]
        ensures text { result.now ≡ self.now }
        ensures fits { length result.now ≤ page_bytes }
    {
        self.bytes.as_slice()
    }

    /// Whether the page has room for so many bytes more.
    pub fn has_room(&self, count: usize) -> bool
        ensures room { result ≡ nat_le count (page_bytes - length self.now) }
        ensures fits { length self.now ≤ page_bytes }
    {
        count <= self.bytes.remaining_capacity()
    }

    /// Empties the page.
    pub fn clear(&mut self)
        ensures { self.new ≡ [] }
    {
        self.bytes.clear();
    }

    /// One byte more.
    pub fn put(&mut self, byte: u8)
        ensures { self.new ≡ fitting (self.old ++ byte ∷ []) }
    {
        if !self.bytes.is_full() {
            self.bytes.push(byte);
        }
    }

    /// A number, in decimal.
    pub fn put_number(&mut self, n: u32)
        ensures { self.new ≡ fitting (self.old ++ decimal n) }
    {
        // One digit needs no buffer.
        if n < 10 {
            self.put(b'0' + n as u8);
            return;
        }
        let mut buffer = Buffer::new();
        let digits = buffer.format(n).as_bytes();
        for digit in digits {
            self.put(*digit);
        }
    }
}
