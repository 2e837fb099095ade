// Making places and widths, and going from a place to the next.
ghost use Rattle.std.specs.Prelude.{◌≡◌, ◌+◌, ◌*◌, ◌/◌, ◌^◌, ◌<◌, ◌≤◌, ◌&&◌, MatchOption, nat_le};
ghost use Rattle.bits.specs.Fields.{bits_before};

use super::{MOST_BITS, Place, Width};

impl Place {
    /// The first bit of a byte.
    pub const fn at_byte(byte: usize) -> Place
        ensures { bits_before result ≡ 8 * byte }
    {
        Place { byte, bit: 0 }
    }

    /// Whether so many bytes have a field of this width here.
    pub fn has_room(&self, length: usize, width: Width) -> bool
        ensures { result ≡ nat_le (bits_before self.now + width.bits) (8 * length) }
    {
        let touched = (self.bit + width.bits).div_ceil(8);
        length
            .checked_sub(self.byte)
            .is_some_and(|left| touched as usize <= left)
    }

    /// The place after a field of this width.
    pub(crate) fn after(&self, width: Width) -> Place
        requires { self.now.byte + 5 < 2 ^ 64 }
        ensures { bits_before result ≡ bits_before self.now + width.bits }
    {
        let bits = self.bit + width.bits;
        Place {
            byte: self.byte + (bits / 8) as usize,
            bit: bits % 8,
        }
    }
}

// By a test first: `then_some` would make a width of no bits before the test, and in a closure handed to `then` the proof
// does not know the test (tried).
impl Width {
    /// A width of so many bits, if there are fields of it.
    pub fn new(bits: u8) -> Option<Width>
        ensures { MatchOption result ((1 ≤ bits → bits ≤ 32 → ⊥)) (λ w. w.bits ≡ bits) }
    {
        if !(1..=MOST_BITS).contains(&bits) {
            return None;
        }
        Some(Width { bits })
    }
}
