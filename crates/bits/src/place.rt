// Where a field begins and how long it is.
ghost use Rattle.std.specs.Prelude.{◌<◌, ◌≤◌};

mod moves;

/// How many bits the longest field has.
pub const MOST_BITS: u8 = 32;

// No model, and a word for the count of bits before it: the fields are public, and callers name them.
/// The place of a bit: a byte, and a bit in it, 0 the most significant. One count of bits could
/// pass the largest `usize`; these two cannot.
#[derive(Clone, Copy, PartialEq, Eq, Debug)]
pub struct Place {
    pub byte: usize,
    pub bit: u8,
    ghost inside: { bit < 8 },
}

/// How many bits a field has: 1 to 32.
#[derive(Clone, Copy, PartialEq, Eq, Debug)]
pub struct Width {
    pub bits: u8,
    ghost some: { 1 ≤ bits },
    ghost fits: { bits ≤ 32 },
}
