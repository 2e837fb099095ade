// The lines of a text, the words of a line, and what one word stands for.
ghost use Rattle.std.specs.Prelude.{◌≡◌};
ghost use Rattle.std.specs.Option.{option_copied};
ghost use Rattle.plan_text.specs.Bytes.{blank, in_word, front, back};
ghost use Rattle.plan_text.specs.Words.{code_of, words_in, with_taken};
ghost use Rattle.plan_text.specs.Kinds.{kind_word, kind_of};
ghost use Rattle.plan_text.specs.Numbers.{number_of};

use plan::Kind;

/// The line up to the byte that starts a comment.
pub fn without_comment(line: &[u8]) -> &[u8]
    ensures { result.now ≡ code_of line.now }
{
    let end = line.iter().take_while(|byte| **byte != b'#').count();
    &line[..end]
}

/// Whether the byte separates words: a space, a tab or a carriage return.
pub fn is_blank(byte: u8) -> bool
    ensures { result ≡ blank byte }
{
    byte == b' ' || byte == b'\t' || byte == b'\r'
}

/// The bytes behind the blanks at the front.
fn past_blanks(bytes: &[u8]) -> &[u8]
    ensures { result.now ≡ back blank bytes.now }
{
    let end = bytes.iter().take_while(|byte| is_blank(**byte)).count();
    bytes.split_at(end).1
}

/// The bytes up to the first blank, and those from there on.
fn up_to_blank(bytes: &[u8]) -> (&[u8], &[u8])
    ensures front { result.0.now ≡ front in_word bytes.now }
    ensures back { result.1.now ≡ back in_word bytes.now }
{
    let length = bytes.iter().take_while(|byte| !is_blank(**byte)).count();
    bytes.split_at(length)
}

// No `split` and `filter`: they give an empty piece for every blank, which takes twice the time where blanks are many.
/// The words of a line that has no comment, taken from its front one after another.
#[derive(Clone, Copy)]
pub struct Words<'a> {
    rest: &'a [u8],
}

impl<'a> Words<'a> {
    /// The words of these bytes.
    pub fn of(bytes: &'a [u8]) -> Words<'a>
        ensures { result.rest.now ≡ bytes.now }
    {
        Words { rest: bytes }
    }

    /// The next word, if there is one.
    pub fn take_word(&mut self) -> Option<&'a [u8]>
        ensures word { words_in self.old.rest.now ≡ with_taken (option_copied result) (words_in self.new.rest.now) }
        ensures rest { self.new.rest.now ≡ back in_word (back blank self.old.rest.now) }
    {
        let (word, rest) = up_to_blank(past_blanks(self.rest));
        self.rest = rest;
        (!word.is_empty()).then_some(word)
    }
}

// By a function: a `Display` or `FromStr` would have to stand in the crate of kinds, and under a width, as in `{kind:<8}`, a
// display of one's own has no output that a contract knows.
/// The word for a kind.
pub fn kind_word(kind: Kind) -> &'static str
    ensures { result.now ≡ kind_word kind }
{
    match kind {
        Kind::NonIsolated => "shared",
        Kind::Isolated => "isolated",
    }
}

/// The kind that a word names, if it names one.
pub fn kind(word: &[u8]) -> Option<Kind>
    ensures { result ≡ kind_of word.now }
{
    [Kind::Isolated, Kind::NonIsolated]
        .into_iter()
        .find(|kind| word == kind_word(*kind).as_bytes())
}

/// The number that a word stands for, if it is one. A value of more than 16 bits is held at the
/// largest, which no plan accepts.
pub fn number(word: &[u8]) -> Option<u16>
    ensures { result ≡ number_of word.now }
{
    if word.is_empty() || !word.iter().all(|byte| byte.is_ascii_digit()) {
        return None;
    }
    Some(
        word.iter().fold(0u16, |value, digit| {
            value
                .saturating_mul(10)
                .saturating_add(u16::from(digit.saturating_sub(b'0')))
        }),
    )
}
