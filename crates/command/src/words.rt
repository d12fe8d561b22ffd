// The words of a line, which white space keeps apart.

ghost use Rattle.std.specs.Prelude.{◌≡◌, length, take_while, not};
ghost use Rattle.command.specs.Words.{white, stripped, word, behind};

/// Whether a byte is white space: a tab, a line feed, a carriage return or a space.
pub(crate) fn is_white(byte: u8) -> bool
    ensures { result ≡ white byte }
{
    matches!(byte, b'\t' | b'\n' | b'\r' | b' ')
}

// `margin` and `word_length` stay two: a closure in place of the test would need a clause that it is a test, for one line each.

/// How many bytes of white space a text begins with.
fn margin(text: &[u8]) -> usize
    ensures { result ≡ length (take_while white text.now) }
{
    text.iter().take_while(|b| is_white(**b)).count()
}

/// How many bytes stand before a text's first white space.
fn word_length(text: &[u8]) -> usize
    ensures { result ≡ length (take_while (λ b. not (white b)) text.now) }
{
    text.iter().take_while(|b| !is_white(**b)).count()
}

/// A text without the white space at its front.
#[tactic(auto, using(crate::proofs::Texts::stripped_is))]
pub(crate) fn strip(text: &[u8]) -> &[u8]
    ensures { result.now ≡ stripped text.now }
{
    &text[margin(text)..]
}

/// The first word of a text that does not begin with white space, and what is behind it.
#[tactic(auto, using(crate::proofs::Texts::word_length_is))]
pub(crate) fn split(text: &[u8]) -> (&[u8], &[u8])
    ensures first { result.0.now ≡ word text.now }
    ensures rest { result.1.now ≡ behind text.now }
{
    text.split_at(word_length(text))
}
