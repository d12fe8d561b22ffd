// The bytes of a text, taken from the front.

ghost use Rattle.std.specs.Prelude.{◌≡◌, drop, OnErr};
ghost use Rattle.tree.specs.Reading.{place, next, four_at, coded};
ghost use Rattle.tree.specs.Readers.{after};

use terms::code::Code;
use terms::input;
use terms::refusal::{Fault, Refusal};

/// A text that is being read. Its functions take what they read from the front of the bytes that are left of it.
// The bytes that are left are no field: each reader's contract would then have to say that the others stay.
#[derive(Clone, Copy)]
pub struct Text {
    /// The place behind its last byte.
    pub end: usize,
    /// What is refused where a byte is missing.
    pub short: Refusal,
}

impl Text {
    /// The place of the next byte.
    pub fn place(self, input: &[u8]) -> usize
        ensures { result ≡ place self.end input.now }
    {
        self.end.saturating_sub(input.len())
    }

    /// One byte.
    pub fn byte(self, input: &mut &[u8]) -> Result<u8, Fault>
        ensures is { after result input.new.now ≡ next self.end self.short input.old.now }
        ensures left { OnErr result (input.new.now ≡ input.old.now) }
    {
        input::byte(input).ok_or(self.short.at(self.end))
    }

    /// A number of four bytes.
    pub fn word(self, input: &mut &[u8]) -> Result<u32, Fault>
        ensures is { after result input.new.now ≡ four_at self.end self.short input.old.now }
        ensures left { OnErr result (input.new.now ≡ input.old.now) }
    {
        input::word(input).ok_or(self.short.at(self.end))
    }

    /// A byte that stands for something. One that stands for nothing is taken too.
    pub fn coded<C: Code>(self, input: &mut &[u8]) -> Result<C, Fault>
        ensures is { after result input.new.now ≡ coded self.end self.short C.meaning input.old.now }
        ensures left { OnErr result (input.new.now ≡ drop 1 input.old.now) }
    {
        let place = self.place(input);
        C::try_from(self.byte(input)?).map_err(|_| Refusal::Sort.at(place))
    }
}
