// The records of a program, each opened by a mark of two bytes.

ghost use Rattle.std.specs.Prelude.{◌≡◌, ◌^◌, nat_lt};
ghost use Rattle.terms.specs.declared.refusal.Refusal.TheVariants.{Missing};
ghost use Rattle.tree.specs.Readers.{after, passed};
ghost use Rattle.program.specs.Verdict.{opening_of, register_of, rule_of, entry_of};
ghost use Rattle.program.specs.Records.{seen};

use terms::kind::Kind;
use terms::refusal::{Fault, Refusal};
use tree::reader::read_body;
use tree::text::Text;

/// What stands where a record may begin: a mark, with the bytes behind it, or none.
#[derive(Clone, Copy, Debug, PartialEq, Eq)]
pub enum Opening<'a> {
    Register(&'a [u8]),
    Rule(&'a [u8]),
    Entry(&'a [u8]),
    Unknown,
    Cut,
}

/// What the bytes begin with.
impl<'a> From<&'a [u8]> for Opening<'a> {
    ghost from_gives = { λ s o. seen o ≡ opening_of s.now };

    fn from(bytes: &'a [u8]) -> Opening<'a> {
        match bytes {
            [0x52, 0x47, fields @ ..] => Opening::Register(fields),
            [0x52, 0x4C, fields @ ..] => Opening::Rule(fields),
            [0x53, 0x45, fields @ ..] => Opening::Entry(fields),
            [_, _, ..] => Opening::Unknown,
            _ => Opening::Cut,
        }
    }
}

/// The records of a program that ends at a place. Each is read behind its mark.
#[derive(Clone, Copy)]
pub(crate) struct Records {
    pub(crate) end: usize,
}

impl Records {
    /// The program's text, in which no byte of a record may be missing.
    pub(crate) fn text(self) -> Text
        ensures { result ≡ record { end = self.end; short = Missing } }
    {
        Text {
            end: self.end,
            short: Refusal::Missing,
        }
    }

    /// A register: its kind.
    pub(crate) fn register(self, input: &mut &[u8]) -> Result<Kind, Fault>
        ensures { after result input.new.now ≡ register_of self.end input.old.now }
    {
        let text = self.text();
        let kind: Kind = text.coded(input)?;
        let place = text.place(input);
        if kind.fits(text.word(input)?) {
            Ok(kind)
        } else {
            Err(Refusal::Sort.at(place))
        }
    }

    /// A rule of a program whose registers have these kinds.
    pub(crate) fn rule(self, kinds: &[Kind], input: &mut &[u8]) -> Result<(), Fault>
        ensures { passed result input.new.now ≡ rule_of self.end kinds.now input.old.now }
    {
        let text = self.text();
        let length = u16::from_be_bytes([text.byte(input)?, text.byte(input)?]);
        match input.split_at_checked(usize::from(length)) {
            Some((body, rest)) => {
                *input = rest;
                let text = Text {
                    end: text.place(rest),
                    short: Refusal::Fill,
                };
                read_body(body, text, kinds)
            }
            None => {
                read_body(input, text, kinds)?;
                Err(Refusal::Missing.at(self.end))
            }
        }
    }

    /// An entry of a program that has so many rules.
    pub(crate) fn entry(self, rules: usize, input: &mut &[u8]) -> Result<(), Fault>
        ensures { passed result input.new.now ≡ entry_of self.end rules input.old.now }
    {
        let text = self.text();
        let place = text.place(input);
        if usize::from(text.byte(input)?) >= rules {
            return Err(Refusal::Name.at(place));
        }
        let place = text.place(input);
        if names_below(text.word(input)?, rules) {
            Ok(())
        } else {
            Err(Refusal::Name.at(place))
        }
    }
}

/// Whether a mask names only rules below a number.
fn names_below(mask: u32, rules: usize) -> bool
    ensures { result ≡ nat_lt mask (2 ^ rules) }
{
    rules >= 32 || mask >> rules == 0
}
