// The records of a program that the check accepts, taken one by one from the front of its bytes.
#![tactic(auto)]

ghost use Rattle.std.specs.Prelude.{◌≡◌};
ghost use Rattle.program.specs.Decoding.{register_of};
ghost use Rattle.parts.specs.Parts.{body_of, OfRule, register_taken, body_taken};

use program::record::Opening;
use terms::input::word;
use terms::kind::Kind;

/// A register's record.
#[derive(Clone, Copy, Debug, PartialEq, Eq)]
pub struct Register {
    pub kind: Kind,
    /// The value that it begins with.
    pub initial: u32,
}

/// The register at the front of the bytes, and what is behind it.
pub fn take_register(bytes: &[u8]) -> Option<(Register, &[u8])>
    ensures { register_taken result ≡ register_of bytes.now }
{
    let Opening::Register([kind, rest @ ..]) = Opening::from(bytes) else {
        return None;
    };
    let kind = Kind::try_from(*kind).ok()?;
    let mut rest = rest;
    let initial = word(&mut rest)?;
    Some((Register { kind, initial }, rest))
}

/// The body of the rule at the front of the bytes, and what is behind it.
pub fn take_rule(bytes: &[u8]) -> Option<(&[u8], &[u8])>
    ensures is { body_taken result ≡ body_of bytes.now }
    ensures of_rule { OfRule bytes.now (body_taken result) }
{
    let Opening::Rule([high, low, rest @ ..]) = Opening::from(bytes) else {
        return None;
    };
    rest.split_at_checked(usize::from(u16::from_be_bytes([*high, *low])))
}
