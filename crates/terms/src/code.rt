// Bytes that stand for something.

ghost use Rattle.std.specs.Prelude.{◌≡◌, ℕ, Option, Result};
ghost use Rattle.terms.specs.declared.code.Unknown.{Unknown};
ghost use Rattle.terms.specs.Codes.{known};

/// A byte that stands for nothing of the sort that is wanted.
#[derive(Clone, Copy, Debug, PartialEq, Eq)]
pub struct Unknown;

/// What a byte of a program may stand for.
pub trait Code: TryFrom<u8, Error = Unknown> {
    // What each byte stands for, if for anything.
    ghost meaning: { ℕ → Option Self };

    // The conversion gives that.
    ghost converts: { (b : ℕ) (r : Result Self Unknown) → Self.TryFrom.try_from_gives b r → r ≡ known (meaning b) };
}
