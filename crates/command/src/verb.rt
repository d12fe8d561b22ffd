// The names of the commands.

ghost use Rattle.std.specs.Prelude.{◌≡◌};
ghost use Rattle.command.specs.Verbs.{verb_of};

use crate::mistake::Mistake;

/// What a command does, by its name.
#[derive(Clone, Copy, Debug, PartialEq, Eq)]
pub enum Verb {
    Manual,
    Load,
    Check,
    Help,
}

/// The command that a word names.
impl TryFrom<&[u8]> for Verb {
    type Error = Mistake;

    ghost try_from_gives = { λ word r. r ≡ verb_of word.now };

    fn try_from(word: &[u8]) -> Result<Verb, Mistake> {
        match word {
            b"manual" => Ok(Verb::Manual),
            b"load" => Ok(Verb::Load),
            b"check" => Ok(Verb::Check),
            b"help" => Ok(Verb::Help),
            _ => Err(Mistake::Unknown),
        }
    }
}
