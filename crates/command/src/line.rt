// A line of text, and the command that it gives.

ghost use Rattle.std.specs.Prelude.{◌≡◌};
ghost use Rattle.std.specs.Option.{option_map};
ghost use Rattle.command.specs.Steps.{mapped};
ghost use Rattle.command.specs.Words.{stripped, word, behind};
ghost use Rattle.command.specs.Lines.{said_of, meant, file_of, alone, seen};

use crate::mistake::Mistake;
use crate::verb::Verb;
use crate::words::{split, strip};

/// A command, with what it takes.
#[derive(Clone, Copy, Debug, PartialEq, Eq)]
pub enum Command<'a> {
    /// Sets the manual to the bytes that the digits stand for.
    Manual(&'a [u8]),
    /// Sets the manual to what a file holds.
    Load(&'a [u8]),
    /// Checks the manual.
    Check,
    /// Lists the commands.
    Help,
}

/// The command that a line gives, if it gives any: a blank line and one that begins with `#` give none.
pub fn parse(line: &[u8]) -> Result<Option<Command<'_>>, Mistake>
    ensures { mapped (option_map seen) result ≡ said_of line.now }
{
    let (word, rest) = split(strip(line));
    if let [] | [b'#', ..] = word {
        return Ok(None);
    }
    command_of(Verb::try_from(word)?, rest).map(Some)
}

/// A command with what is behind its name.
fn command_of(verb: Verb, rest: &[u8]) -> Result<Command<'_>, Mistake>
    ensures { mapped seen result ≡ meant verb rest.now }
{
    match verb {
        Verb::Manual => Ok(Command::Manual(rest)),
        Verb::Load => Ok(Command::Load(file(rest)?)),
        Verb::Check => alone(Command::Check, rest),
        Verb::Help => alone(Command::Help, rest),
    }
}

/// The one word behind a command: a file's name.
fn file(rest: &[u8]) -> Result<&[u8], Mistake>
    ensures { mapped (λ s. s.now) result ≡ file_of (word (stripped rest.now)) (stripped (behind (stripped rest.now))) }
{
    let (name, rest) = split(strip(rest));
    if name.is_empty() {
        Err(Mistake::NoFile)
    } else {
        alone(name, rest)
    }
}

/// The value, where nothing stands behind it.
fn alone<T: Copy>(value: T, rest: &[u8]) -> Result<T, Mistake>
    ensures { result ≡ alone value (stripped rest.now) }
{
    if strip(rest).is_empty() {
        Ok(value)
    } else {
        Err(Mistake::Superfluous)
    }
}
