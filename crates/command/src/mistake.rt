// What is wrong with a line.

ghost use Rattle.std.specs.Prelude.{◌≡◌, Some};
ghost use Rattle.command.specs.declared.mistake.Mistake.TheVariants.{Memory};
ghost use Rattle.command.specs.Told.{told};

use std::alloc::{AllocError, AllocFailed};
use std::error::Error;
use std::fmt;

/// Why a line is no command.
#[derive(Clone, Copy, Debug, PartialEq, Eq)]
pub enum Mistake {
    /// The first word is no command's name.
    Unknown,
    /// There are more words than the command takes.
    Superfluous,
    /// The command wants a file's name.
    NoFile,
    /// A byte that is no hexadecimal digit where one is wanted.
    NoDigit(u8),
    /// A digit without the second one of its pair.
    LoneDigit,
    /// There is no memory for what the line says.
    Memory,
}

impl Error for Mistake {}

impl From<AllocError> for Mistake {
    ghost from_gives = { λ _ r. r ≡ Memory };

    fn from(_error: AllocError) -> Mistake {
        Mistake::Memory
    }
}

impl<T: Drop> From<AllocFailed<T>> for Mistake {
    ghost from_gives = { λ _ r. r ≡ Memory };

    fn from(_error: AllocFailed<T>) -> Mistake {
        Mistake::Memory
    }
}

impl fmt::Display for Mistake {
    ghost output = { λ m. Some (told m) };

    fn fmt<W: fmt::Write>(&self, f: &mut fmt::Formatter<W>) -> fmt::Result {
        match self {
            Mistake::Unknown => write!(f, "there is no such command"),
            Mistake::Superfluous => write!(f, "there are more words than the command takes"),
            Mistake::NoFile => write!(f, "the name of a file is missing"),
            Mistake::NoDigit(byte) if byte.is_ascii_graphic() => {
                let shown = char::from(*byte);
                write!(f, "'{shown}' is no hexadecimal digit")
            }
            Mistake::NoDigit(byte) => write!(f, "the byte {byte} is no hexadecimal digit"),
            Mistake::LoneDigit => write!(f, "the hexadecimal digits do not come in pairs"),
            Mistake::Memory => write!(f, "there is not enough memory"),
        }
    }
}
