// What the reader prints for a command that cannot be done.

ghost use Rattle.std.specs.Prelude.{◌≡◌, Some};
ghost use Rattle.std.specs.IoError.{error_kind};
ghost use Rattle.reader.specs.declared.failure.Failure.TheVariants.{Refused, Mistaken, Unread};
ghost use Rattle.reader.specs.Reasons.{reason_of};
ghost use Rattle.reader.specs.Printed.{printed_failure, why};

use command::mistake::Mistake;
use std::error::Error;
use std::{fmt, io};
use terms::refusal::Fault;

/// What keeps a command from its answer.
#[derive(Clone, Copy, Debug, PartialEq, Eq)]
pub enum Failure {
    /// The manual fails the check.
    Refused(Fault),
    /// The line is no command.
    Mistaken(Mistake),
    /// A file could not be read.
    Unread(Reason),
}

/// Why a file could not be read.
#[derive(Clone, Copy, Debug, PartialEq, Eq)]
pub enum Reason {
    NotThere,
    Folder,
    Other,
}

impl Error for Failure {}

impl From<Fault> for Failure {
    ghost from_gives = { λ fault failure. failure ≡ Refused fault };

    fn from(fault: Fault) -> Failure {
        Failure::Refused(fault)
    }
}

impl From<Mistake> for Failure {
    ghost from_gives = { λ mistake failure. failure ≡ Mistaken mistake };

    fn from(mistake: Mistake) -> Failure {
        Failure::Mistaken(mistake)
    }
}

impl From<io::Error> for Failure {
    ghost from_gives = { λ error failure. failure ≡ Unread (reason_of (error_kind error)) };

    fn from(error: io::Error) -> Failure {
        Failure::Unread(Reason::from(error.kind()))
    }
}

impl From<io::ErrorKind> for Reason {
    ghost from_gives = { λ kind reason. reason ≡ reason_of kind };

    fn from(kind: io::ErrorKind) -> Reason {
        match kind {
            io::ErrorKind::NotFound => Reason::NotThere,
            io::ErrorKind::IsADirectory => Reason::Folder,
            _ => Reason::Other,
        }
    }
}

impl fmt::Display for Failure {
    ghost output = { λ x. Some (printed_failure x) };

    fn fmt<W: fmt::Write>(&self, f: &mut fmt::Formatter<W>) -> fmt::Result {
        match self {
            Failure::Refused(Fault { refusal, place }) => {
                let number = u8::from(*refusal);
                write!(f, "refused {number} at {place}")
            }
            Failure::Mistaken(mistake) => write!(f, "error: {mistake}"),
            Failure::Unread(reason) => write!(f, "error: {reason}"),
        }
    }
}

impl fmt::Display for Reason {
    ghost output = { λ r. Some (why r) };

    fn fmt<W: fmt::Write>(&self, f: &mut fmt::Formatter<W>) -> fmt::Result {
        match self {
            Reason::NotThere => write!(f, "there is no such file"),
            Reason::Folder => write!(f, "a folder is no file to load"),
            Reason::Other => write!(f, "the file cannot be read"),
        }
    }
}
