// What the reader prints for a command that is done.

ghost use Rattle.std.specs.Prelude.{Some};
ghost use Rattle.reader.specs.Printed.{printed};

use program::examine::Counts;
use std::fmt;

/// What a command has done or found out.
#[derive(Clone, Copy, Debug, PartialEq, Eq)]
pub enum Answer {
    /// The manual was set, and has so many bytes.
    Manual(usize),
    /// The manual passes the check.
    Accepted(Counts),
    /// The commands are to be listed.
    Help,
}

impl fmt::Display for Answer {
    ghost output = { λ a. Some (printed a) };

    fn fmt<W: fmt::Write>(&self, f: &mut fmt::Formatter<W>) -> fmt::Result {
        match self {
            Answer::Manual(length) => write!(f, "manual {length} bytes"),
            Answer::Accepted(
                Counts {
                    registers,
                    rules,
                    entries,
                },
            ) => write!(
                f,
                "accepted, {registers} registers, {rules} rules, {entries} entries"
            ),
            Answer::Help => write!(
                f,
                "commands: manual HEX (white space may stand between pairs of digits) | load FILE | check | help"
            ),
        }
    }
}
