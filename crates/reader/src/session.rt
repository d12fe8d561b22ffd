// What the reader keeps from one command to the next.

ghost use Rattle.std.specs.Prelude.{◌≡◌, [], length};
ghost use Rattle.program.specs.Verdict.{verdict};
ghost use Rattle.command.specs.Digits.{bytes_of};
ghost use Rattle.command.specs.Lines.{said_of, seen};
ghost use Rattle.command.specs.Lines as Lines;
ghost use Rattle.reader.specs.Sessions.{checked, Loaded, Obeyed, Answered};

use crate::answer::Answer;
use crate::failure::{Failure, Reason};
use checker::check;
use command::hex::decode;
use command::line::{Command, parse};
use std::alloc::Global;
use std::fs;
use std::marker::Model;
use std::str::from_utf8;

/// What the reader keeps: a manual. Contracts see a session as the list of the manual's bytes.
#[derive(Drop)]
pub struct Session {
    heap: Global,
    manual: Vec<u8>,
}

impl Model for Session {
    ghost use Rattle.std.specs.Prelude.{List, ℕ};

    ghost Value = { List ℕ };

    ghost view = { λ s. s.manual.items };
}

// The runtime is handed on where it is used: kept in the session, it would put a lifetime on it.
impl Session {
    /// A session whose manual has no bytes.
    pub fn new(heap: Global) -> Session
        ensures { result ≡ [] }
    {
        Session {
            heap,
            manual: Vec::new(heap),
        }
    }

    /// Does what a line says, and answers it, unless the line says nothing.
    pub fn answer(&mut self, rt: &HostRuntime, line: &[u8]) -> Result<Option<Answer>, Failure>
        ensures { Answered (said_of line.now) self.old result self.new }
    {
        match parse(line)? {
            None => Ok(None),
            Some(command) => self.obey(rt, command).map(Some),
        }
    }

    fn obey(&mut self, rt: &HostRuntime, command: Command) -> Result<Answer, Failure>
        ensures { Obeyed (seen command.entry) self.old result self.new }
    {
        match command {
            Command::Manual(digits) => self.manual(digits),
            Command::Load(name) => {
                let file = from_utf8(name).map_err(|_| Failure::Unread(Reason::Other))?;
                self.load(rt, file)
            }
            Command::Check => self.check(),
            Command::Help => Ok(Answer::Help),
        }
    }

    fn manual(&mut self, digits: &[u8]) -> Result<Answer, Failure>
        ensures { Obeyed (Lines.manual digits.now) self.old result self.new }
    {
        let bytes = decode(self.heap, digits)?;
        Ok(self.set(bytes))
    }

    /// Sets the manual to what a file holds.
    pub fn load(&mut self, rt: &HostRuntime, file: &str) -> Result<Answer, Failure>
        ensures { Loaded self.old result self.new }
    {
        let bytes = fs::read(rt, file)?;
        Ok(self.set(bytes))
    }

    fn set(&mut self, bytes: Vec<u8>) -> Answer
        ensures is { result ≡ Answer.Manual (length bytes.items) }
        ensures after { self.new ≡ bytes.items }
    {
        self.manual = bytes;
        Answer::Manual(self.manual.len())
    }

    fn check(&self) -> Result<Answer, Failure>
        ensures { result ≡ checked (verdict self.now) }
    {
        Ok(Answer::Accepted(check(self.manual.as_slice())?))
    }
}
