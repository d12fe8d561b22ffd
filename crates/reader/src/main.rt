// Reads commands from standard input, one on a line, and prints one line for each.

#![tactic(auto)]

mod answer;
mod failure;
mod session;

use answer::Answer;
use failure::Failure;
use session::Session;
use std::io::{BufRead, BufReader};
use std::{env, io};

fn main(rt: HostRuntime) -> io::Result<()> {
    let mut session = Session::new(rt.alloc());
    if let Some(answer) = load_argument(&rt, &mut session).transpose() {
        print_answer(&rt, answer)?;
    }
    answer_lines(&rt, &mut session)
}

/// Loads the manual that the first argument names, if there is one.
fn load_argument(rt: &HostRuntime, session: &mut Session) -> Result<Option<Answer>, Failure> {
    match env::args(rt)?.nth(1) {
        None => Ok(None),
        Some(file) => session.load(rt, file.as_str()).map(Some),
    }
}

/// Answers each line of standard input.
// One buffer for all lines, since `BufRead::split` takes a new one from the allocator for each. No input has so many lines as the
// bound.
fn answer_lines(rt: &HostRuntime, session: &mut Session) -> io::Result<()> {
    let mut input = BufReader::new(rt.alloc(), rt.stdin())?;
    let mut line = Vec::new(rt.alloc());
    for _ in 0..u64::MAX {
        line.clear();
        if input.read_until(b'\n', &mut line)? == 0 {
            break;
        }
        if let Some(answer) = session.answer(rt, line.as_slice()).transpose() {
            print_answer(rt, answer)?;
        }
    }
    Ok(())
}

/// Prints an answer, or why there is none.
fn print_answer(rt: &HostRuntime, answer: Result<Answer, Failure>) -> io::Result<()> {
    match answer {
        Ok(answer) => println!(rt; "{answer}"),
        Err(failure) => println!(rt; "{failure}"),
    }
}
