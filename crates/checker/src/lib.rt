// The check of a manual's program, with what its answer means.
#![tactic(auto)]

ghost use Rattle.std.specs.Prelude.{◌≡◌};
ghost use Rattle.program.specs.Verdict.{verdict};
ghost use Rattle.checker.specs.Accepted.{Complete, Sound};
ghost use Rattle.checker.specs.First.{NamesFirst};

use program::examine::{Counts, examine};
use terms::refusal::Fault;

/// Checks a program's bytes, any number of them: how many registers, rules and entries it has, or its first byte at fault.
pub fn check(bytes: &[u8]) -> Result<Counts, Fault>
    ensures is { result ≡ verdict bytes.now }
    ensures sound { Sound bytes.now result }
    ensures complete { Complete bytes.now result }
    ensures first { NamesFirst bytes.now result }
{
    examine(bytes)
}
