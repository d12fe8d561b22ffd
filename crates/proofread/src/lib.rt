// Proofreading: what a single rule does on given values of the registers.
#![tactic(auto)]

ghost use Rattle.std.specs.Prelude.{◌≡◌, option_map};
ghost use Rattle.outcome.specs.Held.{given, itself};
ghost use Rattle.outcome.specs.Kept.{meaning};
ghost use Rattle.outcome.specs.Laws.{RulesAgree, WorkedCases, NoDoubleWrite, BranchesAlone, FailureKeepsNothing, BranchesExchange};
ghost use Rattle.terms.specs.Answers.{answers, stands_for};
ghost use Rattle.proofread.specs.Proofreading.{found, proofreading};
ghost use Rattle.proofread.specs.Steps.{fitting, body_at, worked_at, read_through, bytes_of};

use checker::check;
use outcome::given::{Given, NotReady};
use outcome::worker::work_out;
use outcome::writes::Kept;
use parts::{take_register, take_rule};
use terms::refusal::Refused;

/// Carries a rule out on a list of the registers' values, where it is ready, and answers the mask of the registers that it writes:
/// the bit of value 2^r stands for register r. A refusal, and a rule that is not ready, leave the list.
#[tactic(auto, using(outcome::proofs::Laws::laws))]
pub fn proofread(program: &[u8], rule: usize, values: &mut [u32]) -> Result<Given<u64>, Refused>
    ensures is { (stands_for (given itself) result, values.new) ≡ proofreading program.now rule values.old }
    ensures agree { RulesAgree }
    ensures cases { WorkedCases }
    ensures no_double_write { NoDoubleWrite }
    ensures branches_alone { BranchesAlone }
    ensures failure_keeps_nothing { FailureKeepsNothing }
    ensures branches_exchange { BranchesExchange }
{
    let counts = check(program)?;
    if rule >= counts.rules {
        return Err(Refused::Rule);
    }
    let rules = behind_registers(program, values).ok_or(Refused::Values)?;
    // An accepted program has a body wherever it has a rule.
    let done = work(rules, rule, values).unwrap_or(Err(NotReady));
    Ok(carried_out(done, values))
}

/// The bytes of the rules, where the list has one value for each register, and each fits its kind.
#[tactic(auto, using(crate::proofs::Loops::fitting_next, crate::proofs::Loops::fitting_end))]
fn behind_registers<'a>(program: &'a [u8], values: &[u32]) -> Option<&'a [u8]>
    ensures { bytes_of result ≡ fitting values.now program.now }
{
    let mut rest = program;
    for value in values {
        let (register, behind) = take_register(rest)?;
        if !register.kind.fits(*value) {
            return None;
        }
        rest = behind;
    }
    take_register(rest).is_none().then_some(rest)
}

/// The body of the rule of a number, where there is one.
#[tactic(auto, using(crate::proofs::Loops::body_next, crate::proofs::Loops::body_here))]
fn body(rules: &[u8], number: usize) -> Option<&[u8]>
    ensures { bytes_of result ≡ body_at number rules.now }
{
    let mut rest = rules;
    for _ in 0..number {
        let (_, behind) = take_rule(rest)?;
        rest = behind;
    }
    let (body, _) = take_rule(rest)?;
    Some(body)
}

/// What the rule of a number gives, where there is one.
fn work(rules: &[u8], number: usize, values: &[u32]) -> Option<Given<Kept>>
    ensures { option_map (given meaning) result ≡ worked_at number values.now rules.now }
{
    work_out(body(rules, number)?, values)
}

/// Makes the writes of a rule that is ready, and answers their mask.
fn carried_out(done: Given<Kept>, values: &mut [u32]) -> Given<u64>
    ensures { (answers (given itself result), values.new) ≡ found values.old (given meaning done) }
{
    let writes = done?;
    writes.make(values);
    Ok(writes.mask())
}
