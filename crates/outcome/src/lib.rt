// What a rule gives on given values of the registers.
#![tactic(auto)]

ghost use Rattle.outcome.specs.Laws.{RulesAgree, WorkedCases, NoDoubleWrite, BranchesAlone, FailureKeepsNothing, BranchesExchange};

mod actions;
pub mod given;
pub mod operator;
pub mod worker;
pub mod writes;

/// Says, by its contract alone, what holds of the meaning of rules: the operational rules and the definition agree, the worked
/// cases come out as they should, and the readings that go astray are ruled out.
#[tactic(auto, using(crate::proofs::Laws::laws))]
pub fn meaning_stands()
    ensures agree { RulesAgree }
    ensures cases { WorkedCases }
    ensures no_double_write { NoDoubleWrite }
    ensures branches_alone { BranchesAlone }
    ensures failure_keeps_nothing { FailureKeepsNothing }
    ensures branches_exchange { BranchesExchange }
{}
