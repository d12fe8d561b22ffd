// The operators on words and truths.

ghost use Rattle.std.specs.Prelude.{◌≡◌};
ghost use Rattle.terms.specs.Kinds.{operator_number};
ghost use Rattle.outcome.specs.Outcome.{operated};
ghost use Rattle.outcome.specs.Numbers.{named};

use terms::kind::Operator;

/// The value of an operator.
pub fn apply(operator: Operator, left: u32, right: u32) -> u32
    ensures { result ≡ operated (operator_number operator) left right }
{
    match operator {
        Operator::Sum => left.wrapping_add(right),
        Operator::Difference => left.wrapping_sub(right),
        Operator::And => left & right,
        Operator::Or => left | right,
        Operator::ExclusiveOr => left ^ right,
        Operator::Less => u32::from(left < right),
        Operator::Equal => u32::from(left == right),
        Operator::Both => u32::from(left != 0 && right != 0),
        Operator::Either => u32::from(left != 0 || right != 0),
    }
}

/// The operator of a number. A number that stands for no operator counts as that of `Either`.
#[tactic(auto, unfolding(crate::specs::Numbers::named))]
pub(crate) fn named(number: u8) -> Operator
    ensures { result ≡ named number }
{
    Operator::try_from(number).unwrap_or(Operator::Either)
}

/// The value of an operator, by its number.
// It takes a number, since a public function takes every input that it took: `apply` is for those who have an operator.
#[tactic(auto, using(crate::proofs::Numbers::operated_named))]
pub fn operate(operator: u8, left: u32, right: u32) -> u32
    ensures { result ≡ operated operator left right }
{
    apply(named(operator), left, right)
}
