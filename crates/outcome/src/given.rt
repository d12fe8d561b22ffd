// What a part gives where it is ready, or that it is not ready.

ghost use Rattle.std.specs.Prelude.{◌≡◌, map, slice_index_or};
ghost use Rattle.terms.specs.Kinds.{operator_number};
ghost use Rattle.outcome.specs.Outcome.{not_ready};
ghost use Rattle.outcome.specs.Held.{given, itself};
ghost use Rattle.outcome.specs.Working.{operator_gives, choice_gives};

use crate::operator::apply;
use terms::kind::Operator;

/// A part that is not ready.
#[derive(Clone, Copy, Debug, PartialEq, Eq)]
pub struct NotReady;

/// What a part gives, or that it is not ready.
pub type Given<T> = Result<T, NotReady>;

/// The operator's value, where both operands are ready.
pub(crate) fn operated(operator: Operator, left: Given<u32>, right: Given<u32>) -> Given<u32>
    ensures { given itself result ≡ operator_gives (operator_number operator) (given itself left) (given itself right) }
{
    Ok(apply(operator, left?, right?))
}

/// The first where the truth is 1, and the second where it is 0.
pub(crate) fn chosen<T: Drop>(truth: Given<u32>, first: Given<T>, second: Given<T>) -> Given<T>
    ensures { given itself result ≡ choice_gives (given itself truth) (given itself first) (given itself second) }
{
    if truth? == 0 { second } else { first }
}

/// What the let of a number has bound; one that is not there is not ready.
pub(crate) fn bound(scope: &[Given<u32>], number: usize) -> Given<u32>
    ensures { given itself result ≡ slice_index_or (map (given itself) scope.now) number not_ready }
{
    scope.get(number).copied().unwrap_or(Err(NotReady))
}
