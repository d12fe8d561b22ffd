// What actions give: writes, or that they are not ready.

ghost use Rattle.std.specs.Prelude.{◌≡◌};
ghost use Rattle.outcome.specs.Held.{given, itself};
ghost use Rattle.outcome.specs.Kept.{meaning};
ghost use Rattle.outcome.specs.Outcome.{or_none};
ghost use Rattle.outcome.specs.Working.{update_gives, parallel_gives, sequence_gives, so_far_behind};

use crate::given::{Given, NotReady};
use crate::writes::{Kept, Register};

/// One write, where its value is ready.
pub(crate) fn update(register: Register, value: Given<u32>) -> Given<Kept>
    ensures { given meaning result ≡ update_gives register.number (given itself value) }
{
    Ok(Kept::one(register, value?))
}

/// Both branches of a parallel action.
pub(crate) fn beside(first: Given<Kept>, second: Given<Kept>) -> Given<Kept>
    ensures { given meaning result ≡ parallel_gives (given meaning first) (given meaning second) }
{
    let first = first?;
    let second = second?;
    if first.shares(&second) {
        Err(NotReady)
    } else {
        Ok(second.over(&first))
    }
}

/// Both actions of a sequence.
pub(crate) fn then(first: Given<Kept>, second: Given<Kept>) -> Given<Kept>
    ensures { given meaning result ≡ sequence_gives (given meaning first) (given meaning second) }
{
    let first = first?;
    Ok(second?.over(&first))
}

/// The writes so far with an action's over them, where it is ready.
pub(crate) fn so_far_behind(so_far: &Kept, action: Given<Kept>) -> Kept
    ensures { meaning result ≡ so_far_behind (meaning so_far.now) (given meaning action) }
{
    match action {
        Ok(writes) => writes.over(so_far),
        Err(NotReady) => *so_far,
    }
}

/// An action's writes, or none where it is not ready.
pub(crate) fn or_none(action: Given<Kept>) -> Given<Kept>
    ensures { given meaning result ≡ or_none (given meaning action) }
{
    Ok(action.unwrap_or(Kept::none()))
}
