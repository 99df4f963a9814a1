//! What turns came to that couldn't be put back for want of memory.
ghost use Rattle.platform_hall.specs.Desks.{IsLike, kept_but, kept_of};
ghost use Rattle.std.specs.List.{find};
ghost use Rattle.std.specs.Option.{option_copied};
ghost use Rattle.std.specs.Prelude.{◌≡◌, ◌==◌, IfOk, MatchOption, Some, filter, is_some, not};
ghost use Rattle.turn_runner.specs.declared.came.Came.{Came};

use prop_map::OutOfMemory;
use std::sync::Arc;
use turn_runner::{Came, Ran};

fn first_kept<O>(kept: &[Came<O>], turn: u64) -> Option<&Came<O>>
    ensures { option_copied result ≡ find (λ came. came.work.number == turn) kept.now }
{
    kept.iter().find(|came| came.work.number == turn)
}

// What a turn came to, with its object shared once more.
fn shared_again<O>(ran: &Ran<O>) -> Result<Ran<O>, OutOfMemory>
    ensures { IfOk result (λ again. IsLike again ran.now) }
{
    let outcome = ran.outcome;
    match &ran.made {
        Some(object) => {
            let made = Some(Arc::try_clone(object)?);
            Ok(Ran { outcome, made })
        }
        None => Ok(Ran {
            outcome,
            made: None,
        }),
    }
}

// What is kept of a turn, with its object shared once more.
pub(crate) fn found_kept<O>(kept: &[Came<O>], turn: u64) -> Result<Option<Ran<O>>, OutOfMemory>
    ensures has { IfOk result (λ found. is_some found ≡ is_some (kept_of kept.now turn)) }
    ensures like { IfOk result (λ found. MatchOption found (Unit {0}) (λ ran. (came : Came O) → kept_of kept.now turn ≡ Some came → IsLike ran came.ran)) }
{
    match first_kept(kept, turn) {
        Some(came) => Ok(Some(shared_again(&came.ran)?)),
        None => Ok(None),
    }
}

// Lets go of what is kept of a turn.
pub(crate) fn forget<O: Drop>(kept: &mut Vec<Came<O>>, turn: u64)
    ensures { kept.new.items ≡ filter (λ came. not (came.work.number == turn)) kept.old.items }
{
    kept.retain(|came| came.work.number != turn);
}
