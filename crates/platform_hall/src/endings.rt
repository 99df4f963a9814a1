//! How the core ends a turn whose token a desk keeps.
ghost use Rattle.platform_hall.specs.Desks.{tokens_of};
ghost use Rattle.platform_hall.specs.Platforms.{Ends, running, world};
ghost use Rattle.prop_map.specs.Words.{one_if};
ghost use Rattle.scr_world.specs.Legal.{IsLegal, is_under_way};
ghost use Rattle.std.specs.Prelude.{◌≡◌, ◌==◌, ◌+◌, ◌<◌, ℕ, Some, OnErr, OnOk, true, vec_capacity, vec_len};

use crate::held::Held;
use crate::tokens::take_out;
use callback_orders::Outcome;
use prop_map::OutOfMemory;
use scr_requests::{Core, Turn};
use std::alloc::Global;

// Ends a turn by its token. Where memory is wanting, the token is there again.
fn end_by_token(
    alloc: Global,
    core: &mut Core,
    turns: &mut Vec<Turn>,
    number: u64,
    outcome: Outcome,
) -> Result<(), OutOfMemory>
    requires under_way { is_under_way (world core.old) number ≡ true }
    requires token { 0 < tokens_of turns.old.items number }
    ensures ok { OnOk result (Ends core.old number outcome core.new) }
    ensures less { OnOk result ((n : ℕ) → tokens_of turns.old.items n ≡ tokens_of turns.new.items n + one_if (number == n)) }
    ensures same { OnErr result ((n : ℕ) → tokens_of turns.new.items n ≡ tokens_of turns.old.items n) }
    ensures err { OnErr result (core.new ≡ core.old) }
{
    let turn = take_out(turns, number);
    match core.done(alloc, turn, outcome) {
        Ok(_ended) => Ok(()),
        Err((turn, error)) => {
            turns.push_reserved(turn);
            Err(error)
        }
    }
}

// Ends a turn, with room for the object that it may have made.
pub(crate) fn try_end<O>(
    alloc: Global,
    core: &mut Core,
    turns: &mut Vec<Turn>,
    held: &mut Vec<Held<O>>,
    number: u64,
    outcome: Outcome,
) -> Result<(), OutOfMemory>
    requires under_way { is_under_way (world core.old) number ≡ true }
    requires token { 0 < tokens_of turns.old.items number }
    ensures ok { OnOk result (Ends core.old number outcome core.new) }
    ensures less { OnOk result ((n : ℕ) → tokens_of turns.old.items n ≡ tokens_of turns.new.items n + one_if (number == n)) }
    ensures same { OnErr result ((n : ℕ) → tokens_of turns.new.items n ≡ tokens_of turns.old.items n) }
    ensures err { OnErr result (core.new ≡ core.old) }
    ensures held { held.new.items ≡ held.old.items }
    ensures room { OnOk result (vec_len held.new < vec_capacity held.new) }
{
    held.reserve(1)?;
    end_by_token(alloc, core, turns, number, outcome)
}
