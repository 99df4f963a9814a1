//! What is told of the turns so far (our own).
ghost use Rattle.scr_world.specs.TurnLines.{turns_above};
ghost use Rattle.std.specs.Prelude.{◌≡◌, IfOk};

use prop_map::{Copies, List, OutOfMemory};
use scr_world::TurnLine;
use std::alloc::Global;

fn copy_of(alloc: Global, line: &TurnLine) -> Result<TurnLine, OutOfMemory>
    ensures { IfOk result (λ copy. copy ≡ line.now) }
{
    Ok(TurnLine {
        turn: line.turn,
        callback: line.callback.copy(alloc)?,
        instance: line.instance,
        name: line.name.copy(alloc)?,
        outcome: line.outcome,
    })
}

/// Copies of these lines.
///
/// # Errors
/// Only want of memory.
pub(crate) fn copied(alloc: Global, lines: &[TurnLine]) -> Result<List<TurnLine>, OutOfMemory>
    ensures { IfOk result (λ copies. copies ≡ lines.now) }
{
    let mut copies = Vec::new(alloc);
    for line in lines {
        copies.push(copy_of(alloc, line)?)?;
    }
    Ok(List::of(copies))
}
