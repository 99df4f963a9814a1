//! What is told of a step before it stands in the world.
ghost use Rattle.scr_growth.specs.Growths.{IsTold};
ghost use Rattle.scr_state.specs.Keeps.{IsDraft};
ghost use Rattle.std.specs.Prelude.{◌+◌, ◌^◌, ◌<◌, IfOk};

use crate::undone::rows_with;
use prop_map::{List, OutOfMemory};
use scr_consequences::{draining_in, failing_of};
use scr_state::{Draft, State};
use scr_unseen::is_unseen;
use scr_world::Step;
use std::alloc::Global;

/// What is told of a step before it stands in the world.
#[derive(Drop)]
pub(crate) struct Told {
    /// The component configurations that fail in it.
    pub(crate) failing: List<u64>,
    /// The instances whose gates are to be drained before it.
    pub(crate) draining: List<u64>,
    /// It is a command that no component tells apart.
    pub(crate) unseen: bool,
}

/// What is told of a step whose draft this is.
///
/// # Errors
/// Only want of memory.
pub(crate) fn told_before(
    alloc: Global,
    state: &State,
    step: &Step,
    draft: &Draft,
) -> Result<Told, OutOfMemory>
    requires draft { IsDraft state.now step.now draft.now }
    requires next { state.now.world.registry.numbered + 1 < 2 ^ 64 }
    ensures { IfOk result (λ told. IsTold step.now state.now.world told) }
{
    let world = &state.world;
    Ok(Told {
        failing: failing_of(alloc, world, step)?,
        draining: draining_in(alloc, world)?,
        unseen: is_unseen(alloc, world, step, rows_with(world, draft))?,
    })
}
