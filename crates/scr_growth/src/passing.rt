//! The pass of a step that stands in the world, and the entry of it.
ghost use Rattle.component_state.specs.Inside.Ready.{IsReady};
ghost use Rattle.component_state.specs.Passes.{HasPassed};
ghost use Rattle.scr_growth.specs.Growths.{AreCached, HasFinished, HasSettled, IsAmid, IsSettling, with_open};
ghost use Rattle.scr_world.specs.Consequences.{stage_in};
ghost use Rattle.std.specs.Prelude.{◌≡◌, ◌+◌, ◌^◌, ◌<◌, IfOk, OnErr};

use crate::generic::let_go;
use crate::settling::{Lists, settle};
use crate::told::Told;
use crate::undone::{descriptions_after, levels_after};
use component_state::{OpenPeriod, Passed};
use journal_core::{GateKey, Journal};
use prop_map::{List, OutOfMemory};
use scr_consequences::{pass_in, stopped_in};
use scr_state::{Draft, State};
use scr_world::Step;
use std::alloc::Global;
use std::mem;

/// What an entry brought beside the world after it.
#[derive(Drop)]
pub(crate) struct Finished {
    pub(crate) shut: List<GateKey>,
    pub(crate) satisfied: List<u64>,
}

/// Runs the pass of a step that stands in the world, and appends its entry.
///
/// # Errors
/// Only want of memory. The journal and the state are as they were.
pub(crate) fn finish_with_pass(
    alloc: Global,
    journal: &mut Journal<Step>,
    state: &mut State,
    undo: &Draft,
    step: Box<Step>,
    told: &Told,
) -> Result<Finished, OutOfMemory>
    requires { IsAmid journal.old step.value state.old undo.now told.now }
    ensures finished { IfOk result (λ f. HasFinished journal.old step.value state.old journal.new state.new f) }
    ensures journal { OnErr result (journal.new ≡ journal.old) }
    ensures state { OnErr result (state.new ≡ state.old) }
{
    let passed = match pass_of(alloc, state, undo, &told.failing) {
        Ok(passed) => passed,
        Err(error) => {
            let_go(step);
            return Err(error);
        }
    };
    let stopped = match stopped_in(alloc, &state.world) {
        Ok(stopped) => stopped,
        Err(error) => {
            let_go(step);
            let_go(passed);
            return Err(error);
        }
    };
    let Passed {
        closed,
        opened,
        open_now,
        satisfied,
        ..
    } = passed;
    let lists = Lists {
        closed,
        opened,
        stopped,
    };
    let draining = &told.draining;
    match settle_with(alloc, journal, state, undo, open_now, step, lists, draining) {
        Ok(shut) => Ok(Finished { shut, satisfied }),
        Err(error) => {
            let_go(satisfied);
            Err(error)
        }
    }
}

// The pass of a step that stands in the world.
fn pass_of(
    alloc: Global,
    state: &State,
    undo: &Draft,
    failing: &List<u64>,
) -> Result<Passed, OutOfMemory>
    requires cached { AreCached state.now undo.now }
    requires ready { IsReady (stage_in state.now.world failing.now) }
    requires next { state.now.world.registry.numbered + 1 < 2 ^ 64 }
    ensures { IfOk result (λ p. HasPassed (stage_in state.now.world failing.now) p) }
{
    pass_in(
        alloc,
        &state.world,
        descriptions_after(state, undo),
        levels_after(state, undo),
        failing.as_slice(),
    )
}

// Settles the entry of a step after whose pass this is open.
fn settle_with(
    alloc: Global,
    journal: &mut Journal<Step>,
    state: &mut State,
    undo: &Draft,
    open_now: List<OpenPeriod>,
    step: Box<Step>,
    lists: Lists,
    draining: &List<u64>,
) -> Result<List<GateKey>, OutOfMemory>
    requires { IsSettling journal.old step.value (with_open open_now state.old) undo.now state.old.world.open_periods lists draining.now }
    ensures settled { IfOk result (λ shut. HasSettled journal.old step.value lists (with_open open_now state.old) journal.new state.new shut) }
    ensures journal { OnErr result (journal.new ≡ journal.old) }
    ensures state { OnErr result (state.new ≡ state.old) }
{
    let mut periods = open_now;
    mem::swap(&mut state.world.open_periods, &mut periods);
    match settle(alloc, journal, state, undo, &periods, step, lists, draining) {
        Ok(shut) => {
            let_go(periods);
            Ok(shut)
        }
        Err(error) => {
            mem::swap(&mut state.world.open_periods, &mut periods);
            let_go(periods);
            Err(error)
        }
    }
}
