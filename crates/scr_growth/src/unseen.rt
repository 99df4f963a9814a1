//! The entry of a command that no component tells apart: no pass runs.
ghost use Rattle.scr_growth.specs.Growths.{HasFinished, IsAmid, no_lists};
ghost use Rattle.std.specs.Option.{unwrap_or};
ghost use Rattle.std.specs.Prelude.{◌≡◌, IfOk, OnErr, true};

use crate::generic::let_go;
use crate::passing::Finished;
use crate::settling::{Lists, copied, settle};
use crate::told::Told;
use component_state::OpenPeriod;
use journal_core::Journal;
use prop_map::{Copies, List, OutOfMemory};
use scr_state::{Draft, State};
use scr_world::Step;
use std::alloc::Global;

/// Appends the entry of such a command, which stands in the world. Nothing closes, opens or stops.
///
/// # Errors
/// Only want of memory. The journal and the state are as they were.
pub(crate) fn finish_without_pass(
    alloc: Global,
    journal: &mut Journal<Step>,
    state: &mut State,
    undo: &Draft,
    step: Box<Step>,
    told: &Told,
) -> Result<Finished, OutOfMemory>
    requires amid { IsAmid journal.old step.value state.old undo.now told.now }
    requires unseen { told.now.unseen ≡ true }
    ensures finished { IfOk result (λ f. HasFinished journal.old step.value state.old journal.new state.new f) }
    ensures journal { OnErr result (journal.new ≡ journal.old) }
    ensures state { OnErr result (state.new ≡ state.old) }
{
    let satisfied = match copied(alloc, state.satisfied.as_slice()) {
        Ok(satisfied) => satisfied,
        Err(error) => {
            let_go(step);
            return Err(error);
        }
    };
    let periods = match periods_for(alloc, undo, &state.world.open_periods) {
        Ok(periods) => periods,
        Err(error) => {
            let_go(step);
            let_go(satisfied);
            return Err(error);
        }
    };
    let draining = &told.draining;
    let lists = no_lists(alloc);
    match settle(alloc, journal, state, undo, &periods, step, lists, draining) {
        Ok(shut) => {
            let_go(periods);
            Ok(Finished { shut, satisfied })
        }
        Err(error) => {
            let_go(periods);
            let_go(satisfied);
            Err(error)
        }
    }
}

// What was open before a step that leaves it: nothing is copied where the draft that brings it back has it.
fn periods_for(
    alloc: Global,
    undo: &Draft,
    periods: &List<OpenPeriod>,
) -> Result<List<OpenPeriod>, OutOfMemory>
    ensures { IfOk result (λ before. unwrap_or undo.now.open_periods before ≡ unwrap_or undo.now.open_periods periods.now) }
{
    match &undo.open_periods {
        Some(_) => Ok(List::of(Vec::new(alloc))),
        None => periods.copy(alloc),
    }
}

fn no_lists(alloc: Global) -> Lists
    ensures { result ≡ no_lists }
{
    Lists {
        closed: List::of(Vec::new(alloc)),
        opened: List::of(Vec::new(alloc)),
        stopped: List::of(Vec::new(alloc)),
    }
}
