//! An entry at the end of the journal, and the state after it, or neither.
ghost use Rattle.scr_growth.specs.Growths.{HasFinished, IsAmid, IsTold};
ghost use Rattle.scr_state.specs.Keeps.{IsDraft, Keeps};
ghost use Rattle.scr_world.specs.Calls.{Grown, world_at};
ghost use Rattle.scr_world.specs.Consequences.{shut_between};
ghost use Rattle.scr_world.specs.Legal.{MayCome};
ghost use Rattle.scr_world.specs.Room.{has_room, needed_by};
ghost use Rattle.std.specs.Option.{unwrap_or};
ghost use Rattle.std.specs.Prelude.{◌≡◌, IfOk, OnErr, OnOk, true};

use crate::generic::{let_go, put};
use crate::passing::{Finished, finish_with_pass};
use crate::told::{Told, told_before};
use crate::unseen::finish_without_pass;
use journal_core::{GateKey, Journal};
use prop_map::{List, OutOfMemory};
use scr_bundles::{change_bundles, put_back};
use scr_state::{Draft, State, swap_in};
use scr_world::Step;
use std::alloc::Global;
use std::mem;

/// Appends the entry of a step whose draft this is, and answers which gates are shut with it, by instance.
///
/// # Errors
/// Only want of memory. That a table has no number left, as for a service that opens, counts as such. The journal and the state
/// are as they were.
pub fn grow(
    alloc: Global,
    journal: &mut Journal<Step>,
    state: &mut State,
    step: Box<Step>,
    draft: Draft,
) -> Result<List<GateKey>, OutOfMemory>
    requires keeps { Keeps journal.old state.old }
    requires may { MayCome state.old.world step.value }
    requires room { has_room journal.old.limit state.old.world (needed_by step.value) ≡ true }
    requires draft { IsDraft state.old step.value draft }
    ensures keeps { Keeps journal.new state.new }
    ensures limit { journal.new.limit ≡ journal.old.limit }
    ensures grown { OnOk result (Grown journal.old.limit journal.old.entries step.value journal.new.entries) }
    ensures shut { IfOk result (λ shut. shut ≡ shut_between (world_at journal.old.entries) (world_at journal.new.entries)) }
    ensures as_before { OnErr result (journal.new ≡ journal.old) }
    ensures state { OnErr result (state.new ≡ state.old) }
{
    let told = match told_before(alloc, state, &step, &draft) {
        Ok(told) => told,
        Err(error) => {
            let_go(step);
            let_go(draft);
            return Err(error);
        }
    };
    let mut undo = draft;
    let grown = grow_told(alloc, journal, state, step, &mut undo, &told);
    let_go(told);
    let_go(undo);
    grown
}

// The same, where this is told of the step.
fn grow_told(
    alloc: Global,
    journal: &mut Journal<Step>,
    state: &mut State,
    step: Box<Step>,
    undo: &mut Draft,
    told: &Told,
) -> Result<List<GateKey>, OutOfMemory>
    requires keeps { Keeps journal.old state.old }
    requires may { MayCome state.old.world step.value }
    requires room { has_room journal.old.limit state.old.world (needed_by step.value) ≡ true }
    requires draft { IsDraft state.old step.value undo.old }
    requires told { IsTold step.value state.old.world told.now }
    ensures keeps { Keeps journal.new state.new }
    ensures limit { journal.new.limit ≡ journal.old.limit }
    ensures grown { OnOk result (Grown journal.old.limit journal.old.entries step.value journal.new.entries) }
    ensures shut { IfOk result (λ shut. shut ≡ shut_between (world_at journal.old.entries) (world_at journal.new.entries)) }
    ensures as_before { OnErr result (journal.new ≡ journal.old) }
    ensures state { OnErr result (state.new ≡ state.old) }
{
    let saved = match change_bundles(alloc, &mut state.world.bundles, &step) {
        Ok(saved) => saved,
        Err(error) => {
            let_go(step);
            return Err(error);
        }
    };
    swap_in(alloc, &mut state.world, undo);
    match finish(alloc, journal, state, undo, step, told) {
        Ok(finished) => {
            let_go(saved);
            Ok(take_over(state, undo, finished))
        }
        Err(error) => {
            swap_in(alloc, &mut state.world, undo);
            put_back(&mut state.world.bundles, saved);
            Err(error)
        }
    }
}

// Appends the entry of a step that stands in the world. Its pass runs where it may close or open anything.
fn finish(
    alloc: Global,
    journal: &mut Journal<Step>,
    state: &mut State,
    undo: &Draft,
    step: Box<Step>,
    told: &Told,
) -> Result<Finished, OutOfMemory>
    requires { IsAmid journal.old step.value state.old undo.now told.now }
    ensures finished { IfOk result (λ f. HasFinished journal.old step.value state.old journal.new state.new f) }
    ensures journal { OnErr result (journal.new ≡ journal.old) }
    ensures state { OnErr result (state.new ≡ state.old) }
{
    if told.unseen {
        finish_without_pass(alloc, journal, state, undo, step, told)
    } else {
        finish_with_pass(alloc, journal, state, undo, step, told)
    }
}

// Takes over what an entry brought.
fn take_over(state: &mut State, undo: &mut Draft, finished: Finished) -> List<GateKey>
    ensures world { state.new.world ≡ state.old.world }
    ensures descriptions { state.new.descriptions ≡ unwrap_or undo.old.descriptions state.old.descriptions }
    ensures levels { state.new.levels ≡ unwrap_or undo.old.levels state.old.levels }
    ensures satisfied { state.new.satisfied ≡ finished.satisfied }
    ensures shut { result ≡ finished.shut }
{
    let Finished { shut, satisfied } = finished;
    swap(&mut state.descriptions, &mut undo.descriptions);
    swap(&mut state.levels, &mut undo.levels);
    put(&mut state.satisfied, satisfied);
    shut
}

// A value and what it is to be change places, where it is to be another.
fn swap<T: Drop>(now: &mut T, then: &mut Option<T>)
    ensures { now.new ≡ unwrap_or then.old now.old }
{
    if let Some(other) = then {
        mem::swap(now, other);
    }
}
