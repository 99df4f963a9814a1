//! The entry of an end without consequences, and the state after it, or neither.
ghost use Rattle.scr_state.specs.Keeps.{IsDraft, Keeps};
ghost use Rattle.scr_still.specs.StillEnds.{HasItsRoom, IsLost, is_still_end, with_end};
ghost use Rattle.scr_world.specs.Calls.{Grown, world_at};
ghost use Rattle.scr_world.specs.Consequences.{shut_between};
ghost use Rattle.scr_world.specs.Legal.{MayCome};
ghost use Rattle.scr_world.specs.Room.{has_room, needed_by};
ghost use Rattle.std.specs.Prelude.{◌≡◌, IfOk, OnErr, OnOk, true};

use crate::generic::{append_reserved, let_go};
use crate::leavings::{Leaving, leaving_of, lost_by, take_over};
use callback_orders::Outcome;
use journal_core::{Entry, GateKey, Journal};
use prop_map::{List, OutOfMemory};
use scr_state::{Draft, State, next_length, swap_in};
use scr_world::{Step, World};
use std::alloc::Global;

/// Appends the entry of the end of a turn, whose draft this is, and answers which gates are shut with it, by instance. No pass runs:
/// the end is one of those without consequences, as `is_still_end` tells.
///
/// # Errors
/// Only want of memory. The journal and the state are as they were.
pub fn grow_still_end(
    alloc: Global,
    journal: &mut Journal<Step>,
    state: &mut State,
    turn: u64,
    outcome: Outcome,
    draft: Draft,
) -> Result<List<GateKey>, OutOfMemory>
    requires still { is_still_end turn outcome state.old.world ≡ true }
    requires keeps { Keeps journal.old state.old }
    requires may { MayCome state.old.world (Step.End turn outcome) }
    requires room { has_room journal.old.limit state.old.world (needed_by (Step.End turn outcome)) ≡ true }
    requires draft { IsDraft state.old (Step.End turn outcome) draft }
    ensures keeps { Keeps journal.new state.new }
    ensures limit { journal.new.limit ≡ journal.old.limit }
    ensures grown { OnOk result (Grown journal.old.limit journal.old.entries (Step.End turn outcome) journal.new.entries) }
    ensures shut { IfOk result (λ shut. shut ≡ shut_between (world_at journal.old.entries) (world_at journal.new.entries)) }
    ensures as_before { OnErr result (journal.new ≡ journal.old) }
    ensures state { OnErr result (state.new ≡ state.old) }
{
    let mut undo = draft;
    let grown = grow_end(alloc, journal, state, turn, outcome, &mut undo);
    let_go(undo);
    grown
}

// The same, where the draft is the caller's.
fn grow_end(
    alloc: Global,
    journal: &mut Journal<Step>,
    state: &mut State,
    turn: u64,
    outcome: Outcome,
    undo: &mut Draft,
) -> Result<List<GateKey>, OutOfMemory>
    requires still { is_still_end turn outcome state.old.world ≡ true }
    requires keeps { Keeps journal.old state.old }
    requires may { MayCome state.old.world (Step.End turn outcome) }
    requires room { has_room journal.old.limit state.old.world (needed_by (Step.End turn outcome)) ≡ true }
    requires draft { IsDraft state.old (Step.End turn outcome) undo.old }
    ensures keeps { Keeps journal.new state.new }
    ensures limit { journal.new.limit ≡ journal.old.limit }
    ensures grown { OnOk result (Grown journal.old.limit journal.old.entries (Step.End turn outcome) journal.new.entries) }
    ensures shut { IfOk result (λ shut. shut ≡ shut_between (world_at journal.old.entries) (world_at journal.new.entries)) }
    ensures as_before { OnErr result (journal.new ≡ journal.old) }
    ensures state { OnErr result (state.new ≡ state.old) }
{
    let entries = next_length(journal);
    let leaving = leaving_of(alloc, &state.world, turn, outcome, entries)?;
    swap_in(alloc, &mut state.world, undo);
    match enter(alloc, journal, &state.world, turn, outcome, &leaving) {
        Ok(lost) => Ok(take_over(alloc, &mut state.world, leaving, lost)),
        Err(error) => {
            swap_in(alloc, &mut state.world, undo);
            let_go(leaving);
            Err(error)
        }
    }
}

// Adds the bare entry of an end that stands in the world, and answers which service isn't held any more.
fn enter(
    alloc: Global,
    journal: &mut Journal<Step>,
    world: &World,
    turn: u64,
    outcome: Outcome,
    leaving: &Leaving,
) -> Result<Option<u64>, OutOfMemory>
    requires { HasItsRoom leaving.now.drain journal.old }
    ensures entry { OnOk result (journal.new ≡ with_end turn outcome leaving.now.drain journal.old) }
    ensures lost { IfOk result (λ lost. IsLost world.now leaving.now.unbound lost) }
    ensures as_before { OnErr result (journal.new ≡ journal.old) }
{
    let lost = lost_by(alloc, world, leaving.unbound)?;
    add_end(alloc, journal, turn, outcome, leaving.drain)?;
    Ok(lost)
}

fn add_end(
    alloc: Global,
    journal: &mut Journal<Step>,
    turn: u64,
    outcome: Outcome,
    drain: bool,
) -> Result<(), OutOfMemory>
    requires { HasItsRoom drain journal.old }
    ensures ok { OnOk result (journal.new ≡ with_end turn outcome drain journal.old) }
    ensures err { OnErr result (journal.new ≡ journal.old) }
{
    let entry = Entry {
        step: Step::End { turn, outcome },
        closed: List::of(Vec::new(alloc)),
        opened: List::of(Vec::new(alloc)),
        stopped: List::of(Vec::new(alloc)),
    };
    match append_reserved(journal, entry) {
        Ok(()) => {
            if drain {
                journal.give_back(1);
            }
            Ok(())
        }
        Err(error) => Err(error),
    }
}
