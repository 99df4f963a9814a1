//! The entry of a step that has no consequences, and the state after it, or neither.
ghost use Rattle.journal_core.specs.Rooms.{HasRoom};
ghost use Rattle.scr_laws.specs.Reserving.{reserved_with};
ghost use Rattle.scr_laws.specs.Gates.{shuts_nothing};
ghost use Rattle.scr_state.specs.Keeps.{IsDraft, Keeps};
ghost use Rattle.scr_still.specs.Stillness.{HasRoomLeft, is_release, with_bare};
ghost use Rattle.scr_world.specs.Calls.{Grown, world_at};
ghost use Rattle.scr_world.specs.Consequences.{shut_between};
ghost use Rattle.scr_world.specs.Legal.{MayCome};
ghost use Rattle.scr_world.specs.Room.{has_room, needed_by};
ghost use Rattle.scr_world.specs.declared.world.World.{World};
ghost use Rattle.std.specs.Prelude.{◌≡◌, ◌+◌, ◌++◌, ◌∷◌, [], OnErr, OnOk, true};

use crate::generic::{append, append_reserved, let_go};
use callback_orders::Callback;
use journal_core::{Entry, Journal};
use prop_map::{List, OutOfMemory};
use scr_state::{Draft, State, next_length, swap_in};
use scr_world::Step;
use std::alloc::Global;

/// Appends the entry of a turn's beginning, a drain, a get by token or its release, whose draft this is. No pass runs, since
/// none of them changes what one looks at; no gate is shut.
///
/// # Errors
/// Only want of memory. The journal and the state are as they were.
pub fn grow_still(
    alloc: Global,
    journal: &mut Journal<Step>,
    state: &mut State,
    step: Box<Step>,
    draft: Draft,
) -> Result<(), OutOfMemory>
    requires shuts { shuts_nothing step.value ≡ true }
    requires keeps { Keeps journal.old state.old }
    requires may { MayCome state.old.world step.value }
    requires room { has_room journal.old.limit state.old.world (needed_by step.value) ≡ true }
    requires draft { IsDraft state.old step.value draft }
    ensures keeps { Keeps journal.new state.new }
    ensures limit { journal.new.limit ≡ journal.old.limit }
    ensures grown { OnOk result (Grown journal.old.limit journal.old.entries step.value journal.new.entries) }
    ensures shut { OnOk result (shut_between (world_at journal.old.entries) (world_at journal.new.entries) ≡ []) }
    ensures as_before { OnErr result (journal.new ≡ journal.old) }
    ensures state { OnErr result (state.new ≡ state.old) }
{
    let entries = next_length(journal);
    let mut undo = draft;
    let grown = grow_to(alloc, journal, state, step, &mut undo, entries);
    let_go(undo);
    grown
}

// The same, where there are so many entries with it.
fn grow_to(
    alloc: Global,
    journal: &mut Journal<Step>,
    state: &mut State,
    step: Box<Step>,
    undo: &mut Draft,
    entries: u64,
) -> Result<(), OutOfMemory>
    requires shuts { shuts_nothing step.value ≡ true }
    requires keeps { Keeps journal.old state.old }
    requires may { MayCome state.old.world step.value }
    requires room { has_room journal.old.limit state.old.world (needed_by step.value) ≡ true }
    requires draft { IsDraft state.old step.value undo.old }
    requires entries { entries ≡ state.old.world.entries + 1 }
    ensures keeps { Keeps journal.new state.new }
    ensures limit { journal.new.limit ≡ journal.old.limit }
    ensures grown { OnOk result (Grown journal.old.limit journal.old.entries step.value journal.new.entries) }
    ensures shut { OnOk result (shut_between (world_at journal.old.entries) (world_at journal.new.entries) ≡ []) }
    ensures as_before { OnErr result (journal.new ≡ journal.old) }
    ensures state { OnErr result (state.new ≡ state.old) }
{
    swap_in(alloc, &mut state.world, undo);
    match add_bare(alloc, journal, step) {
        Ok(()) => {
            state.world.entries = entries;
            Ok(())
        }
        Err(error) => {
            swap_in(alloc, &mut state.world, undo);
            Err(error)
        }
    }
}

// Adds the bare entry of a step.
fn add_bare(alloc: Global, journal: &mut Journal<Step>, step: Box<Step>) -> Result<(), OutOfMemory>
    requires shuts { shuts_nothing step.value ≡ true }
    requires room { HasRoomLeft journal.old step.value }
    ensures ok { OnOk result ((w : World) → journal.new ≡ with_bare step.value w journal.old) }
    ensures err { OnErr result (journal.new ≡ journal.old) }
{
    let release = is_release(&step);
    let more = reserved_with(&step);
    let entry = Entry {
        step: Box::into_inner(step),
        closed: List::of(Vec::new(alloc)),
        opened: List::of(Vec::new(alloc)),
        stopped: List::of(Vec::new(alloc)),
    };
    if release {
        append_reserved(journal, entry)?;
        return Ok(());
    }
    append_with(journal, entry, more)?;
    Ok(())
}

// Adds an entry and reserves room for what it begins, where there is room for both, or does neither.
fn append_with<S: Drop>(
    journal: &mut Journal<S>,
    entry: Entry<S>,
    more: u64,
) -> Result<(), OutOfMemory>
    requires { HasRoom journal.old (more + 1) }
    ensures ok { OnOk result (journal.new ≡ record journal.old { entries = journal.old.entries ++ entry ∷ []; reserved = journal.old.reserved + more }) }
    ensures err { OnErr result (journal.new ≡ journal.old) }
{
    match journal.reserve(more) {
        Ok(()) => {}
        Err(_) => unreachable!(),
    }
    match append(journal, entry) {
        Ok(()) => Ok(()),
        Err(error) => {
            journal.give_back(more);
            Err(error)
        }
    }
}

// Whether a step's entry is one that was reserved.
fn is_release(step: &Step) -> bool
    ensures { result ≡ is_release step.now }
{
    matches!(step, Step::Drained { .. } | Step::Released { .. })
}

fn reserved_with(step: &Step) -> u64
    ensures { result ≡ reserved_with step.now }
{
    match step {
        Step::Begin { callback, .. } => { if callback.is_activate() { 2 } else { 1 } }
        Step::Got { .. } => 1,
        _ => 0,
    }
}
