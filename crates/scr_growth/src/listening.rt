//! What listeners are told by an entry, and who listens after it (OSGi Core 8, chapter 5, "Service Events", "Service Listeners").
ghost use Rattle.journal_core.specs.declared.entry.Entry.{Entry};
ghost use Rattle.scr_growth.specs.Growths.{AreCached, HasBefore, IsBefore, with_listener_change, with_listeners_told};
ghost use Rattle.scr_world.specs.Lists.{changes_between};
ghost use Rattle.scr_world.specs.declared.step.Step.{Step};
ghost use Rattle.scr_world.specs.declared.world.World.{World};
ghost use Rattle.service_listeners.specs.Listening.{after_changes};
ghost use Rattle.service_listeners.specs.Numbers.{AreNumbered};
ghost use Rattle.std.specs.Prelude.{◌≡◌, ◌++◌, ◌∷◌, [], List as Items, OnErr, OnOk};

use crate::generic::{let_go, put};
use crate::listener_change::{ListenerChange, apply, listener_change};
use crate::undone::{descriptions_after, levels_after, periods_before, rows_with};
use component_state::OpenPeriod;
use journal_core::Journal;
use prop_map::{List, OutOfMemory};
use scr_consequences::tell_changes;
use scr_state::{Draft, State};
use scr_world::Step;
use service_listeners::Listeners;
use std::alloc::Global;
use std::mem;

/// Tells the listeners what the last entry did to services, and takes over who listens then: all of it or nothing.
///
/// # Errors
/// Only want of memory. The state is as it was.
pub(crate) fn tell_last(
    alloc: Global,
    journal: &Journal<Step>,
    state: &mut State,
    undo: &Draft,
    periods: &List<OpenPeriod>,
) -> Result<(), OutOfMemory>
    requires cached { AreCached state.old undo.now }
    requires before { HasBefore state.old.world undo.now periods.now }
    requires numbered { AreNumbered state.old.world.listeners.numbered state.old.world.listeners.rows }
    ensures ok { OnOk result ((entries : Items (Entry Step)) (entry : Entry Step) (was : World) → journal.now.entries ≡ entries ++ entry ∷ []
        → IsBefore was state.old.world undo.now periods.now
        → state.new ≡ record state.old { world = with_listeners_told entry.step was state.old.world }) }
    ensures err { OnErr result (state.new ≡ state.old) }
{
    match journal.entries().last() {
        Some(entry) => {
            tell(alloc, state, undo, periods, &entry.step)?;
            Ok(())
        }
        None => Ok(()),
    }
}

fn tell(
    alloc: Global,
    state: &mut State,
    undo: &Draft,
    periods: &List<OpenPeriod>,
    step: &Step,
) -> Result<(), OutOfMemory>
    requires cached { AreCached state.old undo.now }
    requires before { HasBefore state.old.world undo.now periods.now }
    requires numbered { AreNumbered state.old.world.listeners.numbered state.old.world.listeners.rows }
    ensures ok { OnOk result ((was : World) → IsBefore was state.old.world undo.now periods.now
        → state.new ≡ record state.old { world = with_listeners_told step.now was state.old.world }) }
    ensures err { OnErr result (state.new ≡ state.old) }
{
    let change = listener_change(alloc, step)?;
    let none = match Listeners::new(alloc) {
        Ok(none) => none,
        Err(error) => {
            let_go(change);
            return Err(error);
        }
    };
    let mut listeners = mem::replace(&mut state.world.listeners, none);
    match tell_and_apply(alloc, &mut listeners, state, undo, periods, change) {
        Ok(()) => {
            put(&mut state.world.listeners, listeners);
            Ok(())
        }
        Err(error) => {
            put(&mut state.world.listeners, listeners);
            Err(error)
        }
    }
}

fn tell_and_apply(
    alloc: Global,
    listeners: &mut Listeners,
    state: &State,
    undo: &Draft,
    periods: &List<OpenPeriod>,
    change: ListenerChange,
) -> Result<(), OutOfMemory>
    requires cached { AreCached state.now undo.now }
    requires before { HasBefore state.now.world undo.now periods.now }
    requires numbered { AreNumbered listeners.old.numbered listeners.old.rows }
    ensures ok { OnOk result ((was : World) → IsBefore was state.now.world undo.now periods.now
        → listeners.new ≡ with_listener_change change (after_changes (changes_between was state.now.world) listeners.old)) }
    ensures err { OnErr result (listeners.new ≡ listeners.old) }
{
    let saved = match listeners.save(alloc) {
        Ok(saved) => saved,
        Err(error) => {
            let_go(change);
            return Err(error);
        }
    };
    match tell_all(alloc, listeners, state, undo, periods) {
        Ok(()) => {}
        Err(error) => {
            let_go(change);
            let_go(saved);
            return Err(error);
        }
    }
    match apply(alloc, listeners, change) {
        Ok(()) => {
            let_go(saved);
            Ok(())
        }
        Err(error) => {
            listeners.go_back(saved);
            Err(error)
        }
    }
}

fn tell_all(
    alloc: Global,
    listeners: &mut Listeners,
    state: &State,
    undo: &Draft,
    periods: &List<OpenPeriod>,
) -> Result<(), OutOfMemory>
    requires cached { AreCached state.now undo.now }
    requires numbered { AreNumbered listeners.old.numbered listeners.old.rows }
    ensures ok { OnOk result ((was : World) → IsBefore was state.now.world undo.now periods.now
        → listeners.new ≡ after_changes (changes_between was state.now.world) listeners.old) }
    ensures err { OnErr result (listeners.new ≡ listeners.old) }
{
    tell_changes(
        alloc,
        listeners,
        rows_with(&state.world, undo),
        periods_before(periods, undo),
        &state.world,
        descriptions_after(state, undo),
        levels_after(state, undo),
    )?;
    Ok(())
}
