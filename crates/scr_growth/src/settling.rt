//! What an entry leaves once its pass has run: gets, services that are held though they left, gates that are shut, and what is
//! reserved.
ghost use Rattle.prop_map.specs.Words.{one_if};
ghost use Rattle.scr_consequences.specs.Ends.{draining_in};
ghost use Rattle.scr_consequences.specs.Gets.{HaveStood, tokens_left, uses_left};
ghost use Rattle.scr_growth.specs.Growths.{AreCached, HasBefore, HasEntered, HasFewInstances, HasSettled, IsBefore};
ghost use Rattle.scr_growth.specs.Growths.{IsEnding, IsRest, IsSettling, reserved_with_tokens, services_among, settled_world, with_listeners_told};
ghost use Rattle.bundle_life.specs.Lives.{is_stopping, state_is};
ghost use Rattle.scr_world.specs.Room.{reserved_for};
ghost use Rattle.scr_world.specs.declared.world.World.{World};
ghost use Rattle.service_listeners.specs.Numbers.{AreNumbered};
ghost use Rattle.std.specs.List.{All, AllPairs};
ghost use Rattle.std.specs.Prelude.{◌≡◌, ◌+◌, ◌*◌, ◌^◌, ◌<◌, ◌≤◌, ℕ, IfOk, IsTrue, OnErr, OnOk, length, map, sum};

use crate::entering::{add_entry, take_entry};
use crate::generic::{let_go, put};
use crate::listening::tell_last;
use crate::undone::{periods_before, rows_with};
use component_state::OpenPeriod;
use journal_core::{GateKey, Journal, Opened};
use prop_map::{List, OutOfMemory};
use scr_consequences::{
    StandingGets, complete_stops, gets_left, left_between, note_bundles, note_listeners,
    note_stops, shut_since, unregistered_held_between,
};
use scr_state::{Draft, State, next_length};
use scr_world::{Instance, Step, Token, World};
use service_registry::ServiceRow;
use std::alloc::Global;

/// The lists of an entry.
#[derive(Drop)]
pub(crate) struct Lists {
    pub(crate) closed: List<u64>,
    pub(crate) opened: List<Opened>,
    pub(crate) stopped: List<u64>,
}

// What an entry leaves.
#[derive(Drop)]
pub(crate) struct Rest {
    entries: u64,
    gets: Option<StandingGets>,
    unregistered_held: List<ServiceRow>,
    shut: List<GateKey>,
    reserved: u64,
}

// What an entry leaves, and the bundles that stop with it.
#[derive(Drop)]
pub(crate) struct Ending {
    rest: Rest,
    stopped: List<u64>,
}

/// Appends the entry of a step whose pass stands in the world, and makes the world what it is after it.
///
/// # Errors
/// Only want of memory. The journal and the state are as they were.
pub(crate) fn settle(
    alloc: Global,
    journal: &mut Journal<Step>,
    state: &mut State,
    undo: &Draft,
    periods: &List<OpenPeriod>,
    step: Box<Step>,
    lists: Lists,
    draining: &List<u64>,
) -> Result<List<GateKey>, OutOfMemory>
    requires { IsSettling journal.old step.value state.old undo.now periods.now lists draining.now }
    ensures settled { IfOk result (λ shut. HasSettled journal.old step.value lists state.old journal.new state.new shut) }
    ensures journal { OnErr result (journal.new ≡ journal.old) }
    ensures state { OnErr result (state.new ≡ state.old) }
{
    let entries = next_length(journal);
    match ending_of(
        alloc,
        &state.world,
        undo,
        periods,
        &step,
        &lists,
        draining,
        entries,
    ) {
        Ok(ending) => settle_ending(alloc, journal, state, undo, periods, step, lists, ending),
        Err(error) => {
            let_go(step);
            let_go(lists);
            Err(error)
        }
    }
}

// The same, where this is what the entry leaves.
fn settle_ending(
    alloc: Global,
    journal: &mut Journal<Step>,
    state: &mut State,
    undo: &Draft,
    periods: &List<OpenPeriod>,
    step: Box<Step>,
    lists: Lists,
    ending: Ending,
) -> Result<List<GateKey>, OutOfMemory>
    requires { IsEnding journal.old step.value state.old undo.now periods.now lists ending }
    ensures settled { IfOk result (λ shut. HasSettled journal.old step.value lists state.old journal.new state.new shut) }
    ensures journal { OnErr result (journal.new ≡ journal.old) }
    ensures state { OnErr result (state.new ≡ state.old) }
{
    // These let the proof know what holds of every journal, and of the registry.
    note_listeners();
    note_bundles();
    note_stops();
    let _rows = state.world.registry.rows();
    let given = services_among(lists.opened.as_slice());
    match state.world.registry.give(given) {
        Ok(_) => {}
        Err(error) => {
            let_go(step);
            let_go(lists);
            let_go(ending);
            return Err(error);
        }
    }
    let reserved = ending.rest.reserved;
    match enter(alloc, journal, state, undo, periods, step, lists, reserved) {
        Ok(()) => Ok(leave(&mut state.world, ending)),
        Err(error) => {
            state.world.registry.give_back(given);
            let_go(ending);
            Err(error)
        }
    }
}

// What an entry leaves, and which bundles stop with it.
fn ending_of(
    alloc: Global,
    world: &World,
    undo: &Draft,
    periods: &List<OpenPeriod>,
    step: &Step,
    lists: &Lists,
    draining: &List<u64>,
    entries: u64,
) -> Result<Ending, OutOfMemory>
    requires few { HasFewInstances world.now }
    requires entries { entries ≡ world.now.entries + 1 }
    ensures rest { IfOk result (λ e. (was : World) → IsBefore was world.now undo.now periods.now → HaveStood step.now was world.now
        → draining.now ≡ draining_in was → IsRest was world.now e.rest) }
    ensures stopped { IfOk result (λ e. e.stopped ≡ lists.now.stopped) }
{
    let rest = rest_of(alloc, world, undo, periods, step, draining, entries)?;
    match copied(alloc, lists.stopped.as_slice()) {
        Ok(stopped) => Ok(Ending { rest, stopped }),
        Err(error) => {
            let_go(rest);
            Err(error)
        }
    }
}

fn rest_of(
    alloc: Global,
    world: &World,
    undo: &Draft,
    periods: &List<OpenPeriod>,
    step: &Step,
    draining: &List<u64>,
    entries: u64,
) -> Result<Rest, OutOfMemory>
    requires few { HasFewInstances world.now }
    requires entries { entries ≡ world.now.entries + 1 }
    ensures { IfOk result (λ r. (was : World) → IsBefore was world.now undo.now periods.now → HaveStood step.now was world.now
        → draining.now ≡ draining_in was → IsRest was world.now r) }
{
    let rows = rows_with(world, undo);
    let before = periods_before(periods, undo);
    let left = left_between(alloc, rows, before, world)?;
    let gets = gets_left(alloc, step, left.as_slice(), world)?;
    let reserved = reserved(world, tokens_left(world, &gets));
    Ok(Rest {
        entries,
        gets,
        unregistered_held: unregistered_held_between(alloc, left.as_slice(), world)?,
        shut: shut_since(alloc, world, draining.as_slice())?,
        reserved,
    })
}

/// A list of the same numbers.
pub(crate) fn copied(alloc: Global, numbers: &[u64]) -> Result<List<u64>, OutOfMemory>
    ensures { IfOk result (λ v. v ≡ numbers.now) }
{
    let all = Vec::from_slice(alloc, numbers)?;
    Ok(List::of(all))
}

// The gets by token that are left of a world's.
fn tokens_left<'a>(world: &'a World, gets: &'a Option<StandingGets>) -> &'a [Token]
    ensures { result.now ≡ tokens_left gets.entry.now world.entry.now }
{
    match gets {
        Some(gets) => gets.tokens.as_slice(),
        None => world.tokens.as_slice(),
    }
}

// Adds an entry, and tells the listeners of it: both or nothing.
fn enter(
    alloc: Global,
    journal: &mut Journal<Step>,
    state: &mut State,
    undo: &Draft,
    periods: &List<OpenPeriod>,
    step: Box<Step>,
    lists: Lists,
    reserved: u64,
) -> Result<(), OutOfMemory>
    requires room { length journal.old.entries + 1 + reserved ≤ journal.old.limit }
    requires cached { AreCached state.old undo.now }
    requires before { HasBefore state.old.world undo.now periods.now }
    requires numbered { AreNumbered state.old.world.listeners.numbered state.old.world.listeners.rows }
    ensures ok { OnOk result (HasEntered journal.old step.value lists reserved journal.new) }
    ensures told { OnOk result ((was : World) → IsBefore was state.old.world undo.now periods.now
        → state.new ≡ record state.old { world = with_listeners_told step.value was state.old.world }) }
    ensures journal { OnErr result (journal.new ≡ journal.old) }
    ensures state { OnErr result (state.new ≡ state.old) }
{
    let before = journal.reserved();
    // This lets the proof know that what is reserved has room.
    let _room = journal.room();
    add_entry(journal, step, lists, reserved)?;
    match tell_last(alloc, journal, state, undo, periods) {
        Ok(()) => Ok(()),
        Err(error) => {
            take_entry(journal, before);
            Err(error)
        }
    }
}

// Takes over into the world what an entry leaves.
fn leave(world: &mut World, ending: Ending) -> List<GateKey>
    requires stopping { All (λ n. IsTrue (state_is is_stopping world.old.bundles.rows n)) ending.stopped }
    requires rising { AllPairs (λ (a b : ℕ). a < b) ending.stopped }
    ensures world { world.new ≡ settled_world ending.rest ending.stopped world.old }
    ensures shut { result ≡ ending.rest.shut }
{
    let Ending { rest, stopped } = ending;
    let Rest {
        entries,
        gets,
        unregistered_held,
        shut,
        ..
    } = rest;
    world.entries = entries;
    put_gets(world, gets);
    put(&mut world.unregistered_held, unregistered_held);
    complete_stops(&mut world.bundles, stopped.as_slice());
    shut
}

// Takes over into the world the gets that are left, where some end.
fn put_gets(world: &mut World, gets: Option<StandingGets>)
    ensures { world.new ≡ record world.old { uses = uses_left gets world.old; tokens = tokens_left gets world.old } }
{
    if let Some(StandingGets { uses, tokens }) = gets {
        put(&mut world.uses, uses);
        put(&mut world.tokens, tokens);
    }
}

// How many services open.
fn services_among(opened: &[Opened]) -> u64
    ensures { result ≡ services_among opened.now }
{
    opened.iter().filter(|one| one.service != 0).count() as u64
}

// How many entries are reserved in a world, where these are the gets by token.
fn reserved(world: &World, tokens: &[Token]) -> u64
    requires { HasFewInstances world.now }
    ensures { result ≡ reserved_with_tokens world.now (length tokens.now) }
{
    let instances = reserved_for_all(world.instances.as_slice());
    let all = reserved_for(&world.whiteboard) + instances;
    all + tokens.len() as u64
}

fn reserved_for_all(instances: &[Instance]) -> u64
    requires { 2 * length instances.now < 2 ^ 64 }
    ensures value { result ≡ sum (map reserved_for instances.now) }
    ensures small { result ≤ 2 * length instances.now }
{
    let mut all: u64 = 0;
    for instance in instances {
        all += reserved_for(instance);
    }
    all
}

// The entries that are reserved for an instance: the end of its turn, and its drain.
fn reserved_for(instance: &Instance) -> u64
    ensures value { result ≡ reserved_for instance.now }
    ensures small { result ≤ 2 }
{
    one_if(instance.callbacks.is_outstanding())
        + one_if(instance.callbacks.is_activated() && !instance.drained)
}

fn one_if(so: bool) -> u64
    ensures value { result ≡ one_if so }
    ensures small { result ≤ 1 }
{
    if so { 1 } else { 0 }
}
