//! What a journal comes to, read from its entries one after the other: which component configurations are open, and
//! which instances live.
ghost use Rattle.journal_core.specs.declared.entry.Opened.{Opened};
ghost use Rattle.script_shell.specs.Replays.{IsReplayOf, begins_turn, is_active_living, living_after, living_begun, lives_on, made, open_after_entry, with_begun, with_ended};
ghost use Rattle.prop_map.specs.Words.{has};
ghost use Rattle.scr_world.specs.Lists.{world_of};
ghost use Rattle.scr_world.specs.Steps.{history_of};
ghost use Rattle.std.specs.Prelude.{◌≡◌, ◌++◌, ◌∷◌, [], IfOk, OnOk, filter, length, map, not};

use callback_orders::{Callback, Outcome, Phase};
use instance_callbacks::InstanceCallbacks;
use journal_core::{Entry, Opened};
use prop_map::{Copies, OutOfMemory, has};
use scr_world::Step;
use std::alloc::Global;

/// An instance that lives, by what it was told.
#[derive(Drop)]
pub(crate) struct Living {
    /// Its number.
    pub(crate) number: u64,
    /// The number of the last turn that told it of a callback.
    pub(crate) turn: u64,
    /// Its callbacks so far.
    pub(crate) callbacks: InstanceCallbacks,
}

/// What the entries of a journal come to.
#[derive(Drop)]
pub(crate) struct Replay {
    /// The numbers of the open component configurations, in the order of their openings.
    pub(crate) open: Vec<u64>,
    /// The living instances, by number.
    pub(crate) living: Vec<Living>,
}

/// Reads the entries.
pub(crate) fn replayed(alloc: Global, entries: &[Entry<Step>]) -> Result<Replay, OutOfMemory>
    ensures { IfOk result (λ replay. IsReplayOf (world_of (history_of entries.now)) replay.open.items replay.living.items) }
{
    let mut replay = Replay {
        open: Vec::new(alloc),
        living: Vec::new(alloc),
    };
    for entry in entries {
        take_entry(alloc, &mut replay, entry)?;
    }
    Ok(replay)
}

/// How many turns began in these entries.
pub(crate) fn turns_in(entries: &[Entry<Step>]) -> u64
    ensures { result ≡ length (filter begins_turn entries.now) }
{
    entries.iter().filter(|entry| begins_turn(entry)).count() as u64
}

fn begins_turn(entry: &Entry<Step>) -> bool
    ensures { result ≡ begins_turn entry.now }
{
    matches!(entry.step, Step::Begin { .. })
}

/// How many of these instances are active.
pub(crate) fn active_among(living: &[Living]) -> u64
    ensures { result ≡ length (filter is_active_living living.now) }
{
    living.iter().filter(|one| is_active(one)).count() as u64
}

fn is_active(one: &Living) -> bool
    ensures { result ≡ is_active_living one.now }
{
    matches!(one.callbacks.phase(), Phase::Active)
}

// Reads an entry behind those before it.
fn take_entry(alloc: Global, replay: &mut Replay, entry: &Entry<Step>) -> Result<(), OutOfMemory>
    ensures open { OnOk result (replay.new.open.items ≡ open_after_entry entry.now replay.old.open.items) }
    ensures living { OnOk result (replay.new.living.items ≡ living_after entry.now.step replay.old.living.items) }
{
    take_closed(&mut replay.open, entry.closed.as_slice());
    take_opened(&mut replay.open, entry.opened.as_slice())?;
    take_step(alloc, &mut replay.living, &entry.step)
}

fn take_closed(open: &mut Vec<u64>, closed: &[u64])
    ensures { open.new.items ≡ filter (λ c. not (has closed.now c)) open.old.items }
{
    open.retain(|number| !has(closed, *number));
}

fn take_opened(open: &mut Vec<u64>, opened: &[Opened]) -> Result<(), OutOfMemory>
    ensures { OnOk result (open.new.items ≡ open.old.items ++ map (λ (o : Opened). o.configuration) opened.now) }
{
    for one in opened {
        open.push(one.configuration)?;
    }
    Ok(())
}

// Tells the instances of a step.
fn take_step(alloc: Global, living: &mut Vec<Living>, step: &Step) -> Result<(), OutOfMemory>
    ensures { OnOk result (living.new.items ≡ living_after step.now living.old.items) }
{
    match step {
        Step::Begin {
            turn,
            instance,
            callback,
            ..
        } => begin(alloc, living, *turn, *instance, callback),
        Step::End { turn, outcome } => {
            end(living, *turn, *outcome);
            Ok(())
        }
        Step::Command(_) => Ok(()),
        Step::Drained { .. } => Ok(()),
        Step::Got { .. } => Ok(()),
        Step::Released { .. } => Ok(()),
    }
}

// A turn begins: it makes an instance, or tells one.
fn begin(
    alloc: Global,
    living: &mut Vec<Living>,
    turn: u64,
    instance: u64,
    callback: &Callback,
) -> Result<(), OutOfMemory>
    ensures { OnOk result (living.new.items ≡ living_begun turn instance callback.now living.old.items) }
{
    if callback.is_create() {
        return make(alloc, living, turn, instance);
    }
    tell(alloc, living.as_mut_slice(), turn, instance, callback)
}

fn make(
    alloc: Global,
    living: &mut Vec<Living>,
    turn: u64,
    instance: u64,
) -> Result<(), OutOfMemory>
    ensures { OnOk result (living.new.items ≡ living.old.items ++ made turn instance ∷ []) }
{
    let one = made(alloc, turn, instance)?;
    living.push(one)?;
    Ok(())
}

// An instance whose Create begins.
fn made(alloc: Global, turn: u64, number: u64) -> Result<Living, OutOfMemory>
    ensures { IfOk result (λ one. one ≡ made turn number) }
{
    let mut callbacks = InstanceCallbacks::new(alloc);
    callbacks.begin(alloc, Callback::Create)?;
    Ok(Living {
        number,
        turn,
        callbacks,
    })
}

fn tell(
    alloc: Global,
    living: &mut [Living],
    turn: u64,
    instance: u64,
    callback: &Callback,
) -> Result<(), OutOfMemory>
    ensures { OnOk result (living.new ≡ map (with_begun turn instance callback.now) living.old) }
{
    for one in living.iter_mut() {
        tell_one(alloc, one, turn, instance, callback)?;
    }
    Ok(())
}

fn tell_one(
    alloc: Global,
    one: &mut Living,
    turn: u64,
    instance: u64,
    callback: &Callback,
) -> Result<(), OutOfMemory>
    ensures { OnOk result (one.new ≡ with_begun turn instance callback.now one.old) }
{
    if one.number == instance {
        let callback = callback.copy(alloc)?;
        one.callbacks.begin(alloc, callback)?;
        one.turn = turn;
    }
    Ok(())
}

// A turn ends: those that live on stay.
fn end(living: &mut Vec<Living>, turn: u64, outcome: Outcome)
    ensures { living.new.items ≡ filter lives_on (map (with_ended turn outcome) living.old.items) }
{
    end_each(living.as_mut_slice(), turn, outcome);
    leave(living);
}

fn end_each(living: &mut [Living], turn: u64, outcome: Outcome)
    ensures { living.new ≡ map (with_ended turn outcome) living.old }
{
    for one in living.iter_mut() {
        end_one(one, turn, outcome);
    }
}

fn end_one(one: &mut Living, turn: u64, outcome: Outcome)
    ensures { one.new ≡ with_ended turn outcome one.old }
{
    if one.turn == turn && one.callbacks.is_outstanding() {
        one.callbacks.end(outcome);
    }
}

fn leave(living: &mut Vec<Living>)
    ensures { living.new.items ≡ filter lives_on living.old.items }
{
    living.retain(|one| one.callbacks.is_living());
}
