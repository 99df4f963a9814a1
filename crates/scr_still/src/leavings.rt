//! What an end without consequences leaves: the gate that is shut with it, and the service that isn't held any more (OSGi
//! Compendium 8, chapter 112, "Unbinding"; gates are our own).
ghost use Rattle.scr_consequences.specs.Ends.{HaveNextGenerations};
ghost use Rattle.scr_laws.specs.Reserving.{activates_by};
ghost use Rattle.scr_still.specs.StillEnds.{IsLeaving, IsLost, gives_drain_back, is_shut_by, key_opened, left_world, service_unbound};
ghost use Rattle.scr_still.specs.StillEnds.{shut_by_end, unbound_by, without};
ghost use Rattle.scr_world.specs.Instances.{has_turn, last_callback, next_generation};
ghost use Rattle.scr_world.specs.declared.instance.Instance.{Instance};
ghost use Rattle.service_registry.specs.declared.row.ServiceRow.{ServiceRow};
ghost use Rattle.std.specs.List.{list_any};
ghost use Rattle.std.specs.Option.{option_copied};
ghost use Rattle.std.specs.Prelude.{◌≡◌, ◌+◌, ◌==◌, IfOk, filter, find, map, not, option_and_then};

use crate::callbacks::last_unbound;
use callback_orders::Outcome;
use journal_core::GateKey;
use prop_map::{List, OutOfMemory};
use scr_consequences::{is_service_held, next_generation, opens_gate};
use scr_world::{Instance, World, ends, is_failed, last_is_activate};
use service_registry::ServiceRow;
use std::alloc::Global;
use std::mem;

/// What is told of an end before it stands in the world.
#[derive(Drop)]
pub(crate) struct Leaving {
    /// How many entries there are with it.
    pub(crate) entries: u64,
    /// The gates that are shut.
    pub(crate) shut: List<GateKey>,
    /// The service that its turn unbinds.
    pub(crate) unbound: Option<u64>,
    /// It gives the room of a drain back.
    pub(crate) drain: bool,
}

fn key_opened(generations: &[u64], instance: &Instance) -> GateKey
    requires { HaveNextGenerations generations.now }
    ensures { result ≡ key_opened generations.now instance.now }
{
    GateKey {
        slot: instance.slot,
        generation: next_generation(generations, instance),
    }
}

fn is_shut_by(world: &World, turn: u64, outcome: Outcome, instance: &Instance) -> bool
    ensures { result ≡ is_shut_by turn outcome world.now instance.now }
{
    opens_gate(turn, outcome, instance) && ends(world, instance)
}

fn shut_among(
    alloc: Global,
    world: &World,
    generations: &[u64],
    instances: &[Instance],
    turn: u64,
    outcome: Outcome,
) -> Result<List<GateKey>, OutOfMemory>
    requires { HaveNextGenerations generations.now }
    ensures { IfOk result (λ keys. keys ≡ map (key_opened generations.now) (filter (is_shut_by turn outcome world.now) instances.now)) }
{
    let mut keys = Vec::new(alloc);
    for instance in instances {
        if is_shut_by(world, turn, outcome, instance) {
            keys.push(key_opened(generations, instance))?;
        }
    }
    Ok(List::of(keys))
}

// The gates that are shut with such an end: that of the instance that becomes active by it, where it is ending already.
fn shut_by_end(
    alloc: Global,
    world: &World,
    turn: u64,
    outcome: Outcome,
) -> Result<List<GateKey>, OutOfMemory>
    requires { HaveNextGenerations world.now.generations }
    ensures { IfOk result (λ keys. keys ≡ shut_by_end turn outcome world.now) }
{
    shut_among(
        alloc,
        world,
        world.generations.as_slice(),
        world.instances.as_slice(),
        turn,
        outcome,
    )
}

fn told_among(instances: &[Instance], turn: u64) -> Option<&Instance>
    ensures { option_copied result ≡ find (has_turn turn) instances.now }
{
    instances.iter().find(|instance| instance.has_turn(turn))
}

// The service that a turn unbinds that tells one of these instances.
fn unbound_among(instances: &[Instance], turn: u64) -> Option<u64>
    ensures { result ≡ option_and_then (λ (i : Instance). option_and_then service_unbound (last_callback i.callbacks)) (find (has_turn turn) instances.now) }
{
    match told_among(instances, turn) {
        Some(instance) => last_unbound(&instance.callbacks),
        None => None,
    }
}

// The service that a turn unbinds, if it is that of an Unbind.
fn unbound_by(world: &World, turn: u64) -> Option<u64>
    ensures { result ≡ unbound_by turn world.now }
{
    if world.whiteboard.has_turn(turn) {
        return last_unbound(&world.whiteboard.callbacks);
    }
    unbound_among(world.instances.as_slice(), turn)
}

fn activates_by(turn: u64, instance: &Instance) -> bool
    ensures { result ≡ activates_by turn instance.now }
{
    instance.has_turn(turn) && last_is_activate(&instance.callbacks)
}

fn some_activate(instances: &[Instance], turn: u64) -> bool
    ensures { result ≡ list_any (activates_by turn) instances.now }
{
    instances
        .iter()
        .any(|instance| activates_by(turn, instance))
}

// Whether an end gives the room of a drain back: whether it is that of an Activate without success.
fn gives_drain_back(world: &World, turn: u64, outcome: Outcome) -> bool
    ensures { result ≡ gives_drain_back turn outcome world.now }
{
    is_failed(Some(outcome))
        && (activates_by(turn, &world.whiteboard)
            || some_activate(world.instances.as_slice(), turn))
}

fn stands_among(rows: &[ServiceRow], service: u64) -> bool
    ensures { result ≡ list_any (λ (r : ServiceRow). r.id == service) rows.now }
{
    rows.iter().any(|row| row.id == service)
}

/// Which service isn't held any more in the world behind an end that unbinds this one, of those that left.
pub(crate) fn lost_by(
    alloc: Global,
    world: &World,
    unbound: Option<u64>,
) -> Result<Option<u64>, OutOfMemory>
    ensures { IfOk result (λ lost. IsLost world.now unbound lost) }
{
    let Some(service) = unbound else {
        return Ok(None);
    };
    if !stands_among(world.unregistered_held.as_slice(), service) {
        return Ok(None);
    }
    if is_service_held(alloc, world, service)? {
        return Ok(None);
    }
    Ok(Some(service))
}

fn without_service(rows: List<ServiceRow>, service: u64) -> List<ServiceRow>
    ensures { result ≡ filter (λ (r : ServiceRow). not (r.id == service)) rows }
{
    let mut kept = rows.items();
    kept.retain(|row| row.id != service);
    List::of(kept)
}

// Leaves a service out. It takes no memory.
fn leave_out(alloc: Global, rows: &mut List<ServiceRow>, lost: Option<u64>)
    ensures { rows.new ≡ without lost rows.old }
{
    if let Some(service) = lost {
        let before = mem::replace(rows, List::of(Vec::new(alloc)));
        *rows = without_service(before, service);
    }
}

/// What is told of an end before it stands in the world, with which there are so many entries.
///
/// # Errors
/// Only want of memory.
pub(crate) fn leaving_of(
    alloc: Global,
    world: &World,
    turn: u64,
    outcome: Outcome,
    entries: u64,
) -> Result<Leaving, OutOfMemory>
    requires entries { entries ≡ world.now.entries + 1 }
    requires next { HaveNextGenerations world.now.generations }
    ensures { IfOk result (λ l. IsLeaving turn outcome world.now l) }
{
    Ok(Leaving {
        entries,
        shut: shut_by_end(alloc, world, turn, outcome)?,
        unbound: unbound_by(world, turn),
        drain: gives_drain_back(world, turn, outcome),
    })
}

/// Takes over into the world what an end leaves, and answers which gates are shut. It takes no memory.
pub(crate) fn take_over(
    alloc: Global,
    world: &mut World,
    leaving: Leaving,
    lost: Option<u64>,
) -> List<GateKey>
    ensures world { world.new ≡ left_world leaving lost world.old }
    ensures shut { result ≡ leaving.shut }
{
    let Leaving { entries, shut, .. } = leaving;
    world.entries = entries;
    leave_out(alloc, &mut world.unregistered_held, lost);
    shut
}
