//! Turns that are under way, and gates that await their drain (turns and gates are our own).
ghost use Rattle.component_state.specs.declared.component.Component.{Component};
ghost use Rattle.scr_world.specs.Calls.{next_drain};
ghost use Rattle.scr_world.specs.Consequences.{is_draining};
ghost use Rattle.scr_world.specs.Instances.{has_turn, last_callback};
ghost use Rattle.scr_world.specs.Legal.{awaits_drain, is_under_way};
ghost use Rattle.scr_world.specs.TurnSteps.{class_in, name_in, work_for, work_under_way};
ghost use Rattle.scr_world.specs.Worlds.{all_instances};
ghost use Rattle.std.specs.List.{list_any};
ghost use Rattle.std.specs.Option.{option_copied, option_map_or};
ghost use Rattle.std.specs.Prelude.{◌≡◌, [], IfOk, find, option_map};

use crate::components::component_in;
use crate::own_rows::OwnRows;
use callback_orders::Callback;
use component_state::Component;
use instance_callbacks::InstanceCallbacks;
use journal_core::GateKey;
use prop_map::{Copies, OutOfMemory, Str};
use scr_world::{Instance, World, ends, last_callback};
use std::alloc::Global;
use turn_work::{Site, TurnWork};

fn told_among(instances: &[Instance], turn: u64) -> Option<&Instance>
    ensures { option_copied result ≡ find (has_turn turn) instances.now }
{
    instances.iter().find(|instance| instance.has_turn(turn))
}

// The instance that is told by a turn under way.
fn told_by(world: &World, turn: u64) -> Option<&Instance>
    ensures { option_copied result ≡ find (has_turn turn) (all_instances world.now) }
{
    let whiteboard = &world.whiteboard;
    if whiteboard.has_turn(turn) {
        Some(whiteboard)
    } else {
        told_among(world.instances.as_slice(), turn)
    }
}

fn is_told(instances: &[Instance], turn: u64) -> bool
    ensures { result ≡ list_any (has_turn turn) instances.now }
{
    instances.iter().any(|instance| instance.has_turn(turn))
}

/// Whether a turn is under way. It takes no memory.
pub fn is_under_way(world: &World, turn: u64) -> bool
    ensures { result ≡ is_under_way world.now turn }
{
    world.whiteboard.has_turn(turn) || is_told(world.instances.as_slice(), turn)
}

// A copy of the last callback that an instance was told of.
fn last_copied(
    alloc: Global,
    callbacks: &InstanceCallbacks,
) -> Result<Option<Callback>, OutOfMemory>
    ensures { IfOk result (λ callback. callback ≡ last_callback callbacks.now) }
{
    match last_callback(callbacks) {
        Some(callback) => Ok(Some(callback.copy(alloc)?)),
        None => Ok(None),
    }
}

fn name_by(alloc: Global, component: Option<&Component>) -> Result<Str, OutOfMemory>
    ensures { IfOk result (λ name. name ≡ option_map_or (λ (c : Component). c.description.name) (option_copied component.entry) []) }
{
    match component {
        Some(component) => component.description.get().name.copy(alloc),
        None => Ok(Str::of(String::new(alloc))),
    }
}

fn class_by(alloc: Global, component: Option<&Component>) -> Result<Str, OutOfMemory>
    ensures { IfOk result (λ class. class ≡ option_map_or (λ (c : Component). c.description.implementation_class) (option_copied component.entry) []) }
{
    match component {
        Some(component) => component.description.get().implementation_class.copy(alloc),
        None => Ok(Str::of(String::new(alloc))),
    }
}

fn name_in(
    alloc: Global,
    own: &OwnRows,
    world: &World,
    configuration: u64,
) -> Result<Str, OutOfMemory>
    ensures { IfOk result (λ name. name ≡ name_in world.now configuration) }
{
    name_by(
        alloc,
        component_in(own, world.components.as_slice(), configuration),
    )
}

/// The class of a component configuration, none where it isn't known.
///
/// # Errors
/// Only want of memory.
pub fn class_in(
    alloc: Global,
    own: &OwnRows,
    world: &World,
    configuration: u64,
) -> Result<Str, OutOfMemory>
    ensures { IfOk result (λ class. class ≡ class_in world.now configuration) }
{
    class_by(
        alloc,
        component_in(own, world.components.as_slice(), configuration),
    )
}

fn work_for(
    alloc: Global,
    own: &OwnRows,
    world: &World,
    turn: u64,
    instance: &Instance,
    callback: Callback,
) -> Result<TurnWork, OutOfMemory>
    ensures { IfOk result (λ work. work ≡ work_for world.now turn instance.now callback) }
{
    let configuration = instance.origin.get().configuration;
    Ok(TurnWork {
        number: turn,
        callback,
        instance: instance.number,
        name: name_in(alloc, own, world, configuration)?,
        site: Site {
            class: class_in(alloc, own, world, configuration)?,
            properties: instance.properties.get().copy(alloc)?,
        },
    })
}

fn work_told(
    alloc: Global,
    own: &OwnRows,
    world: &World,
    turn: u64,
    instance: &Instance,
) -> Result<Option<TurnWork>, OutOfMemory>
    ensures { IfOk result (λ work. work ≡ option_map (work_for world.now turn instance.now) (last_callback instance.now.callbacks)) }
{
    match last_copied(alloc, &instance.callbacks)? {
        Some(callback) => Ok(Some(work_for(alloc, own, world, turn, instance, callback)?)),
        None => Ok(None),
    }
}

/// The work of a turn that is under way, none where no such turn is.
///
/// # Errors
/// Only want of memory.
pub fn work_under_way(
    alloc: Global,
    own: &OwnRows,
    world: &World,
    turn: u64,
) -> Result<Option<TurnWork>, OutOfMemory>
    ensures { IfOk result (λ work. work ≡ work_under_way world.now turn) }
{
    match told_by(world, turn) {
        Some(instance) => work_told(alloc, own, world, turn, instance),
        None => Ok(None),
    }
}

/// Whether the gate of an instance is shut and its drain isn't posted. It takes no memory.
pub fn awaits_drain(world: &World, instance: &Instance) -> bool
    ensures { result ≡ awaits_drain world.now instance.now }
{
    !instance.drained && instance.is_active() && ends(world, instance)
}

fn first_awaiting<'a>(world: &World, instances: &'a [Instance]) -> Option<&'a Instance>
    ensures { option_copied result ≡ find (awaits_drain world.now) instances.now }
{
    instances
        .iter()
        .find(|instance| awaits_drain(world, instance))
}

/// The gate of the first instance that awaits its drain, if one does. It takes no memory.
pub fn next_drain(world: &World) -> Option<GateKey>
    ensures { result ≡ next_drain world.now }
{
    match first_awaiting(world, world.instances.as_slice()) {
        Some(instance) => Some(instance.gate()),
        None => None,
    }
}
