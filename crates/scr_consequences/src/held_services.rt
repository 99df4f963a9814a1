//! The services that instances hold (OSGi Compendium 8, chapter 112, "Binding Services", "Unbinding").
ghost use Rattle.callback_orders.specs.Lives.{held_for};
ghost use Rattle.component_dto.specs.declared.description.Reference.{Reference};
ghost use Rattle.prop_map.specs.Words.{has};
ghost use Rattle.scr_world.specs.Lists.{holds, is_service_held};
ghost use Rattle.scr_world.specs.Whiteboard.{whiteboard_references};
ghost use Rattle.scr_world.specs.declared.instance.Instance.{Instance};
ghost use Rattle.std.specs.List.{list_any};
ghost use Rattle.std.specs.Prelude.{◌≡◌, ◌||◌, IfOk};

use crate::platform_services::text;
use component_dto::Reference;
use component_state::{Component, component_of};
use instance_callbacks::InstanceCallbacks;
use prop_map::{OutOfMemory, Str};
use scr_world::{Instance, World};
use std::alloc::Global;

// Whether a service is held for the reference of a name.
fn has_service(callbacks: &InstanceCallbacks, name: &Str, service: u64) -> bool
    ensures { result ≡ has (held_for name.now callbacks.now) service }
{
    callbacks.held(name).iter().any(|other| *other == service)
}

// Whether it is held for one of these references.
fn holds_for(references: &[Reference], callbacks: &InstanceCallbacks, service: u64) -> bool
    ensures { result ≡ list_any (λ (r : Reference). has (held_for r.name callbacks.now) service) references.now }
{
    references.iter().any(|reference| has_service(callbacks, &reference.name, service))
}

// Whether it is held for one of two references.
fn either_holds(first: &Str, second: &Str, callbacks: &InstanceCallbacks, service: u64) -> bool
    ensures { result ≡ (has (held_for first.now callbacks.now) service || has (held_for second.now callbacks.now) service) }
{
    has_service(callbacks, first, service) || has_service(callbacks, second, service)
}

// Whether it is held for one of the references of the whiteboard.
fn whiteboard_holds(
    alloc: Global,
    callbacks: &InstanceCallbacks,
    service: u64,
) -> Result<bool, OutOfMemory>
    ensures { IfOk result (λ b. b ≡ list_any (λ (r : Reference). has (held_for r.name callbacks.now) service) whiteboard_references) }
{
    let contexts = text(alloc, "contexts")?;
    let servlets = text(alloc, "servlets")?;
    Ok(either_holds(&contexts, &servlets, callbacks, service))
}

// Whether an instance holds a service, where it was bound to it.
fn holds_bound(
    alloc: Global,
    components: &[Component],
    service: u64,
    instance: &Instance,
) -> Result<bool, OutOfMemory>
    ensures { IfOk result (λ b. b ≡ holds components.now service instance.now) }
{
    if instance.origin.get().configuration == 0 {
        return whiteboard_holds(alloc, &instance.callbacks, service);
    }
    match component_of(components, instance.origin.get().configuration) {
        Some(component) => {
            let references = component.description.get().references.as_slice();
            Ok(holds_for(references, &instance.callbacks, service))
        }
        None => Ok(false),
    }
}

/// Whether an instance holds a service: it was bound to it for one of its references, and isn't unbound yet.
///
/// # Errors
/// Only want of memory.
pub fn holds(
    alloc: Global,
    components: &[Component],
    service: u64,
    instance: &Instance,
) -> Result<bool, OutOfMemory>
    ensures { IfOk result (λ b. b ≡ holds components.now service instance.now) }
{
    if instance.callbacks.was_bound(service) {
        return holds_bound(alloc, components, service, instance);
    }
    Ok(false)
}

fn some_hold(
    alloc: Global,
    components: &[Component],
    service: u64,
    instances: &[Instance],
) -> Result<bool, OutOfMemory>
    ensures { IfOk result (λ b. b ≡ list_any (holds components.now service) instances.now) }
{
    for instance in instances {
        if holds(alloc, components, service, instance)? {
            return Ok(true);
        }
    }
    Ok(false)
}

/// Whether a living instance holds a service, that of the whiteboard among them.
///
/// # Errors
/// Only want of memory.
pub fn is_service_held(alloc: Global, world: &World, service: u64) -> Result<bool, OutOfMemory>
    ensures { IfOk result (λ b. b ≡ is_service_held world.now service) }
{
    let components = world.components.as_slice();
    if holds(alloc, components, service, &world.whiteboard)? {
        return Ok(true);
    }
    some_hold(alloc, components, service, world.instances.as_slice())
}
