//! Which instances serve, hold and are held (OSGi Compendium 8, chapter 112, "Binding Services", "Unbinding"; scopes: OSGi Core 8,
//! chapter 5, "Service Scope").
ghost use Rattle.callback_orders.specs.Lives.{held_for};
ghost use Rattle.component_dto.specs.declared.description.Reference.{Reference};
ghost use Rattle.component_state.specs.Components.{consumer_for, declaring_bundle};
ghost use Rattle.component_state.specs.declared.component.Component.{Component};
ghost use Rattle.prop_map.specs.Words.{has};
ghost use Rattle.scr_dues.specs.LeanViews.{is_making};
ghost use Rattle.scr_world.specs.Instances.{is_active_instance, is_active_phase};
ghost use Rattle.scr_world.specs.Lists.{holds};
ghost use Rattle.scr_world.specs.Views.{bundle_of_instance, has_holder, is_holder, is_ready, serves};
ghost use Rattle.scr_world.specs.Worlds.{direct_services};
ghost use Rattle.service_registry.specs.declared.row.ServiceRow.{ServiceRow};
ghost use Rattle.std.specs.List.{list_any};
ghost use Rattle.std.specs.Option.{option_copied, option_map_or};
ghost use Rattle.std.specs.Prelude.{◌≡◌, ◌==◌, ◌&&◌, false};

use crate::components::references_in;
use crate::own_rows::OwnRows;
use callback_orders::Phase;
use component_dto::{Reference, Scope};
use component_state::{Component, component_of};
use instance_callbacks::InstanceCallbacks;
use prop_map::Str;
use scr_world::{Instance, World};
use service_registry::Registry;

pub(crate) fn is_active_phase(phase: Phase) -> bool
    ensures { result ≡ is_active_phase phase }
{
    matches!(phase, Phase::Active)
}

pub(crate) fn is_making(phase: Phase) -> bool
    ensures { result ≡ is_making phase }
{
    matches!(phase, Phase::Making)
}

// For whom the instance is that a bundle uses: for all, or for this bundle.
pub(crate) fn consumer_for(component: &Component, bundle: u64) -> u64
    ensures { result ≡ consumer_for component.now bundle }
{
    match component.description.get().scope {
        Scope::Singleton => 0,
        Scope::Bundle | Scope::Prototype => bundle,
    }
}

fn is_for(component: Option<&Component>, bundle: u64, consumer: u64) -> bool
    ensures { result ≡ option_map_or (λ (c : Component). consumer == consumer_for c bundle) (option_copied component.entry) false }
{
    match component {
        Some(component) => consumer == consumer_for(component, bundle),
        None => false,
    }
}

fn bundle_in(component: Option<&Component>) -> u64
    ensures { result ≡ option_map_or (λ (c : Component). c.bundle) (option_copied component.entry) 0 }
{
    match component {
        Some(component) => component.bundle,
        None => 0,
    }
}

/// The bundle whose component an instance is of, 0 at the whiteboard's.
pub fn bundle_of_instance(world: &World, instance: &Instance) -> u64
    ensures { result ≡ bundle_of_instance world.now instance.now }
{
    bundle_in(component_of(
        world.components.as_slice(),
        instance.origin.get().configuration,
    ))
}

/// Whether an instance is the one that a bundle uses of a service: it was made with it, for this bundle or for all.
pub fn serves(world: &World, bundle: u64, service: u64, instance: &Instance) -> bool
    ensures { result ≡ serves world.now bundle service instance.now }
{
    let components = world.components.as_slice();
    instance.service == service
        && is_for(
            component_of(components, instance.origin.get().configuration),
            bundle,
            instance.consumer,
        )
}

// Whether a direct service has a number.
fn is_direct(own: &OwnRows, world: &World, service: u64) -> bool
    ensures { result ≡ list_any (λ (r : ServiceRow). r.id == service) (direct_services world.now) }
{
    own.condition().id == service || is_registered(&world.registry, service)
}

fn is_registered(registry: &Registry, service: u64) -> bool
    ensures { result ≡ list_any (λ (r : ServiceRow). r.id == service) registry.now.rows }
{
    registry.row(service).is_some()
}

// Whether an active one among these instances serves a bundle.
fn is_served(world: &World, bundle: u64, service: u64, instances: &[Instance]) -> bool
    ensures { result ≡ list_any (λ (i : Instance). serves world.now bundle service i && is_active_instance i) instances.now }
{
    instances.iter().any(|instance| serves(world, bundle, service, instance)
        && instance.is_active())
}

/// Whether a service is ready for a bundle: it is direct, or its instance is active.
pub fn is_ready(own: &OwnRows, world: &World, bundle: u64, service: u64) -> bool
    ensures { result ≡ is_ready world.now bundle service }
{
    is_direct(own, world, service) || is_served(world, bundle, service, world.instances.as_slice())
}

/// Whether an instance holds a service. It takes no memory.
#[tactic(auto, using(crate::proofs::Bound::none_held))]
pub fn holds(own: &OwnRows, world: &World, service: u64, instance: &Instance) -> bool
    ensures { result ≡ holds world.now.components service instance.now }
{
    let callbacks = &instance.callbacks;
    callbacks.was_bound(service)
        && holds_for_last_or_any(references_in(own, world, instance), callbacks, service)
}

// Whether a service is held for the reference of a name.
fn holds_for(callbacks: &InstanceCallbacks, name: &Str, service: u64) -> bool
    ensures { result ≡ has (held_for name.now callbacks.now) service }
{
    callbacks.held(name).iter().any(|other| *other == service)
}

// Whether it is held for one of these references, the first one first.
fn holds_for_any(references: &[Reference], callbacks: &InstanceCallbacks, service: u64) -> bool
    ensures { result ≡ list_any (λ (r : Reference). has (held_for r.name callbacks.now) service) references.now }
{
    references
        .iter()
        .any(|reference| holds_for(callbacks, &reference.name, service))
}

// The same. An ending instance lets go of the last reference first, one that goes on of the first: so that which is held longest
// stands at an end, and is looked for there first.
#[tactic(auto, using(crate::proofs::Bound::last_too))]
fn holds_for_last_or_any(
    references: &[Reference],
    callbacks: &InstanceCallbacks,
    service: u64,
) -> bool
    ensures { result ≡ list_any (λ (r : Reference). has (held_for r.name callbacks.now) service) references.now }
{
    match references {
        [.., last] => {
            holds_for(callbacks, &last.name, service)
                || holds_for_any(references, callbacks, service)
        }
        [] => false,
    }
}

// Whether one instance holds the service of another and is served by it.
fn is_holder(own: &OwnRows, world: &World, instance: &Instance, other: &Instance) -> bool
    ensures { result ≡ is_holder world.now instance.now other.now }
{
    holds(own, world, instance.service, other)
        && serves(
            world,
            bundle_of_instance(world, other),
            instance.service,
            instance,
        )
}

fn has_holder_among(own: &OwnRows, world: &World, instance: &Instance, others: &[Instance]) -> bool
    ensures { result ≡ list_any (is_holder world.now instance.now) others.now }
{
    others
        .iter()
        .any(|other| is_holder(own, world, instance, other))
}

/// Whether an instance is held: one holds its service, and is served by it. It takes no memory.
pub fn has_holder(own: &OwnRows, world: &World, instance: &Instance) -> bool
    ensures { result ≡ has_holder world.now instance.now }
{
    instance.service != 0
        && (is_holder(own, world, instance, &world.whiteboard)
            || has_holder_among(own, world, instance, world.instances.as_slice()))
}
