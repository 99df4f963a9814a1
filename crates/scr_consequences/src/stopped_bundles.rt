//! Bundles that have stopped (OSGi Core 8, chapter 4, "Stopping Bundles").
ghost use Rattle.bundle_life.specs.declared.bundle.BundleLife.{BundleLife};
ghost use Rattle.component_state.specs.Components.{declaring_bundle};
ghost use Rattle.scr_world.specs.Consequences.{has_stopped, keeps_bundle, stopped_in};
ghost use Rattle.std.specs.List.{list_any};
ghost use Rattle.std.specs.Prelude.{◌≡◌, IfOk, filter, map};

use bundle_life::{BundleLife, BundleState};
use component_state::{Component, component_of};
use prop_map::{List, OutOfMemory};
use scr_world::{Instance, World};
use std::alloc::Global;

// The bundle of a component configuration, 0 where it isn't known.
fn declaring_bundle(components: &[Component], configuration: u64) -> u64
    ensures { result ≡ declaring_bundle components.now configuration }
{
    match component_of(components, configuration) {
        Some(component) => component.bundle,
        None => 0,
    }
}

/// Whether an instance keeps a bundle from having stopped: it is of one of its components, or was made for it. It takes no
/// memory.
pub fn keeps_bundle(components: &[Component], bundle: u64, instance: &Instance) -> bool
    ensures { result ≡ keeps_bundle components.now bundle instance.now }
{
    declaring_bundle(components, instance.origin.get().configuration) == bundle
        || instance.consumer == bundle
}

fn is_kept(components: &[Component], instances: &[Instance], bundle: u64) -> bool
    ensures { result ≡ list_any (keeps_bundle components.now bundle) instances.now }
{
    instances
        .iter()
        .any(|instance| keeps_bundle(components, bundle, instance))
}

fn has_stopped(components: &[Component], instances: &[Instance], bundle: &BundleLife) -> bool
    ensures { result ≡ has_stopped components.now instances.now bundle.now }
{
    bundle.state == BundleState::Stopping && !is_kept(components, instances, bundle.number)
}

fn stopped_among(
    alloc: Global,
    components: &[Component],
    instances: &[Instance],
    bundles: &[BundleLife],
) -> Result<List<u64>, OutOfMemory>
    ensures { IfOk result (λ numbers. numbers ≡ map (λ (b : BundleLife). b.number) (filter (has_stopped components.now instances.now) bundles.now)) }
{
    let mut found = Vec::new(alloc);
    for bundle in bundles {
        if has_stopped(components, instances, bundle) {
            found.push(bundle.number)?;
        }
    }
    Ok(List::of(found))
}

/// The bundles that have stopped, by number: STOPPING ones for which no instance is left.
///
/// # Errors
/// Only want of memory.
#[tactic(auto, unfolding(scr_world::specs::Consequences::stopped_in))]
pub fn stopped_in(alloc: Global, world: &World) -> Result<List<u64>, OutOfMemory>
    ensures { IfOk result (λ numbers. numbers ≡ stopped_in world.now) }
{
    stopped_among(
        alloc,
        world.components.as_slice(),
        world.instances.as_slice(),
        world.bundles.rows(),
    )
}
