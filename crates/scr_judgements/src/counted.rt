//! The component configurations that count for a command: those that exist, and those that ceased of which an instance lives.
//! Our own.
ghost use Rattle.scr_world.specs.Stepping.{counted_components, is_counted};
ghost use Rattle.scr_world.specs.declared.instance.Instance.{Instance};
ghost use Rattle.std.specs.List.{list_any};
ghost use Rattle.std.specs.Prelude.{◌≡◌, ◌==◌, IfOk, filter, map};

use component_state::Component;
use prop_map::{Copies, List, OutOfMemory};
use scr_world::{Instance, World};
use std::alloc::Global;

/// The component configurations that a command finds: those that ceased without an instance are forgotten.
///
/// # Errors
/// Only want of memory.
pub fn counted_components(alloc: Global, world: &World) -> Result<Vec<&Component>, OutOfMemory>
    ensures { IfOk result (λ v. map (λ c. c.now) v.items ≡ counted_components world.now) }
{
    let instances = world.instances.as_slice();
    let components = world.components.as_slice();
    let mut counted = Vec::new(alloc);
    for component in components {
        if is_counted(instances, component) {
            counted.push(component)?;
        }
    }
    Ok(counted)
}

// The same as component configurations of their own.
pub(crate) fn copied(alloc: Global, world: &World) -> Result<List<Component>, OutOfMemory>
    ensures { IfOk result (λ components. components ≡ counted_components world.now) }
{
    let instances = world.instances.as_slice();
    let components = world.components.as_slice();
    let mut counted = Vec::new(alloc);
    for component in components {
        if is_counted(instances, component) {
            counted.push(component.copy(alloc)?)?;
        }
    }
    Ok(List::of(counted))
}

pub(crate) fn is_counted(instances: &[Instance], component: &Component) -> bool
    ensures { result ≡ is_counted instances.now component.now }
{
    component.exists || has_instance(instances, component.number)
}

fn has_instance(instances: &[Instance], number: u64) -> bool
    ensures { result ≡ list_any (λ (i : Instance). i.origin.configuration == number) instances.now }
{
    instances
        .iter()
        .any(|instance| instance.origin.get().configuration == number)
}
