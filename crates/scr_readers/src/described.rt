//! The component configurations of a description (OSGi Compendium 8, chapter 112, "Component Configuration").
ghost use Rattle.component_state.specs.Components.{existing, numbers_of};
ghost use Rattle.scr_readers.specs.Described.{described_numbers, is_described};
ghost use Rattle.std.specs.Prelude.{◌≡◌, IfOk, filter};

use component_state::Component;
use prop_map::{List, OutOfMemory};
use scr_world::World;
use std::alloc::Global;

/// The numbers of the component configurations that haven't ceased of the description at an index of a bundle's document,
/// in order.
///
/// # Errors
/// Only want of memory.
pub fn described_numbers(
    alloc: Global,
    world: &World,
    bundle: u64,
    index: u64,
) -> Result<List<u64>, OutOfMemory>
    ensures { IfOk result (λ numbers. numbers ≡ described_numbers world.now bundle index) }
{
    let numbers = numbers_among(alloc, world.components.as_slice(), bundle, index)?;
    Ok(List::of(numbers))
}

fn numbers_among(
    alloc: Global,
    components: &[Component],
    bundle: u64,
    index: u64,
) -> Result<Vec<u64>, OutOfMemory>
    ensures { IfOk result (λ v. v.items ≡ numbers_of (filter (is_described bundle index) (existing components.now))) }
{
    let mut numbers = Vec::new(alloc);
    for component in components {
        if component.exists && is_described(bundle, index, component) {
            numbers.push(component.number)?;
        }
    }
    Ok(numbers)
}

fn is_described(bundle: u64, index: u64, component: &Component) -> bool
    ensures { result ≡ is_described bundle index component.now }
{
    component.bundle == bundle && component.index == index
}
