//! Component configurations that failed.
ghost use Rattle.component_state.specs.Components.{exists};
ghost use Rattle.component_state.specs.Marks.{exists_unchanged, failed_after};
ghost use Rattle.prop_map.specs.Words.{has};
ghost use Rattle.std.specs.Prelude.{◌≡◌, ◌&&◌, IfOk, filter};

use crate::Component;
use crate::components::{exists, is_changed_at};
use prop_map::{OutOfMemory, has};
use std::alloc::Global;

/// The numbers of the component configurations that are failed after the entry at a place: those that were failed and
/// satisfied before it, haven't ceased and kept their properties, and those that haven't ceased and whose creation or
/// activation ended in it without success.
///
/// # Errors
/// Only want of memory.
pub fn failed_after(
    alloc: Global,
    place: u64,
    satisfied: &[u64],
    components: &[Component],
    failing: &[u64],
    failed: &[u64],
) -> Result<Vec<u64>, OutOfMemory>
    ensures { IfOk result (λ v. v.items ≡ failed_after place satisfied.now components.now failing.now failed.now) }
{
    let mut marked = still_failed(alloc, place, satisfied, components, failed)?;
    let mut more = existing(alloc, components, failing)?;
    marked.append(&mut more)?;
    Ok(marked)
}

fn still_failed(
    alloc: Global,
    place: u64,
    satisfied: &[u64],
    components: &[Component],
    failed: &[u64],
) -> Result<Vec<u64>, OutOfMemory>
    ensures { IfOk result (λ v. v.items ≡ filter (λ n. has satisfied.now n && exists_unchanged place components.now n) failed.now) }
{
    failed
        .iter()
        .copied()
        .filter(|number| {
            has(satisfied, *number) && exists_unchanged(place, components, *number)
        })
        .collect(alloc)
}

fn existing(
    alloc: Global,
    components: &[Component],
    numbers: &[u64],
) -> Result<Vec<u64>, OutOfMemory>
    ensures { IfOk result (λ v. v.items ≡ filter (exists components.now) numbers.now) }
{
    numbers
        .iter()
        .copied()
        .filter(|number| exists(components, *number))
        .collect(alloc)
}

// Whether it hasn't ceased, and the entry at this place didn't change its properties.
fn exists_unchanged(place: u64, components: &[Component], number: u64) -> bool
    ensures { result ≡ exists_unchanged place components.now number }
{
    components.iter().any(|component| component.number == number
        && component.exists
        && !is_changed_at(place, component))
}
