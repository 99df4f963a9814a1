//! What instances hold (OSGi Compendium 8, chapter 112, "Bound Services").
ghost use Rattle.scr_readers.specs.Reaching.{held_best_first, held_rows, held_services, some_row};
ghost use Rattle.scr_world.specs.Readers.{TellsHeld, held_lines, held_lines_by, held_lines_of};
ghost use Rattle.scr_world.specs.Worlds.{row_known};
ghost use Rattle.std.specs.Fmt.{decimal};
ghost use Rattle.std.specs.Prelude.{◌≡◌, IfOk, flat_map, map};

use crate::services::copied;
use component_dto::Reference;
use component_state::exists;
use prop_map::{Copies, List, OutOfMemory, Str};
use scr_dues::{OwnRows, instance_of, references_in, row_known, sorted};
use scr_world::{CoreFault, HeldLine, Instance, World};
use service_registry::ServiceRow;
use std::alloc::Global;

/// What the living instances of a component configuration hold: by instance, then by reference, best first.
///
/// # Errors
/// `NoComponent`, with the number in decimal as its name, exactly where there is no such component configuration or it has
/// ceased. Otherwise only want of memory.
pub fn held_lines(
    alloc: Global,
    own: &OwnRows,
    world: &World,
    configuration: u64,
) -> Result<List<HeldLine>, CoreFault>
    ensures { TellsHeld world.now configuration result }
{
    if !exists(world.components.as_slice(), configuration) {
        let name = decimal(alloc, configuration)?;
        return Err(CoreFault::NoComponent { name });
    }
    Ok(List::of(lines_of(alloc, own, world, configuration)?))
}

/// The services that an instance holds for the reference of a name, best first, as they are or as they left. They aren't
/// copied.
///
/// # Errors
/// Only want of memory.
pub fn held_rows<'w>(
    alloc: Global,
    own: &'w OwnRows,
    world: &'w World,
    instance: &Instance,
    reference: &Str,
) -> Result<Vec<&'w ServiceRow>, OutOfMemory>
    ensures { IfOk result (λ rows. map (λ r. r.now) rows.items ≡ held_rows world.now reference.now instance.now) }
{
    let held = held_best_first(alloc, own, world, instance, reference)?;
    known_rows(alloc, own, world, &held)
}

/// Copies of the services that the instance of a number holds for the reference of a name, best first; nothing where there is
/// no such instance. That of the whiteboard has the number 0.
///
/// # Errors
/// Only want of memory.
pub fn held_services(
    alloc: Global,
    own: &OwnRows,
    world: &World,
    instance: u64,
    reference: &Str,
) -> Result<List<ServiceRow>, OutOfMemory>
    ensures { IfOk result (λ rows. rows ≡ held_services world.now instance reference.now) }
{
    match instance_of(world, instance) {
        Some(instance) => copies_held(alloc, own, world, instance, reference),
        None => Ok(List::of(Vec::new(alloc))),
    }
}

fn copies_held(
    alloc: Global,
    own: &OwnRows,
    world: &World,
    instance: &Instance,
    reference: &Str,
) -> Result<List<ServiceRow>, OutOfMemory>
    ensures { IfOk result (λ rows. rows ≡ held_rows world.now reference.now instance.now) }
{
    let rows = held_rows(alloc, own, world, instance, reference)?;
    copied(alloc, rows.as_slice())
}

fn decimal(alloc: Global, number: u64) -> Result<Str, OutOfMemory>
    ensures { IfOk result (λ text. text ≡ decimal number) }
{
    Ok(Str::of(format!(in alloc; "{number}")?))
}

// By instance.
fn lines_of(
    alloc: Global,
    own: &OwnRows,
    world: &World,
    configuration: u64,
) -> Result<Vec<HeldLine>, OutOfMemory>
    ensures { IfOk result (λ v. v.items ≡ held_lines world.now configuration) }
{
    let mut lines = Vec::new(alloc);
    for instance in world.instances.as_slice() {
        if instance.origin.get().configuration == configuration {
            lines.append(&mut lines_of_instance(alloc, own, world, instance)?)?;
        }
    }
    Ok(lines)
}

// By reference.
fn lines_of_instance(
    alloc: Global,
    own: &OwnRows,
    world: &World,
    instance: &Instance,
) -> Result<Vec<HeldLine>, OutOfMemory>
    ensures { IfOk result (λ v. v.items ≡ held_lines_of world.now instance.now) }
{
    let mut lines = Vec::new(alloc);
    for reference in references_in(own, world, instance) {
        lines.append(&mut lines_for(alloc, own, world, instance, reference)?)?;
    }
    Ok(lines)
}

// Best first.
fn lines_for(
    alloc: Global,
    own: &OwnRows,
    world: &World,
    instance: &Instance,
    reference: &Reference,
) -> Result<Vec<HeldLine>, OutOfMemory>
    ensures { IfOk result (λ v. v.items ≡ held_lines_by world.now instance.now reference.now) }
{
    let held = held_best_first(alloc, own, world, instance, &reference.name)?;
    lines_with(alloc, instance.number, &reference.name, &held)
}

fn held_best_first(
    alloc: Global,
    own: &OwnRows,
    world: &World,
    instance: &Instance,
    reference: &Str,
) -> Result<Vec<u64>, OutOfMemory>
    ensures { IfOk result (λ v. v.items ≡ held_best_first world.now reference.now instance.now) }
{
    sorted(alloc, own, world, instance.callbacks.held(reference))
}

fn lines_with(
    alloc: Global,
    instance: u64,
    reference: &Str,
    services: &[u64],
) -> Result<Vec<HeldLine>, OutOfMemory>
    ensures { IfOk result (λ v. v.items ≡ map (λ s. record { instance = instance; reference = reference.now; service = s }) services.now) }
{
    let mut lines = Vec::new(alloc);
    for &service in services {
        lines.push(HeldLine {
            instance,
            reference: reference.copy(alloc)?,
            service,
        })?;
    }
    Ok(lines)
}

fn known_rows<'w>(
    alloc: Global,
    own: &'w OwnRows,
    world: &'w World,
    services: &[u64],
) -> Result<Vec<&'w ServiceRow>, OutOfMemory>
    ensures { IfOk result (λ rows. map (λ r. r.now) rows.items ≡ flat_map (λ s. some_row (row_known world.now s)) services.now) }
{
    let mut rows = Vec::new(alloc);
    for &service in services {
        if let Some(row) = row_known(own, world, service) {
            rows.push(row)?;
        }
    }
    Ok(rows)
}
