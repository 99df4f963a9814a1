//! The turn that begins next (OSGi Compendium 8, chapter 112, "Component Life Cycle"; turns are our own).
ghost use Rattle.callback_orders.specs.Lives.{callback_of};
ghost use Rattle.callback_orders.specs.declared.due.DueRef.TheVariants.{Create as CreateDue};
ghost use Rattle.component_state.specs.declared.component.Component.{Component};
ghost use Rattle.prop_map.specs.Words.{with_places};
ghost use Rattle.reference_match.specs.Needs.{need_of};
ghost use Rattle.reference_match.specs.Targets.{chosen, targets};
ghost use Rattle.scr_dues.specs.Beginnings.{HasNextNumbers, step_of};
ghost use Rattle.scr_dues.specs.FirstDues.{first_due_in, next_step};
ghost use Rattle.scr_dues.specs.Makings.{AreNumbered, IsThatFar};
ghost use Rattle.scr_world.specs.Dues.{begin_for, begin_of, choice_for, choices, choices_of, instance_in, next_begin};
ghost use Rattle.scr_world.specs.Worlds.{all_instances, registered_services};
ghost use Rattle.scr_world.specs.declared.instance.Instance.{Instance};
ghost use Rattle.component_dto.specs.declared.description.Reference.{Reference};
ghost use Rattle.std.specs.List.{slice_index_or};
ghost use Rattle.std.specs.Option.{option_copied, option_map_or};
ghost use Rattle.std.specs.Prelude.{◌≡◌, ◌==◌, [], IfOk, Some, find, flat_map, map, option_map};

use crate::beginnings::{Beginning, boxed};
use crate::components::references_in;
use crate::desires::{is_static, targets};
use crate::dues::first_due_in;
use crate::following::{followed, known_now};
use crate::making::Making;
use crate::own_rows::OwnRows;
use callback_orders::{Callback, DueRef, Key};
use component_dto::Reference;
use component_state::{Choice, Component, component_of};
use prop_map::{Copies, List, OutOfMemory, Properties, Str};
use reference_match::{chosen, need_of};
use scr_world::{Instance, Step, World};
use std::alloc::Global;

fn choice(
    alloc: Global,
    own: &OwnRows,
    world: &World,
    properties: &Properties,
    place: u64,
    reference: &Reference,
) -> Result<Choice, OutOfMemory>
    ensures { IfOk result (λ c. c ≡ record {
      reference = place;
      services = (let n = need_of properties.now reference.now in chosen n (targets n (registered_services world.now)));
    }) }
{
    let need = need_of(alloc, properties, reference)?;
    let services = targets(alloc, own, world, &need)?;
    Ok(Choice {
        reference: place,
        services: List::of(chosen(alloc, &need, &services)?),
    })
}

// What is chosen for each of these references that is static.
fn choices_for(
    alloc: Global,
    own: &OwnRows,
    world: &World,
    properties: &Properties,
    references: &[Reference],
) -> Result<Vec<Choice>, OutOfMemory>
    ensures { IfOk result (λ v. v.items ≡ flat_map (choice_for (registered_services world.now) properties.now) (with_places 0 references.now)) }
{
    let mut found = Vec::new(alloc);
    for (at, reference) in references.iter().enumerate() {
        if is_static(reference.policy) {
            found.push(choice(alloc, own, world, properties, at as u64, reference)?)?;
        }
    }
    Ok(found)
}

fn choices_by(
    alloc: Global,
    own: &OwnRows,
    world: &World,
    component: Option<&Component>,
) -> Result<Vec<Choice>, OutOfMemory>
    ensures { IfOk result (λ v. v.items ≡ option_map_or (choices_of (registered_services world.now)) (option_copied component.entry) []) }
{
    match component {
        Some(component) => {
            let references = component.description.get().references.as_slice();
            choices_for(alloc, own, world, &component.properties, references)
        }
        None => Ok(Vec::new(alloc)),
    }
}

/// What an instance of a component configuration chooses at its Create for each static reference.
///
/// # Errors
/// Only want of memory.
pub fn choices(
    alloc: Global,
    own: &OwnRows,
    world: &World,
    configuration: u64,
) -> Result<Vec<Choice>, OutOfMemory>
    ensures { IfOk result (λ v. v.items ≡ choices world.now configuration) }
{
    choices_by(
        alloc,
        own,
        world,
        component_of(world.components.as_slice(), configuration),
    )
}

// The name of the reference at a place, empty where there is none.
fn name_at(alloc: Global, references: &[Reference], place: usize) -> Result<Str, OutOfMemory>
    ensures { IfOk result (λ name. name ≡ slice_index_or (map (λ (r : Reference). r.name) references.now) place []) }
{
    match references.get(place) {
        Some(reference) => reference.name.copy(alloc),
        None => Ok(Str::of(String::new(alloc))),
    }
}

fn callback_of(
    alloc: Global,
    references: &[Reference],
    due: DueRef,
) -> Result<Callback, OutOfMemory>
    ensures { IfOk result (λ c. c ≡ callback_of (map (λ (r : Reference). r.name) references.now) due) }
{
    Ok(match due {
        DueRef::Create { .. } => Callback::Create,
        DueRef::Bind {
            reference,
            service,
            ..
        } => Callback::Bind {
            reference: name_at(alloc, references, reference)?,
            service,
        },
        DueRef::Updated {
            reference,
            service,
            ..
        } => Callback::Updated {
            reference: name_at(alloc, references, reference)?,
            service,
        },
        DueRef::Unbind {
            reference,
            service,
            ..
        } => Callback::Unbind {
            reference: name_at(alloc, references, reference)?,
            service,
        },
        DueRef::Activate { .. } => Callback::Activate,
        DueRef::Modified { .. } => Callback::Modified,
        DueRef::Deactivate { .. } => Callback::Deactivate,
        DueRef::Destroy { .. } => Callback::Destroy,
    })
}

// The instance whose callback is due, 0 at a Create.
fn instance_in(due: DueRef) -> u64
    ensures { result ≡ instance_in due }
{
    match due {
        DueRef::Create { .. } => 0,
        DueRef::Bind { instance, .. }
        | DueRef::Updated { instance, .. }
        | DueRef::Unbind { instance, .. }
        | DueRef::Activate { instance }
        | DueRef::Modified { instance }
        | DueRef::Deactivate { instance }
        | DueRef::Destroy { instance } => instance,
    }
}

/// The first of these instances that has a number. It takes no memory.
pub(crate) fn instance_among(instances: &[Instance], number: u64) -> Option<&Instance>
    ensures { option_copied result ≡ find (λ (i : Instance). i.number == number) instances.now }
{
    instances.iter().find(|instance| instance.number == number)
}

/// The living instance of a number, the whiteboard's too. It takes no memory.
pub fn instance_of(world: &World, number: u64) -> Option<&Instance>
    ensures { option_copied result ≡ find (λ (i : Instance). i.number == number) (all_instances world.now) }
{
    let whiteboard = &world.whiteboard;
    if whiteboard.number == number {
        Some(whiteboard)
    } else {
        instance_among(world.instances.as_slice(), number)
    }
}

fn begin_for(
    alloc: Global,
    own: &OwnRows,
    world: &World,
    due: DueRef,
    instance: &Instance,
) -> Result<Beginning, OutOfMemory>
    requires { HasNextNumbers world.now }
    ensures { IfOk result (λ b. step_of b ≡ begin_for world.now due instance.now) }
{
    let turn = world.turns_begun + 1;
    let callback = callback_of(alloc, references_in(own, world, instance), due)?;
    Ok(Beginning {
        turn,
        instance: instance.number,
        configuration: instance.origin.get().configuration,
        consumer: instance.consumer,
        callback,
        chosen: List::of(Vec::new(alloc)),
    })
}

fn create_for(
    alloc: Global,
    own: &OwnRows,
    world: &World,
    key: Key,
) -> Result<Beginning, OutOfMemory>
    requires { HasNextNumbers world.now }
    ensures { IfOk result (λ b. Some (step_of b) ≡ begin_of world.now (CreateDue key)) }
{
    let turn = world.turns_begun + 1;
    let instance = world.instances_numbered + 1;
    let chosen = choices(alloc, own, world, key.configuration)?;
    Ok(Beginning {
        turn,
        instance,
        configuration: key.configuration,
        consumer: key.consumer,
        callback: Callback::Create,
        chosen: List::of(chosen),
    })
}

// The beginning of the turn of a due callback that isn't a Create.
fn begin_told(
    alloc: Global,
    own: &OwnRows,
    world: &World,
    due: DueRef,
) -> Result<Option<Beginning>, OutOfMemory>
    requires { HasNextNumbers world.now }
    ensures { IfOk result (λ o. option_map step_of o
        ≡ option_map (begin_for world.now due) (find (λ (i : Instance). i.number == instance_in due) (all_instances world.now))) }
{
    match instance_of(world, instance_in(due)) {
        Some(instance) => Ok(Some(begin_for(alloc, own, world, due, instance)?)),
        None => Ok(None),
    }
}

fn begin_of(
    alloc: Global,
    own: &OwnRows,
    world: &World,
    due: DueRef,
) -> Result<Option<Beginning>, OutOfMemory>
    requires { HasNextNumbers world.now }
    ensures { IfOk result (λ o. option_map step_of o ≡ begin_of world.now due) }
{
    if let DueRef::Create { key } = due {
        return Ok(Some(create_for(alloc, own, world, key)?));
    }
    begin_told(alloc, own, world, due)
}

// The beginning of the turn of the first due callback, if one is due.
fn next_beginning(
    alloc: Global,
    own: &OwnRows,
    world: &World,
    due: Option<DueRef>,
) -> Result<Option<Beginning>, OutOfMemory>
    requires due { due ≡ first_due_in world.now }
    requires next { HasNextNumbers world.now }
    ensures { IfOk result (λ o. option_map step_of o ≡ next_step world.now) }
{
    match due {
        Some(due) => begin_of(alloc, own, world, due),
        None => Ok(None),
    }
}

// The step that begins the first due callback, if one is due.
fn step_for(
    alloc: Global,
    own: &OwnRows,
    world: &World,
    due: Option<DueRef>,
) -> Result<Option<Box<Step>>, OutOfMemory>
    requires due { due ≡ first_due_in world.now }
    requires next { HasNextNumbers world.now }
    ensures { IfOk result (λ o. option_map (λ step. step.value) o ≡ next_begin world.now) }
{
    match next_beginning(alloc, own, world, due)? {
        Some(beginning) => Ok(Some(boxed(alloc, beginning)?)),
        None => Ok(None),
    }
}

/// The step that begins the first due callback, if one is due.
///
/// # Errors
/// Only want of memory.
pub fn next_begin(
    alloc: Global,
    own: &OwnRows,
    world: &World,
) -> Result<Option<Box<Step>>, OutOfMemory>
    requires { HasNextNumbers world.now }
    ensures { IfOk result (λ o. option_map (λ step. step.value) o ≡ next_begin world.now) }
{
    let due = first_due_in(alloc, own, world, Making::none())?;
    step_for(alloc, own, world, due)
}

/// The same, where it's known how far an instance in the making is: then its references before that place aren't looked at. What is
/// known then, in the same world, is put in its place.
///
/// # Errors
/// Only want of memory.
pub fn next_begin_from(
    alloc: Global,
    own: &OwnRows,
    world: &World,
    making: &mut Making,
) -> Result<Option<Box<Step>>, OutOfMemory>
    requires numbered { AreNumbered world.now }
    requires next { HasNextNumbers world.now }
    requires far { IsThatFar world.now making.old }
    ensures next { IfOk result (λ o. option_map (λ step. step.value) o ≡ next_begin world.now) }
    ensures far { IsThatFar world.now making.new }
{
    let known = known_now(alloc, own, world, *making)?;
    let due = first_due_in(alloc, own, world, known)?;
    *making = followed(own, world, known, due);
    step_for(alloc, own, world, due)
}
