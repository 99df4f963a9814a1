//! What is due for an instance in the making: one reference after the other is looked at, up to the first that differs from what
//! is desired (OSGi Compendium 8, chapter 112, "Component Life Cycle").
ghost use Rattle.callback_orders.specs.Due.{due_in_making};
ghost use Rattle.callback_orders.specs.declared.due.DueRef.TheVariants.{Activate};
ghost use Rattle.callback_orders.specs.declared.instance_view.Phase.TheVariants.{Making as MakingPhase};
ghost use Rattle.component_dto.specs.declared.description.Reference.{Reference};
ghost use Rattle.scr_dues.specs.FirstDues.{due_as};
ghost use Rattle.scr_dues.specs.Makings.{AreChoicesFrom, HoldsUpTo, due_by_view, due_for_one, holds_choice, is_activate, placed};
ghost use Rattle.scr_world.specs.Views.{reference_view, references_in};
ghost use Rattle.prop_map.specs.Words.{with_places};
ghost use Rattle.std.specs.Prelude.{◌≡◌, IfOk, drop, false, map};

use crate::components::references_in;
use crate::desires::{choice_where_static, choices_from, is_static};
use crate::lean_views::lean_reference;
use crate::making::Making;
use crate::own_rows::OwnRows;
use callback_orders::{DueRef, InstanceView, Phase, ReferenceView, due_of};
use component_dto::Reference;
use component_state::Choice;
use prop_map::{List, OutOfMemory};
use scr_world::{Instance, World};
use std::alloc::Global;

/// Choices without the first ones.
pub(crate) fn choices_behind(choices: &[Choice], count: usize) -> &[Choice]
    ensures { result.now ≡ drop count choices.now }
{
    match choices.get(count..) {
        Some(others) => others,
        None => &[],
    }
}

/// References without the first ones.
pub(crate) fn references_behind(references: &[Reference], count: usize) -> &[Reference]
    ensures { result.now ≡ drop count references.now }
{
    match references.get(count..) {
        Some(others) => others,
        None => &[],
    }
}

/// Whether a static reference holds just what was chosen for it.
pub(crate) fn holds_choice(
    instance: &Instance,
    choices: &[Choice],
    place: u64,
    reference: &Reference,
) -> bool
    requires { AreChoicesFrom place instance.now.origin.chosen choices.now }
    ensures { result ≡ holds_choice instance.now (place, reference.now) }
{
    let choice = choice_where_static(choices, place, reference);
    is_static(reference.policy) && instance.callbacks.held(&reference.name) == choice
}

// The same for the reference at a place.
fn placed(due: Option<DueRef>, place: usize) -> Option<DueRef>
    ensures { result ≡ placed place due }
{
    match due {
        Some(
            DueRef::Bind {
                instance,
                service,
                ..
            },
        ) => Some(DueRef::Bind {
            instance,
            reference: place,
            service,
        }),
        Some(
            DueRef::Unbind {
                instance,
                service,
                ..
            },
        ) => Some(DueRef::Unbind {
            instance,
            reference: place,
            service,
        }),
        other => other,
    }
}

// What is due by the view of the reference at a place alone: Activate where it doesn't differ.
fn due_by_view(
    alloc: Global,
    instance: u64,
    place: usize,
    view: ReferenceView,
) -> Result<Option<DueRef>, OutOfMemory>
    ensures { IfOk result (λ due. due ≡ due_by_view instance (place, view)) }
{
    let mut references = Vec::new(alloc);
    references.push(view)?;
    let alone = InstanceView {
        instance,
        phase: Phase::Making,
        ending: false,
        outstanding: false,
        drained: false,
        unheld: true,
        stale: false,
        references: List::of(references),
    };
    Ok(placed(due_of(&alone), place))
}

// The same for a reference of an instance that goes on. Where it holds what was chosen no memory is taken.
fn due_for_one(
    alloc: Global,
    own: &OwnRows,
    world: &World,
    instance: &Instance,
    choices: &[Choice],
    place: usize,
    reference: &Reference,
) -> Result<Option<DueRef>, OutOfMemory>
    requires { AreChoicesFrom place instance.now.origin.chosen choices.now }
    ensures { IfOk result (λ due. due ≡ due_for_one world.now instance.now (place, reference.now)) }
{
    let number = instance.number;
    let at = place as u64;
    if holds_choice(instance, choices, at, reference) {
        return Ok(Some(DueRef::Activate { instance: number }));
    }
    let services = instance.callbacks.held(&reference.name);
    let choice = choice_where_static(choices, at, reference);
    let view = lean_reference(
        alloc, own, world, false, instance, services, choice, at, reference,
    )?;
    due_by_view(alloc, number, place, view)
}

fn is_activate(due: Option<DueRef>) -> bool
    ensures { result ≡ is_activate due }
{
    matches!(due, Some(DueRef::Activate { .. }))
}

// What the references from a place on want.
fn due_from(
    alloc: Global,
    own: &OwnRows,
    world: &World,
    instance: &Instance,
    making: Making,
) -> Result<Option<DueRef>, OutOfMemory>
    requires { HoldsUpTo instance.now (references_in world.now instance.now) making }
    ensures { IfOk result (λ due. due ≡ due_in_making instance.now.number (map (reference_view false world.now instance.now) (with_places 0 (references_in world.now instance.now)))) }
{
    let references = references_behind(references_in(own, world, instance), making.place);
    let mut choices = choices_behind(instance.origin.get().chosen.as_slice(), making.choices);
    for (at, reference) in references.iter().enumerate() {
        let place = making.place + at;
        choices = choices_from(choices, place as u64);
        let due = due_for_one(alloc, own, world, instance, choices, place, reference)?;
        if !is_activate(due) {
            return Ok(due);
        }
    }
    Ok(Some(DueRef::Activate {
        instance: instance.number,
    }))
}

/// What is due for an instance in the making that doesn't end, of which that much is known.
///
/// # Errors
/// Only want of memory.
pub(crate) fn due_in_making(
    alloc: Global,
    own: &OwnRows,
    world: &World,
    instance: &Instance,
    making: Making,
) -> Result<Option<DueRef>, OutOfMemory>
    requires { HoldsUpTo instance.now (references_in world.now instance.now) making }
    ensures { IfOk result (λ due. due ≡ due_as MakingPhase false world.now instance.now) }
{
    if instance.callbacks.is_outstanding() {
        Ok(None)
    } else {
        due_from(alloc, own, world, instance, making)
    }
}
