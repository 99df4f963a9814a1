//! The first due callback of a world (OSGi Compendium 8, chapter 112, "Component Life Cycle"; which of several comes first is our
//! own).
ghost use Rattle.callback_orders.specs.Due.{due_of};
ghost use Rattle.callback_orders.specs.declared.due.DueRef.TheVariants.{Create, Deactivate};
ghost use Rattle.scr_dues.specs.FirstDues.{due_among, due_as, due_for, due_of_all, first_due_in, missing_keys};
ghost use Rattle.scr_dues.specs.Makings.{HoldsUpTo, IsThatFar, nothing_known};
ghost use Rattle.scr_world.specs.Dues.{due_in};
ghost use Rattle.scr_world.specs.Instances.{is_active_phase};
ghost use Rattle.scr_world.specs.Views.{has_holder, references_in, view_of, whiteboard_view};
ghost use Rattle.scr_world.specs.declared.instance.Instance.{Instance};
ghost use Rattle.std.specs.Prelude.{◌≡◌, ◌==◌, ◌&&◌, IfOk, None, Some, false, if◌then◌else◌, is_none, not, option_map};
ghost use Rattle.std.specs.List.{Contains, slice_get};

use crate::due_in_making::due_in_making;
use crate::lean_views::due_view;
use crate::making::Making;
use crate::own_rows::OwnRows;
use crate::readiness::{has_holder, is_active_phase, is_making};
use crate::wanted::missing_keys;
use callback_orders::{DueRef, Key, Phase, due_of};
use prop_map::OutOfMemory;
use scr_world::{Instance, World, ends};
use std::alloc::Global;

// By a view in which nobody is said to hold it: that isn't looked at, unless it is active and ending; nor are other parts.
fn due_by_view(
    alloc: Global,
    own: &OwnRows,
    world: &World,
    phase: Phase,
    ending: bool,
    instance: &Instance,
) -> Result<Option<DueRef>, OutOfMemory>
    requires { (ending && is_active_phase phase) ≡ false }
    ensures { IfOk result (λ due. due ≡ due_as phase ending world.now instance.now) }
{
    let view = due_view(alloc, own, world, phase, ending, instance)?;
    Ok(due_of(&view))
}

// An active one that is ending is deactivated once its drain is posted and nobody holds it.
fn deactivation(own: &OwnRows, world: &World, instance: &Instance) -> Option<DueRef>
    ensures { result ≡ (if instance.now.drained && not (has_holder world.now instance.now) then Some (Deactivate instance.now.number) else None) }
{
    if instance.drained && !has_holder(own, world, instance) {
        Some(DueRef::Deactivate {
            instance: instance.number,
        })
    } else {
        None
    }
}

// What is due for an instance that is in a phase, and ends or doesn't. Whether it is held is asked last.
#[tactic(auto, using(crate::proofs::DueLemmas::none_outstanding, crate::proofs::DueLemmas::leaving))]
fn due_as(
    alloc: Global,
    own: &OwnRows,
    world: &World,
    phase: Phase,
    ending: bool,
    instance: &Instance,
) -> Result<Option<DueRef>, OutOfMemory>
    ensures { IfOk result (λ due. due ≡ due_as phase ending world.now instance.now) }
{
    if instance.callbacks.is_outstanding() {
        return Ok(None);
    }
    let may_leave = ending && is_active_phase(phase);
    if may_leave {
        return Ok(deactivation(own, world, instance));
    }
    due_by_view(alloc, own, world, phase, ending, instance)
}

// What is known of an instance.
fn known_of(making: Making, instance: &Instance) -> Making
    ensures { result ≡ (if instance.now.number == making.instance then making else nothing_known) }
{
    if instance.number == making.instance {
        making
    } else {
        Making::none()
    }
}

// In the making it's looked for from where the instance is known to be.
#[tactic(auto, using(crate::proofs::DueLemmas::as_for))]
fn due_for(
    alloc: Global,
    own: &OwnRows,
    world: &World,
    making: Making,
    instance: &Instance,
) -> Result<Option<DueRef>, OutOfMemory>
    requires { instance.now.number ≡ making.instance → HoldsUpTo instance.now (references_in world.now instance.now) making }
    ensures { IfOk result (λ due. due ≡ due_for world.now instance.now) }
{
    let phase = instance.callbacks.phase();
    let ending = ends(world, instance);
    if is_making(phase) && !ending {
        return due_in_making(alloc, own, world, instance, known_of(making, instance));
    }
    due_as(alloc, own, world, phase, ending, instance)
}

/// The callback of an instance that is due, if one is.
///
/// # Errors
/// Only want of memory.
pub fn due_of_instance(
    alloc: Global,
    own: &OwnRows,
    world: &World,
    instance: &Instance,
) -> Result<Option<DueRef>, OutOfMemory>
    ensures { IfOk result (λ due. due ≡ due_of (view_of world.now instance.now)) }
{
    due_for(alloc, own, world, Making::none(), instance)
}

/// The callback of the whiteboard's instance that is due, if one is.
///
/// # Errors
/// Only want of memory.
pub fn due_of_whiteboard(
    alloc: Global,
    own: &OwnRows,
    world: &World,
) -> Result<Option<DueRef>, OutOfMemory>
    ensures { IfOk result (λ due. due ≡ due_of (whiteboard_view world.now)) }
{
    due_as(alloc, own, world, Phase::Active, false, &world.whiteboard)
}

// What is due for the first of these instances that has something due.
fn due_among(
    alloc: Global,
    own: &OwnRows,
    world: &World,
    making: Making,
    instances: &[Instance],
) -> Result<Option<DueRef>, OutOfMemory>
    requires { (i : Instance) → Contains instances.now i → i.number ≡ making.instance → HoldsUpTo i (references_in world.now i) making }
    ensures { IfOk result (λ due. due ≡ due_among world.now instances.now) }
{
    for instance in instances {
        if let Some(due) = due_for(alloc, own, world, making, instance)? {
            return Ok(Some(due));
        }
    }
    Ok(None)
}

// What is due for the first instance that has something due, the whiteboard's before the others.
fn due_of_all(
    alloc: Global,
    own: &OwnRows,
    world: &World,
    making: Making,
) -> Result<Option<DueRef>, OutOfMemory>
    requires { IsThatFar world.now making }
    ensures { IfOk result (λ due. due ≡ due_of_all world.now) }
{
    match due_as(alloc, own, world, Phase::Active, false, &world.whiteboard)? {
        Some(first) => Ok(Some(first)),
        None => due_among(alloc, own, world, making, world.instances.as_slice()),
    }
}

// The Create of the first of these keys.
fn create_of(keys: &[Key]) -> Option<DueRef>
    ensures { result ≡ option_map Create (slice_get keys.now 0) }
{
    match keys.first() {
        Some(key) => Some(DueRef::Create { key: *key }),
        None => None,
    }
}

fn first_create(alloc: Global, own: &OwnRows, world: &World) -> Result<Option<DueRef>, OutOfMemory>
    ensures { IfOk result (λ due. due ≡ option_map Create (slice_get (missing_keys world.now) 0)) }
{
    let keys = missing_keys(alloc, own, world)?;
    Ok(create_of(&keys))
}

// Keys are asked for only where no instance has something due.
pub(crate) fn first_due_in(
    alloc: Global,
    own: &OwnRows,
    world: &World,
    making: Making,
) -> Result<Option<DueRef>, OutOfMemory>
    requires { IsThatFar world.now making }
    ensures { IfOk result (λ due. due ≡ first_due_in world.now) }
{
    match due_of_all(alloc, own, world, making)? {
        Some(due) => Ok(Some(due)),
        None => first_create(alloc, own, world),
    }
}

/// The first due callback: that of the first instance that has one due, the whiteboard's before the others, else the Create of the
/// first wanted key without an instance.
///
/// # Errors
/// Only want of memory.
pub fn due_in(alloc: Global, own: &OwnRows, world: &World) -> Result<Option<DueRef>, OutOfMemory>
    ensures { IfOk result (λ due. due ≡ due_in world.now) }
{
    first_due_in(alloc, own, world, Making::none())
}

/// Whether nothing is due.
///
/// # Errors
/// Only want of memory.
pub fn is_idle(alloc: Global, own: &OwnRows, world: &World) -> Result<bool, OutOfMemory>
    ensures { IfOk result (λ idle. idle ≡ is_none (due_in world.now)) }
{
    let due = first_due_in(alloc, own, world, Making::none())?;
    Ok(due.is_none())
}
