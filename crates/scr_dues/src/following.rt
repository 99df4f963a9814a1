//! The instance in the making that is followed from turn to turn: what is known of its references is kept (our own).
ghost use Rattle.scr_dues.specs.Makings.{AreChoicesFrom, AreNumbered, HoldsUpTo, IsKnown, IsThatFar};
ghost use Rattle.scr_world.specs.declared.instance.Instance.{Instance};
ghost use Rattle.std.specs.List.{Contains};
ghost use Rattle.std.specs.Prelude.{◌≡◌, ◌<◌, IfOk, drop};

use crate::begins::instance_among;
use crate::components::references_in;
use crate::due_in_making::{choices_behind, holds_choice, references_behind};
use crate::making::Making;
use crate::own_names::have_own_names;
use crate::own_rows::OwnRows;
use crate::readiness::is_making;
use callback_orders::DueRef;
use component_dto::Reference;
use component_state::Choice;
use prop_map::OutOfMemory;
use scr_world::{Instance, World};
use std::alloc::Global;

// Fewer references than these are gone over at each turn.
const MANY: usize = 16;

// How many choices are for references before a place, of which so many are known.
fn choices_before(choices: &[Choice], known: usize, place: u64) -> usize
    ensures { AreChoicesFrom place (drop known choices.now) (drop result choices.now) }
{
    match choices.get(known) {
        Some(choice) if choice.reference < place => known + 1,
        _ => known,
    }
}

// Goes on over the references that hold what was chosen for them.
fn further(instance: &Instance, references: &[Reference], making: Making) -> Making
    requires { HoldsUpTo instance.now references.now making }
    ensures holds { HoldsUpTo instance.now references.now result }
    ensures same { result.instance ≡ making.instance }
{
    let chosen = instance.origin.get().chosen.as_slice();
    let mut known = making;
    for reference in references_behind(references, making.place) {
        let place = known.place as u64;
        known.choices = choices_before(chosen, known.choices, place);
        let choices = choices_behind(chosen, known.choices);
        if !holds_choice(instance, choices, place, reference) {
            return known;
        }
        known.place += 1;
    }
    known
}

// The same, where what is known may go on only where no other reference has the name of one of these: a Bind is told by name.
fn further_by_name(
    alloc: Global,
    own: &OwnRows,
    world: &World,
    instance: &Instance,
    making: Making,
) -> Result<Making, OutOfMemory>
    requires { IsKnown world.now instance.now making }
    ensures { IfOk result (λ m. (m.instance ≡ making.instance) × IsKnown world.now instance.now m) }
{
    let references = references_in(own, world, instance);
    let known = further(instance, references, making);
    if making.place > 0 {
        return Ok(known);
    }
    if known.place < MANY || !have_own_names(alloc, references)? {
        Ok(making)
    } else {
        Ok(known)
    }
}

/// What is known of the same instance now.
///
/// # Errors
/// Only want of memory.
pub(crate) fn known_now(
    alloc: Global,
    own: &OwnRows,
    world: &World,
    making: Making,
) -> Result<Making, OutOfMemory>
    requires numbered { AreNumbered world.now }
    requires far { IsThatFar world.now making }
    ensures { IfOk result (λ m. IsThatFar world.now m) }
{
    match instance_among(world.instances.as_slice(), making.instance) {
        Some(instance) => further_by_name(alloc, own, world, instance, making),
        None => Ok(making),
    }
}

// How many references an instance has, where it is in the making.
fn references_to_make(own: &OwnRows, world: &World, number: u64) -> usize
    ensures { 0 < result → (i : Instance) × Contains world.now.instances i × (i.number ≡ number) }
{
    match instance_among(world.instances.as_slice(), number) {
        Some(instance) if is_making(instance.callbacks.phase()) => {
            references_in(own, world, instance).len()
        }
        _ => 0,
    }
}

/// Which instance is followed from a due callback on: the one that is to be told of a Bind, if it has more references than the
/// one that was followed so far.
pub(crate) fn followed(own: &OwnRows, world: &World, making: Making, due: Option<DueRef>) -> Making
    requires numbered { AreNumbered world.now }
    requires far { IsThatFar world.now making }
    ensures { IsThatFar world.now result }
{
    let Some(DueRef::Bind { instance, .. }) = due else {
        return making;
    };
    let more = references_to_make(own, world, instance);
    let followed = references_to_make(own, world, making.instance);
    if more <= followed {
        return making;
    }
    Making {
        instance,
        place: 0,
        choices: 0,
    }
}
