//! The services that an instance desires (OSGi Compendium 8, chapter 112, "Target Services", "Reference Policy", "Reference
//! Policy Option", "Bound Service Replacement").
ghost use Rattle.callback_orders.specs.Lives.{held_for};
ghost use Rattle.component_state.specs.Reasons.{choice_at};
ghost use Rattle.component_state.specs.Rows.{rows_of};
ghost use Rattle.component_state.specs.declared.component.Component.{Component};
ghost use Rattle.prop_map.specs.declared.properties.Property.{Property};
ghost use Rattle.prop_map.specs.declared.reference_words.Policy.TheVariants.{Dynamic, Static};
ghost use Rattle.reference_match.specs.Needs.{need_of};
ghost use Rattle.reference_match.specs.Targets.{desired, is_static, meets, targets};
ghost use Rattle.reference_match.specs.declared.need.Need.{Need};
ghost use Rattle.scr_world.specs.Views.{desired_services, desired_unless_ending, properties_in};
ghost use Rattle.scr_world.specs.Whiteboard.{platform_rows};
ghost use Rattle.scr_world.specs.Worlds.{direct_services, registered_services};
ghost use Rattle.scr_world.specs.declared.world.World.{World};
ghost use Rattle.service_registry.specs.Services.{ranked};
ghost use Rattle.std.specs.Option.{option_copied, option_map_or};
ghost use Rattle.std.specs.Prelude.{◌≡◌, ◌≤◌, ◌++◌, ℕ, [], IfOk, OnOk, Some, filter, map};

use crate::components::component_in;
use crate::own_rows::OwnRows;
use crate::services::sorted;
use component_dto::Reference;
use component_state::{Choice, Component, OpenPeriod, choice_at};
use prop_map::{OutOfMemory, Policy, Properties};
use reference_match::{Need, desired, meets, need_of};
use scr_world::{Instance, World};
use service_registry::{Ranked, ServiceRow, numbers_best_first, ranked};
use std::alloc::Global;

pub(crate) fn is_static(policy: Policy) -> bool
    ensures { result ≡ is_static policy }
{
    matches!(policy, Policy::Static)
}

fn add_meeting(found: &mut Vec<Ranked>, need: &Need, rows: &[ServiceRow]) -> Result<(), OutOfMemory>
    ensures { OnOk result (found.new.items ≡ found.old.items ++ map ranked (filter (meets need.now) rows.now)) }
{
    for row in rows {
        if meets(need, row) {
            found.push(ranked(row))?;
        }
    }
    Ok(())
}

fn add_opened(
    found: &mut Vec<Ranked>,
    need: &Need,
    periods: &[OpenPeriod],
) -> Result<(), OutOfMemory>
    ensures { OnOk result (found.new.items ≡ found.old.items ++ map ranked (filter (meets need.now) (rows_of periods.now))) }
{
    for period in periods {
        if period.row.id != 0 && meets(need, &period.row) {
            found.push(ranked(&period.row))?;
        }
    }
    Ok(())
}

fn condition_meeting(alloc: Global, own: &OwnRows, need: &Need) -> Result<Vec<Ranked>, OutOfMemory>
    ensures { IfOk result (λ v. v.items ≡ map ranked (filter (meets need.now) platform_rows)) }
{
    let condition = own.condition();
    let mut found = Vec::new(alloc);
    if meets(need, condition) {
        found.push(ranked(condition))?;
    }
    Ok(found)
}

// What says how good the direct services are that meet a need.
fn direct_meeting(
    alloc: Global,
    own: &OwnRows,
    world: &World,
    need: &Need,
) -> Result<Vec<Ranked>, OutOfMemory>
    ensures { IfOk result (λ v. v.items ≡ map ranked (filter (meets need.now) (direct_services world.now))) }
{
    let mut found = condition_meeting(alloc, own, need)?;
    add_meeting(&mut found, need, world.registry.rows())?;
    Ok(found)
}

/// The registered services that meet a need, best first.
///
/// # Errors
/// Only want of memory.
pub fn targets(
    alloc: Global,
    own: &OwnRows,
    world: &World,
    need: &Need,
) -> Result<Vec<u64>, OutOfMemory>
    ensures { IfOk result (λ v. v.items ≡ targets need.now (registered_services world.now)) }
{
    let mut found = direct_meeting(alloc, own, world, need)?;
    add_opened(&mut found, need, world.open_periods.as_slice())?;
    let numbers = numbers_best_first(alloc, found)?;
    Ok(numbers)
}

// What a reference of a component configuration needs.
fn need_by(
    alloc: Global,
    component: Option<&Component>,
    reference: &Reference,
) -> Result<Need, OutOfMemory>
    ensures { IfOk result (λ need. need ≡ need_of (option_map_or (λ (c : Component). c.properties) (option_copied component.entry) []) reference.now) }
{
    match component {
        Some(component) => need_of(alloc, &component.properties, reference),
        None => need_of(alloc, &Properties::new(alloc), reference),
    }
}

fn need_in(
    alloc: Global,
    own: &OwnRows,
    world: &World,
    instance: &Instance,
    reference: &Reference,
) -> Result<Need, OutOfMemory>
    ensures { IfOk result (λ need. need ≡ need_of (properties_in world.now instance.now) reference.now) }
{
    let components = world.components.as_slice();
    need_by(
        alloc,
        component_in(own, components, instance.origin.get().configuration),
        reference,
    )
}

// What a reference of the whiteboard's instance needs, which is made once.
fn own_need<'a>(own: &'a OwnRows, instance: &Instance, reference: &Reference) -> Option<&'a Need>
    ensures { (world : World) (need : Need) → option_copied result ≡ Some need → need ≡ need_of (properties_in world instance.now) reference.now }
{
    if instance.origin.get().configuration == 0 {
        own.need_of(reference)
    } else {
        None
    }
}

// The services that meet a need, where these are held.
fn desired_by(
    alloc: Global,
    own: &OwnRows,
    world: &World,
    need: &Need,
    held: &[u64],
) -> Result<Vec<u64>, OutOfMemory>
    ensures { IfOk result (λ v. v.items ≡ desired need.now [] held.now (targets need.now (registered_services world.now))) }
{
    let targets = targets(alloc, own, world, need)?;
    desired(alloc, need, &[], held, &targets)
}

// What an instance that isn't ending desires for a dynamic reference, for which it holds these, where what the reference needs
// is made for this alone.
fn desired_anew(
    alloc: Global,
    own: &OwnRows,
    world: &World,
    instance: &Instance,
    held: &[u64],
    place: u64,
    reference: &Reference,
) -> Result<Vec<u64>, OutOfMemory>
    requires policy { reference.now.policy ≡ Dynamic }
    requires held { held.now ≡ held_for reference.now.name instance.now.callbacks }
    ensures { IfOk result (λ v. v.items ≡ desired_services world.now instance.now place reference.now) }
{
    let need = need_in(alloc, own, world, instance, reference)?;
    desired_by(alloc, own, world, &need, held)
}

// The same, where what a reference of the whiteboard needs isn't made again.
fn desired_now(
    alloc: Global,
    own: &OwnRows,
    world: &World,
    instance: &Instance,
    held: &[u64],
    place: u64,
    reference: &Reference,
) -> Result<Vec<u64>, OutOfMemory>
    requires policy { reference.now.policy ≡ Dynamic }
    requires held { held.now ≡ held_for reference.now.name instance.now.callbacks }
    ensures { IfOk result (λ v. v.items ≡ desired_services world.now instance.now place reference.now) }
{
    match own_need(own, instance, reference) {
        Some(need) => desired_by(alloc, own, world, need, held),
        None => desired_anew(alloc, own, world, instance, held, place, reference),
    }
}

/// What was chosen for the reference at a place, where that is static: it is looked for from the first of these choices on.
pub(crate) fn choice_where_static<'a>(
    choices: &'a [Choice],
    place: u64,
    reference: &Reference,
) -> &'a [u64]
    ensures { reference.now.policy ≡ Static → result.now ≡ choice_at choices.now place }
{
    match reference.policy {
        Policy::Static => choice_at(choices, place),
        Policy::Dynamic => &[],
    }
}

/// Choices without the first one, where that is for a reference before a place: what is chosen from that place on stands in the
/// others.
#[tactic(auto, using(crate::proofs::ChosenFrom::behind))]
pub(crate) fn choices_from(choices: &[Choice], place: u64) -> &[Choice]
    ensures { (later : ℕ) → place ≤ later → choice_at result.now later ≡ choice_at choices.now later }
{
    match choices {
        [first, others @ ..] if first.reference < place => others,
        _ => choices,
    }
}

// What an instance that isn't ending desires for the reference at a place: what it holds for it is looked at where it is dynamic
// alone, and what it chose for it where it is static.
fn desired_services(
    alloc: Global,
    own: &OwnRows,
    world: &World,
    instance: &Instance,
    held: &[u64],
    choice: &[u64],
    place: u64,
    reference: &Reference,
) -> Result<Vec<u64>, OutOfMemory>
    requires held { reference.now.policy ≡ Dynamic → held.now ≡ held_for reference.now.name instance.now.callbacks }
    requires choice { reference.now.policy ≡ Static → choice.now ≡ choice_at instance.now.origin.chosen place }
    ensures { IfOk result (λ v. v.items ≡ desired_services world.now instance.now place reference.now) }
{
    match reference.policy {
        Policy::Static => sorted(alloc, own, world, choice),
        Policy::Dynamic => desired_now(alloc, own, world, instance, held, place, reference),
    }
}

/// The services that an instance desires for the reference at a place, best first: none where it is ending.
///
/// # Errors
/// Only want of memory.
pub fn desired_for(
    alloc: Global,
    own: &OwnRows,
    world: &World,
    ending: bool,
    instance: &Instance,
    place: u64,
    reference: &Reference,
) -> Result<Vec<u64>, OutOfMemory>
    ensures { IfOk result (λ v. v.items ≡ desired_unless_ending ending world.now instance.now place reference.now) }
{
    if ending {
        return Ok(Vec::new(alloc));
    }
    let held = instance.callbacks.held(&reference.name);
    let choice = choice_where_static(instance.origin.get().chosen.as_slice(), place, reference);
    desired_services(alloc, own, world, instance, held, choice, place, reference)
}

/// The same, where what it holds for the reference is known, and what it chose for it where that is static.
pub(crate) fn desired_holding(
    alloc: Global,
    own: &OwnRows,
    world: &World,
    ending: bool,
    instance: &Instance,
    held: &[u64],
    choice: &[u64],
    place: u64,
    reference: &Reference,
) -> Result<Vec<u64>, OutOfMemory>
    requires held { held.now ≡ held_for reference.now.name instance.now.callbacks }
    requires choice { reference.now.policy ≡ Static → choice.now ≡ choice_at instance.now.origin.chosen place }
    ensures { IfOk result (λ v. v.items ≡ desired_unless_ending ending world.now instance.now place reference.now) }
{
    if ending {
        Ok(Vec::new(alloc))
    } else {
        desired_services(alloc, own, world, instance, held, choice, place, reference)
    }
}
