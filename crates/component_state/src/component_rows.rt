//! The component configurations after a command: who goes on, who ceases, and who is new with which number. Our own.
ghost use Rattle.component_state.specs.ComponentConfigurations.{as_configured, component_after, components_after, is_same_component, new_components, same_pid, with_numbers};
ghost use Rattle.component_state.specs.declared.component.Component.{Component};
ghost use Rattle.std.specs.List.{list_any};
ghost use Rattle.std.specs.Option.{option_copied};
ghost use Rattle.std.specs.Prelude.{◌≡◌, ◌+◌, ◌++◌, ◌∷◌, ◌&&◌, [], IfOk, OnOk, false, find, length, map};

use crate::Component;
use crate::component_configurations::{ComponentView, with_number};
use prop_map::{Copies, List, OutOfMemory, Str};
use std::alloc::{AllocError, Global};

/// The component configurations after the entry at a place, where so many were numbered before it and these are to be
/// in it. One that there was and that is to be goes on under its number, with the properties that it is to have; where
/// these differ from those that it had, the place is noted. One that isn't to be any more ceases. Those that come are
/// numbered on.
///
/// # Errors
/// Only want of memory. That no number is left counts as such.
pub fn components_after(
    alloc: Global,
    place: u64,
    numbered: u64,
    these: &[ComponentView<'_>],
    before: &[&Component],
) -> Result<List<Component>, OutOfMemory>
    ensures { IfOk result (λ components. components ≡ components_after place numbered these.now (map (λ c. c.now) before.now)) }
{
    let mut after = Vec::new(alloc);
    for component in before {
        after.push(component_after(alloc, place, these, component)?)?;
    }
    push_new(alloc, numbered, these, before, &mut after)?;
    Ok(List::of(after))
}

fn component_after(
    alloc: Global,
    place: u64,
    these: &[ComponentView<'_>],
    component: &Component,
) -> Result<Component, OutOfMemory>
    ensures { IfOk result (λ after. after ≡ component_after place these.now component.now) }
{
    if !component.exists {
        return component.copy(alloc);
    }
    match same_among(component, these) {
        Some(configured) => as_configured(alloc, place, component, configured),
        None => ceased(alloc, component),
    }
}

fn same_among<'t, 'd>(
    component: &Component,
    these: &'t [ComponentView<'d>],
) -> Option<&'t ComponentView<'d>>
    ensures { option_copied result ≡ find (is_same_component component.now) these.entry.now }
{
    these.iter().find(|other| is_same(component, other))
}

fn is_same(component: &Component, other: &ComponentView<'_>) -> bool
    ensures { result ≡ is_same_component component.now other.now }
{
    component.bundle == other.bundle()
        && (component.index == other.index() && same_pid(component.pid.as_ref(), other.pid()))
}

fn same_pid(a: Option<&Str>, b: Option<&Str>) -> bool
    ensures { result ≡ same_pid (option_copied a.entry) (option_copied b.entry) }
{
    match (a, b) {
        (None, None) => true,
        (Some(a), Some(b)) => a.as_str() == b.as_str(),
        _ => false,
    }
}

fn ceased(alloc: Global, component: &Component) -> Result<Component, OutOfMemory>
    ensures { IfOk result (λ after. after ≡ record component.now { exists = false }) }
{
    let mut after = component.copy(alloc)?;
    after.exists = false;
    Ok(after)
}

fn as_configured(
    alloc: Global,
    place: u64,
    component: &Component,
    configured: &ComponentView<'_>,
) -> Result<Component, OutOfMemory>
    ensures { IfOk result (λ after. after ≡ as_configured place component.now configured.now) }
{
    let properties = with_number(alloc, component.number, configured.properties())?;
    let changed = if properties == component.properties {
        component.changed
    } else {
        Some(place)
    };
    let pid = component.pid.copy(alloc)?;
    let description = component.description.share()?;
    Ok(Component {
        number: component.number,
        bundle: component.bundle,
        index: component.index,
        pid,
        exists: component.exists,
        description,
        configured: configured.is_configured(),
        properties,
        changed,
    })
}

// Adds those that come.
fn push_new(
    alloc: Global,
    numbered: u64,
    these: &[ComponentView<'_>],
    before: &[&Component],
    after: &mut Vec<Component>,
) -> Result<(), OutOfMemory>
    ensures { OnOk result (after.new.items ≡ after.old.items
        ++ with_numbers (numbered + 1) (new_components (map (λ c. c.now) before.now) these.now)) }
{
    let mut numbered = numbered;
    for component in these {
        numbered = push_if_new(alloc, numbered, component, before, after)?;
    }
    Ok(())
}

// Adds one where it comes, and gives the last number then.
fn push_if_new(
    alloc: Global,
    numbered: u64,
    component: &ComponentView<'_>,
    before: &[&Component],
    after: &mut Vec<Component>,
) -> Result<u64, OutOfMemory>
    ensures number { IfOk result (λ last. last ≡ numbered + length (new_components (map (λ c. c.now) before.now) (component.now ∷ []))) }
    ensures added { OnOk result (after.new.items ≡ after.old.items
        ++ with_numbers (numbered + 1) (new_components (map (λ c. c.now) before.now) (component.now ∷ []))) }
{
    if exists_in(component, before) {
        return Ok(numbered);
    }
    let number = numbered.checked_add(1).ok_or(AllocError)?;
    let new = component.numbered(alloc, number)?;
    after.push(new)?;
    Ok(number)
}

// One of the component configurations that exist is the same.
fn exists_in(component: &ComponentView<'_>, before: &[&Component]) -> bool
    ensures { result ≡ list_any (λ (c : Component). c.exists && is_same_component component.now c) (map (λ c. c.now) before.now) }
{
    is_any(component, before)
}

fn is_any(component: &ComponentView<'_>, before: &[&Component]) -> bool
    ensures { result ≡ list_any (λ c. c.now.exists && is_same_component component.now c.now) before.now }
{
    before
        .iter()
        .any(|other| other.exists && is_same_as(component, other))
}

fn is_same_as(component: &ComponentView<'_>, other: &Component) -> bool
    ensures { result ≡ is_same_component component.now other.now }
{
    component.bundle() == other.bundle
        && (component.index() == other.index && same_pid(component.pid(), other.pid.as_ref()))
}
