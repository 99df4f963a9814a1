//! Services that meet no need (OSGi Compendium 8, chapter 112, "Target Services").
ghost use Rattle.component_dto.specs.declared.description.Reference.{Reference};
ghost use Rattle.component_state.specs.Components.{needs_of};
ghost use Rattle.reference_match.specs.Targets.{meets};
ghost use Rattle.reference_match.specs.declared.need.Need.{Need};
ghost use Rattle.scr_unseen.specs.Unseen.{asks_for, is_unmet, meets_none};
ghost use Rattle.service_registry.specs.Registries.{has_number};
ghost use Rattle.service_registry.specs.Services.{has_interface};
ghost use Rattle.std.specs.List.{list_all, list_any};
ghost use Rattle.std.specs.Prelude.{◌≡◌, ◌||◌, IfOk, not};

use component_dto::Reference;
use component_state::{Component, needs_of};
use prop_map::OutOfMemory;
use reference_match::{Need, meets};
use service_registry::{ServiceRow, has_interface};
use std::alloc::Global;

fn references_ask(references: &[Reference], service: &ServiceRow) -> bool
    ensures { result ≡ list_any (λ (r : Reference). has_interface r.interface_name service.now) references.now }
{
    references.iter().any(|reference| has_interface(reference.interface_name.as_str(), service))
}

// Whether a component configuration asks for an interface of a service: where it doesn't, none of its needs is looked at.
fn asks_for(component: &Component, service: &ServiceRow) -> bool
    ensures { result ≡ asks_for component.now service.now }
{
    let description = component.description.get();
    references_ask(description.references.as_slice(), service)
        || (description.implicit && has_interface("org.osgi.service.condition.Condition", service))
}

fn are_unmet(needs: &[Need], service: &ServiceRow) -> bool
    ensures { result ≡ list_all (λ (n : Need). not (meets n service.now)) needs.now }
{
    needs.iter().all(|need| !meets(need, service))
}

// Whether a service meets no need of a component configuration.
fn meets_none_of(
    alloc: Global,
    component: &Component,
    service: &ServiceRow,
) -> Result<bool, OutOfMemory>
    ensures { IfOk result (λ so. so ≡ list_all (λ (n : Need). not (meets n service.now)) (needs_of component.now)) }
{
    if !asks_for(component, service) {
        return Ok(true);
    }
    let needs = needs_of(alloc, component)?;
    Ok(are_unmet(needs.as_slice(), service))
}

// Whether a service meets no need of these component configurations.
fn meets_none(
    alloc: Global,
    components: &[Component],
    service: &ServiceRow,
) -> Result<bool, OutOfMemory>
    ensures { IfOk result (λ so. so ≡ meets_none components.now service.now) }
{
    for component in components {
        if !meets_none_of(alloc, component, service)? {
            return Ok(false);
        }
    }
    Ok(true)
}

// Whether a service has another number, or meets no need of these component configurations.
fn is_other_or_unmet(
    alloc: Global,
    components: &[Component],
    service: u64,
    row: &ServiceRow,
) -> Result<bool, OutOfMemory>
    ensures { IfOk result (λ so. so ≡ (not (has_number service row.now) || meets_none components.now row.now)) }
{
    if row.id != service {
        return Ok(true);
    }
    meets_none(alloc, components, row)
}

/// Whether the service of this number, if it is among these, meets no need of these component configurations.
///
/// # Errors
/// Only want of memory.
pub(crate) fn is_unmet(
    alloc: Global,
    components: &[Component],
    service: u64,
    rows: &[ServiceRow],
) -> Result<bool, OutOfMemory>
    ensures { IfOk result (λ so. so ≡ is_unmet components.now service rows.now) }
{
    for row in rows {
        if !is_other_or_unmet(alloc, components, service, row)? {
            return Ok(false);
        }
    }
    Ok(true)
}
