//! The services that component configurations would provide that aren't open (OSGi Compendium 8, chapter 112, "Service
//! Properties").
ghost use Rattle.component_state.specs.Components.{existing};
ghost use Rattle.component_state.specs.Periods.{is_open};
ghost use Rattle.prop_map.specs.Words.{has};
ghost use Rattle.scr_causes.specs.DirectCauses.{possible_service, possible_services};
ghost use Rattle.component_state.specs.declared.component.Component.{Component};
ghost use Rattle.std.specs.Prelude.{◌≡◌, ℕ, IfOk, filter, map, not};

use crate::open_numbers::OpenNumbers;
use component_state::{Component, published_by};
use prop_map::{Copies, OutOfMemory};
use scr_world::World;
use service_registry::{Interfaces, ServiceRow};
use std::alloc::Global;

/// The service of each component configuration that isn't open, as it would be under the number 0.
///
/// # Errors
/// Only want of memory. That the number of a bundle is none of 64 bits with a sign counts as such.
pub fn possible_services(alloc: Global, world: &World) -> Result<Vec<ServiceRow>, OutOfMemory>
    ensures { IfOk result (λ rows. rows.items ≡ possible_services world.now) }
{
    let opened = OpenNumbers::of(alloc, world.open_periods.as_slice())?;
    services_without(alloc, &opened, world.components.as_slice())
}

fn services_without(
    alloc: Global,
    opened: &OpenNumbers,
    components: &[Component],
) -> Result<Vec<ServiceRow>, OutOfMemory>
    ensures { IfOk result (λ rows. rows.items
        ≡ map possible_service (filter (λ (c : Component). not (is_open opened.now c.number)) (existing components.now))) }
{
    let mut rows = Vec::new(alloc);
    for component in components {
        if component.exists && !opened.has(component.number) {
            rows.push(possible_service(alloc, component)?)?;
        }
    }
    Ok(rows)
}

fn possible_service(alloc: Global, component: &Component) -> Result<ServiceRow, OutOfMemory>
    ensures { IfOk result (λ row. row ≡ possible_service component.now) }
{
    let properties = published_by(alloc, component, 0)?;
    Ok(ServiceRow {
        id: 0,
        bundle: component.bundle,
        interfaces: interfaces_of(alloc, component)?,
        properties,
        revision: 0,
        direct: false,
    })
}

fn interfaces_of(alloc: Global, component: &Component) -> Result<Interfaces, OutOfMemory>
    ensures { IfOk result (λ interfaces. interfaces ≡ component.now.description.service_interfaces) }
{
    let description = component.description.get();
    Interfaces::of(alloc, description.service_interfaces.copy(alloc)?)
}
