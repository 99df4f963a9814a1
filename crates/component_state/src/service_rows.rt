//! The services of component configurations (OSGi Compendium 8, chapter 112, "Service Properties"; OSGi Core 8, chapter
//! 5, "Service Properties", "Service Scope").
ghost use Rattle.component_state.specs.Components.{component_of};
ghost use Rattle.component_state.specs.Rows.{no_row, published_by, row_by, row_in, scope_text};
ghost use Rattle.prop_map.specs.Maps.{IsInOrder, put};
ghost use Rattle.service_registry.specs.Services.{is_private, published};
ghost use Rattle.std.specs.Prelude.{◌≡◌, IfOk, OnOk};

use crate::Component;
use crate::components::component_of;
use component_dto::Scope;
use prop_map::{Copies, List, OutOfMemory, Properties, Property};
use service_registry::{Interfaces, ServiceRow, with_service_properties};
use std::alloc::Global;

// The service of the component configuration of a number, as it is under a service's number at a revision. Where there
// is no such component configuration, it offers nothing.
pub(crate) fn row_in(
    alloc: Global,
    components: &[Component],
    configuration: u64,
    service: u64,
    revision: u64,
) -> Result<ServiceRow, OutOfMemory>
    ensures { IfOk result (λ row. row ≡ row_in components.now configuration service revision) }
{
    match component_of(components, configuration) {
        Some(component) => row_by(alloc, component, service, revision),
        None => no_row(alloc, service, revision),
    }
}

fn row_by(
    alloc: Global,
    component: &Component,
    service: u64,
    revision: u64,
) -> Result<ServiceRow, OutOfMemory>
    ensures { IfOk result (λ row. row ≡ row_by component.now service revision) }
{
    Ok(ServiceRow {
        id: service,
        bundle: component.bundle,
        interfaces: interfaces_of(alloc, component)?,
        properties: published_by(alloc, component, service)?,
        revision,
        direct: false,
    })
}

// The interfaces that a component provides.
fn interfaces_of(alloc: Global, component: &Component) -> Result<Interfaces, OutOfMemory>
    ensures { IfOk result (λ interfaces. interfaces ≡ component.now.description.service_interfaces) }
{
    let description = component.description.get();
    Interfaces::of(alloc, description.service_interfaces.copy(alloc)?)
}

fn no_row(alloc: Global, service: u64, revision: u64) -> Result<ServiceRow, OutOfMemory>
    ensures { IfOk result (λ row. row ≡ no_row service revision) }
{
    Ok(ServiceRow {
        id: service,
        bundle: 0,
        interfaces: Interfaces::of(alloc, List::of(Vec::new(alloc)))?,
        properties: Properties::new(alloc),
        revision,
        direct: false,
    })
}

/// What a component configuration publishes under a service's number: its properties but for the private ones, and
/// those that every service has over them.
///
/// # Errors
/// Only want of memory. That a number is none of 64 bits with a sign counts as such.
pub fn published_by(
    alloc: Global,
    component: &Component,
    service: u64,
) -> Result<Properties, OutOfMemory>
    ensures { IfOk result (λ properties. properties ≡ published_by component.now service) }
{
    let given = published(alloc, &component.properties)?;
    let description = component.description.get();
    let interfaces = description.service_interfaces.as_slice();
    let scope = scope_text(description.scope);
    with_service_properties(alloc, service, component.bundle, interfaces, scope, given)
}

// The properties whose names don't begin with a dot.
fn published(alloc: Global, properties: &Properties) -> Result<Properties, OutOfMemory>
    ensures { IfOk result (λ shown. shown ≡ published properties.now) }
{
    without_private(alloc, properties.as_slice())
}

#[tactic(auto, using(crate::proofs::Published::published_kept, crate::proofs::Published::published_left))]
fn without_private(alloc: Global, properties: &[Property]) -> Result<Properties, OutOfMemory>
    requires { IsInOrder properties.now }
    ensures { IfOk result (λ shown. shown ≡ published properties.now) }
{
    let mut shown = Properties::new(alloc);
    for property in properties {
        if !is_private(property) {
            put(alloc, &mut shown, property)?;
        }
    }
    Ok(shown)
}

fn put(alloc: Global, shown: &mut Properties, property: &Property) -> Result<(), OutOfMemory>
    ensures { OnOk result (shown.new ≡ put shown.old property.now.key property.now.value) }
{
    shown.set(alloc, property.key.as_str(), property.value.copy(alloc)?)
}

fn is_private(property: &Property) -> bool
    ensures { result ≡ is_private property.now.key }
{
    match property.key.as_str().as_bytes() {
        [] => false,
        [first, ..] => *first == b'.',
    }
}

fn scope_text(scope: Scope) -> &'static str
    ensures { result.now ≡ scope_text scope }
{
    match scope {
        Scope::Singleton => "singleton",
        Scope::Bundle => "bundle",
        Scope::Prototype => "prototype",
    }
}
