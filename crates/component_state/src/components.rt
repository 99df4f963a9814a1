//! Component configurations by their numbers, and what their policy asks for (OSGi Compendium 8, chapter 112).
ghost use Rattle.component_state.specs.Components.{component_of, existing_of, exists, is_changed_at, lacks_configuration, needs_of, provides_no_service};
ghost use Rattle.std.specs.Option.{option_copied};
ghost use Rattle.std.specs.Prelude.{◌≡◌, IfOk};

use crate::Component;
use component_dto::ConfigurationPolicy;
use prop_map::{List, OutOfMemory};
use reference_match::{Need, needs_with};
use std::alloc::Global;

/// Whether a component configuration of this number is there and hasn't ceased.
pub fn exists(components: &[Component], number: u64) -> bool
    ensures { result ≡ exists components.now number }
{
    components
        .iter()
        .any(|component| component.number == number && component.exists)
}

/// The component configuration of a number, if there is one.
pub fn component_of(components: &[Component], number: u64) -> Option<&Component>
    ensures { option_copied result ≡ component_of components.now number }
{
    components
        .iter()
        .find(|component| component.number == number)
}

/// What the references of a component configuration need, in their order, and the implicit one last where it is there.
///
/// # Errors
/// Only want of memory.
pub fn needs_of(alloc: Global, component: &Component) -> Result<List<Need>, OutOfMemory>
    ensures { IfOk result (λ needs. needs ≡ needs_of component.now) }
{
    let description = component.description.get();
    let references = description.references.as_slice();
    needs_with(
        alloc,
        description.implicit,
        references,
        &component.properties,
    )
}

/// Whether the policy of a component configuration asks for a configuration, and one of its PIDs has none that counts.
/// It takes no memory.
pub fn lacks_configuration(component: &Component) -> bool
    ensures { result ≡ lacks_configuration component.now }
{
    matches!(
        component.description.get().configuration_policy,
        ConfigurationPolicy::Require
    ) && !component.configured
}

// Whether it registers no service.
pub(crate) fn provides_no_service(component: &Component) -> bool
    ensures { result ≡ provides_no_service component.now }
{
    component
        .description
        .get()
        .service_interfaces
        .as_slice()
        .is_empty()
}

// Whether the entry at a place changed its properties.
pub(crate) fn is_changed_at(place: u64, component: &Component) -> bool
    ensures { result ≡ is_changed_at place component.now }
{
    match component.changed {
        Some(changed) => changed == place,
        None => false,
    }
}

/// The component configuration of a number, if there is one that hasn't ceased.
pub fn existing_of(components: &[Component], number: u64) -> Option<&Component>
    ensures { option_copied result ≡ existing_of components.now number }
{
    components
        .iter()
        .find(|component| component.number == number && component.exists)
}
