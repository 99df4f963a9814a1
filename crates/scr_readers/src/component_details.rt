//! All that is told of a component configuration (OSGi Compendium 8, chapter 112, "ComponentConfigurationDTO").
use crate::ReferenceState;
use component_dto::Description;
use prop_map::{Cardinality, List, Policy, PolicyOption, Properties, Shared, Str};

/// A component configuration, with what its description says.
#[derive(Debug, PartialEq, Eq, Drop)]
pub struct ComponentDetails {
    /// The number of its bundle.
    pub bundle: u64,
    /// Its description.
    pub description: Shared<Description>,
    /// The PID of the factory's configuration that names it, if one does.
    pub factory_configuration: Option<Str>,
    /// Its properties, its name and its number among them.
    pub properties: Properties,
    /// Its state: 1 unsatisfied for want of a configuration, 2 unsatisfied for a reference, 4 satisfied, 8 active, 16 failed.
    pub state: u8,
    /// The number of the instance whose creation or activation failed, where the state is 16.
    pub failure: Option<u64>,
    /// The number of its service, where it is open and provides one.
    pub service: Option<u64>,
    /// Its references in the order of its description, the implicit one on the satisfying condition last.
    pub references: List<ReferenceDetails>,
}

/// A reference of a component configuration (`ReferenceDTO`).
#[derive(Debug, PartialEq, Eq, Drop)]
pub struct ReferenceDetails {
    /// What it can take, and what is bound to it.
    pub state: ReferenceState,
    /// The interface of its services.
    pub interface_name: Str,
    /// How many services it needs and takes.
    pub cardinality: Cardinality,
    /// How many target services it needs at least, as its properties have it.
    pub minimum: u64,
    /// Whether its services may change while an instance lives.
    pub policy: Policy,
    /// Whether a better service takes the place of a bound one.
    pub policy_option: PolicyOption,
}
