//! What a component says of itself (OSGi Compendium 8, chapter 112: `ComponentDescriptionDTO`, `ReferenceDTO`).

use prop_map::{Cardinality, Copies, List, OutOfMemory, Policy, PolicyOption, Properties, Str};
use std::alloc::Global;

/// For whom an instance of a component is made (OSGi Compendium 8, section 112.4 "Component Description", `scope` of
/// `service`).
#[derive(Clone, Copy, Debug, PartialEq, Eq)]
pub enum Scope {
    /// `singleton`: one for all.
    Singleton,
    /// `bundle`: one for each bundle that uses the service.
    Bundle,
    /// `prototype`: one for each use.
    Prototype,
}

/// What a component needs of its configurations (OSGi Compendium 8, section 112.4 "Component Description",
/// `configuration-policy` of `component`).
#[derive(Clone, Copy, Debug, PartialEq, Eq)]
pub enum ConfigurationPolicy {
    /// `optional`: they are taken where they are there.
    Optional,
    /// `require`: one has to be there.
    Require,
    /// `ignore`: none is taken.
    Ignore,
}

/// A component's need of services (`ReferenceDTO`).
#[derive(Debug, PartialEq, Eq, Drop)]
pub struct Reference {
    /// The name, by default that of the interface.
    pub name: Str,
    /// The interface of the services that meet it, not empty.
    pub interface_name: Str,
    /// How many services it needs and takes, by default just one.
    pub cardinality: Cardinality,
    /// Whether its services may change while an instance lives, by default not.
    pub policy: Policy,
    /// Whether a better service takes the place of a bound one, by default not.
    pub policy_option: PolicyOption,
    /// The filter that its services match, if there is one. It is not empty.
    pub target: Option<Str>,
    /// The callback that is told of a bound service's new properties, if there is one.
    pub updated: Option<Str>,
}

impl Copies for Scope {
    fn copy(&self, _: Global) -> Result<Scope, OutOfMemory> {
        Ok(*self)
    }
}

impl Copies for ConfigurationPolicy {
    fn copy(&self, _: Global) -> Result<ConfigurationPolicy, OutOfMemory> {
        Ok(*self)
    }
}

impl Copies for Reference {
    fn copy(&self, alloc: Global) -> Result<Reference, OutOfMemory> {
        Ok(Reference {
            name: self.name.copy(alloc)?,
            interface_name: self.interface_name.copy(alloc)?,
            cardinality: self.cardinality,
            policy: self.policy,
            policy_option: self.policy_option,
            target: self.target.copy(alloc)?,
            updated: self.updated.copy(alloc)?,
        })
    }
}

/// A component as its bundle describes it (`ComponentDescriptionDTO`).
#[derive(Debug, PartialEq, Eq, Drop)]
pub struct Description {
    /// The name, by default that of the class.
    pub name: Str,
    /// For whom an instance is made, by default one for all.
    pub scope: Scope,
    /// The class of its instances, not empty.
    pub implementation_class: Str,
    /// Whether it is enabled when its bundle starts, by default true.
    pub default_enabled: bool,
    /// Whether an instance is made as soon as it is satisfied, by default where it has no service.
    pub immediate: bool,
    /// The interfaces of its service, each once. Without any it has no service.
    pub service_interfaces: List<Str>,
    /// The properties that it gives itself.
    pub properties: Properties,
    /// The services that it needs, in the order of the description, each with a name of its own.
    pub references: List<Reference>,
    /// The callback that is told of new properties of the component, if there is one.
    pub modified: Option<Str>,
    /// What it needs of its configurations, by default nothing.
    pub configuration_policy: ConfigurationPolicy,
    /// The PIDs of its configurations, each once, at most four, by default its name.
    pub configuration_pids: List<Str>,
    /// Whether the satisfying condition is a reference of it that `references` doesn't hold: in what is read, where none
    /// of those is named `osgi.ds.satisfying.condition` (OSGi Compendium 8, chapter 112).
    pub implicit: bool,
}

impl Copies for Description {
    fn copy(&self, alloc: Global) -> Result<Description, OutOfMemory> {
        Ok(Description {
            name: self.name.copy(alloc)?,
            scope: self.scope,
            implementation_class: self.implementation_class.copy(alloc)?,
            default_enabled: self.default_enabled,
            immediate: self.immediate,
            service_interfaces: self.service_interfaces.copy(alloc)?,
            properties: self.properties.copy(alloc)?,
            references: self.references.copy(alloc)?,
            modified: self.modified.copy(alloc)?,
            configuration_policy: self.configuration_policy,
            configuration_pids: self.configuration_pids.copy(alloc)?,
            implicit: self.implicit,
        })
    }
}
