//! What is told of a component configuration (OSGi Compendium 8, chapter 112, "ComponentConfigurationDTO").
use prop_map::{List, Properties, Str};

/// A component configuration.
#[derive(Debug, PartialEq, Eq, Drop)]
pub struct ComponentView {
    /// The number of its bundle.
    pub bundle: u64,
    /// The name of its description.
    pub name: Str,
    /// Its properties, its name and its number among them.
    pub properties: Properties,
    /// Its state: 1 unsatisfied for want of a configuration, 2 unsatisfied for a reference, 4 satisfied, 8 active, 16 failed.
    pub state: u8,
    /// The number of the instance whose creation or activation failed, where the state is 16.
    pub failure: Option<u64>,
    /// Its references in the order of its description, the implicit one on the satisfying condition last.
    pub references: List<ReferenceState>,
}

/// A reference of a component configuration (`SatisfiedReferenceDTO`, `UnsatisfiedReferenceDTO`).
#[derive(Debug, PartialEq, Eq, Drop)]
pub struct ReferenceState {
    /// Its name.
    pub name: Str,
    /// The text of the target in effect, if there is one.
    pub target: Option<Str>,
    /// It has at least its minimum of targets.
    pub satisfied: bool,
    /// The numbers of the services that it can take, the best first.
    pub targets: List<u64>,
    /// The numbers of the services that the lowest living instance of the present period holds for it, the best first.
    pub bound: List<u64>,
}
