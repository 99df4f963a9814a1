//! What decides which callback of an instance is due (OSGi Compendium 8, section 112.5 "Component Life Cycle").

use prop_map::List;

/// An instance that may be wanted: of a component configuration, for a consumer bundle or for all of them.
#[derive(Clone, Copy, Debug, PartialEq, Eq, Drop)]
pub struct Key {
    /// The number of the component configuration.
    pub configuration: u64,
    /// The number of the consumer bundle, 0 where the instance is for all.
    pub consumer: u64,
}

/// How far the life of an instance has come.
#[derive(Clone, Copy, Debug, PartialEq, Eq, Drop)]
pub enum Phase {
    /// Its Create began, and no Activate of it has ended.
    Making,
    /// Its Activate was done, and its Deactivate hasn't ended.
    Active,
    /// It was deactivated, or its activation failed.
    Left,
}

/// A service that an instance desires for a reference.
#[derive(Clone, Copy, Debug, PartialEq, Eq, Drop)]
pub struct Wish {
    /// The number of the service.
    pub service: u64,
    /// It can be bound now: its instance is active, or it is direct.
    pub ready: bool,
}

/// A service that an instance holds for a reference, from the beginning of its Bind to the end of its Unbind.
#[derive(Clone, Copy, Debug, PartialEq, Eq, Drop)]
pub struct HeldService {
    /// The number of the service.
    pub service: u64,
    /// Its properties changed since its Bind or its last Updated began.
    pub changed: bool,
}

/// A reference of an instance.
#[derive(Debug, PartialEq, Eq, Drop)]
pub struct ReferenceView {
    /// The reference names a method to be told of changed properties.
    pub told: bool,
    /// The services that the instance desires, best first.
    pub desired: List<Wish>,
    /// The services that the instance holds, best first by their present or last properties.
    pub held: List<HeldService>,
}

/// What decides which callback of an instance is due.
#[derive(Debug, PartialEq, Eq, Drop)]
pub struct InstanceView {
    /// The number of the instance.
    pub instance: u64,
    /// How far its life has come.
    pub phase: Phase,
    /// It is ending: its open period has closed, its consumer bundle isn't active, or its activation failed.
    pub ending: bool,
    /// A callback of it has begun and not ended.
    pub outstanding: bool,
    /// Its drain is posted: nobody is inside a call of it any more.
    pub drained: bool,
    /// No instance holds it.
    pub unheld: bool,
    /// The properties of its component configuration changed since its Create or its last Modified began.
    pub stale: bool,
    /// Its references, in the order of its description.
    pub references: List<ReferenceView>,
}
