//! The classes of the gateway's components.
ghost use Rattle.std.specs.Prelude.{◌≡◌, option_map};
ghost use Rattle.gateway.specs.Classes.{class_of};
ghost use Rattle.gateway.specs.Refusals.{needed_key};

/// A class of the gateway: what a description's `implementationClass` names.
#[derive(Clone, Copy, Debug, PartialEq, Eq)]
pub(crate) enum Class {
    /// `gateway.Thermometer`, a sensor.
    Thermometer,
    /// `gateway.Hygrometer`, a sensor.
    Hygrometer,
    /// `gateway.Aggregator`, with the references `sensors` and `store`.
    Aggregator,
    /// `gateway.Store`, with a configuration of its own for each store.
    Store,
    /// `gateway.Page`, with the reference `aggregator`.
    Page,
}

impl Class {
    /// The class of this name, if it is one of the gateway's.
    pub(crate) fn of(name: &str) -> Option<Class>
        ensures { result ≡ class_of name.now }
    {
        match name {
            "gateway.Thermometer" => Some(Class::Thermometer),
            "gateway.Hygrometer" => Some(Class::Hygrometer),
            "gateway.Aggregator" => Some(Class::Aggregator),
            "gateway.Store" => Some(Class::Store),
            "gateway.Page" => Some(Class::Page),
            _ => None,
        }
    }

    /// The text property without which it doesn't work.
    pub(crate) fn needed_key(self) -> Option<&'static str>
        ensures { option_map (λ key. key.now) result ≡ needed_key self }
    {
        match self {
            Class::Thermometer | Class::Hygrometer => Some("reading"),
            Class::Store => Some("folder"),
            Class::Aggregator | Class::Page => None,
        }
    }
}
