//! What an instance of a component is told (OSGi Compendium 8, section 112.5 "Component Life Cycle").
ghost use Rattle.callback_orders.specs.Grammar.{is_activate, is_create, is_destroy};
ghost use Rattle.std.specs.Prelude.{◌≡◌};

use prop_map::{Copies, OutOfMemory, Str};
use std::alloc::Global;

/// What an instance is told.
#[derive(Debug, PartialEq, Eq, Drop)]
pub enum Callback {
    /// It comes to be.
    Create,
    /// A service is bound for a reference.
    Bind {
        /// The name of the reference.
        reference: Str,
        /// The number of the service.
        service: u64,
    },
    /// The properties of a bound service changed.
    Updated {
        /// The name of the reference.
        reference: Str,
        /// The number of the service.
        service: u64,
    },
    /// A bound service is taken away.
    Unbind {
        /// The name of the reference.
        reference: Str,
        /// The number of the service.
        service: u64,
    },
    /// It begins to be active.
    Activate,
    /// The properties of its component configuration changed.
    Modified,
    /// It is active no more.
    Deactivate,
    /// It ceases.
    Destroy,
}

/// How a callback ended.
#[derive(Clone, Copy, Debug, PartialEq, Eq, Drop)]
pub enum Outcome {
    /// It did its work.
    Done,
    /// The component's code refused it.
    Refused,
    /// The component's code found no memory.
    NoMemory,
}

impl Callback {
    /// Whether it is the first callback of an instance, Create. It takes no memory.
    pub fn is_create(&self) -> bool
        ensures { result ≡ is_create self.now }
    {
        matches!(self, Callback::Create)
    }

    /// Whether it is Activate. It takes no memory.
    pub fn is_activate(&self) -> bool
        ensures { result ≡ is_activate self.now }
    {
        matches!(self, Callback::Activate)
    }

    /// Whether it is the last callback of an instance, Destroy. It takes no memory.
    pub fn is_destroy(&self) -> bool
        ensures { result ≡ is_destroy self.now }
    {
        matches!(self, Callback::Destroy)
    }
}

impl Copies for Callback {
    fn copy(&self, alloc: Global) -> Result<Callback, OutOfMemory> {
        Ok(match self {
            Callback::Create => Callback::Create,
            Callback::Bind { reference, service } => Callback::Bind {
                reference: reference.copy(alloc)?,
                service: *service,
            },
            Callback::Updated { reference, service } => Callback::Updated {
                reference: reference.copy(alloc)?,
                service: *service,
            },
            Callback::Unbind { reference, service } => Callback::Unbind {
                reference: reference.copy(alloc)?,
                service: *service,
            },
            Callback::Activate => Callback::Activate,
            Callback::Modified => Callback::Modified,
            Callback::Deactivate => Callback::Deactivate,
            Callback::Destroy => Callback::Destroy,
        })
    }
}
