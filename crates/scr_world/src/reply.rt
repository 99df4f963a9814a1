//! What a command answers, and why one is refused.
ghost use Rattle.scr_world.specs.declared.reply.CoreFault.TheVariants.{OutOfMemory};
ghost use Rattle.std.specs.Prelude.{◌≡◌};

use journal_core::GateKey;
use prop_map::{List, Str};
use std::alloc::{AllocError, AllocFailed};
use thiserror::Error;

/// What a command answers.
#[derive(Clone, Copy, Debug, PartialEq, Eq, Drop)]
pub enum Reply {
    /// It is done.
    Done,
    /// The number of the bundle.
    Bundle(u64),
    /// The number of the service.
    Service(u64),
    /// How often the bundle uses the service now.
    Uses(u32),
    /// The number of the listener.
    Listener(u64),
}

/// A command that wasn't refused.
#[derive(Debug, PartialEq, Eq, Drop)]
pub struct Accepted {
    /// What it answers.
    pub reply: Reply,
    /// The gates of the instances that are active and began to end, by instance.
    pub shut: List<GateKey>,
}

/// Why a command or a question is refused. A refused command changes nothing.
#[derive(Debug, Drop, PartialEq, Eq, Error)]
pub enum CoreFault {
    /// There is no bundle of this number. The number 0 counts as that of no bundle.
    #[error("there is no bundle {bundle}")]
    NoBundle {
        /// The number.
        bundle: u64,
    },
    /// There is no component of this name; where a component configuration was asked for by its number, this is the number in decimal.
    #[error("there is no component configuration {name}")]
    NoComponent {
        /// The name.
        name: Str,
    },
    /// The bundle is in a state in which it can't be asked for this.
    #[error("the bundle is in the state {state}")]
    WrongState {
        /// The number of the state.
        state: u32,
    },
    /// The bundle is still stopping.
    #[error("the bundle is still stopping for the instance {instance}")]
    Stopping {
        /// The lowest instance of its components, or made for it, that hasn't ceased.
        instance: u64,
    },
    /// Another bundle has the symbolic name and version of the document.
    #[error("the bundle {bundle} has this name and version")]
    SameName {
        /// The first such bundle.
        bundle: u64,
    },
    /// With this document some description would have no level: it would consume itself over others.
    #[error("a component would consume itself over others")]
    Cycle {
        /// The names of a cycle's descriptions, each of which consumes the next one: it begins at the first description that
        /// lies on a cycle, is a shortest cycle through it, of several the one whose list of places is the least, and names
        /// its first again at its end.
        path: List<Str>,
    },
    /// There are 128 bundles.
    #[error("there are 128 bundles")]
    BundlesFull,
    /// There would be more than 512 component configurations.
    #[error("there would be more than 512 component configurations")]
    ComponentsFull,
    /// There are 1,024 services that commands registered.
    #[error("there are 1,024 services")]
    ServicesFull,
    /// There are 1,024 configurations.
    #[error("there are 1,024 configurations")]
    ConfigurationsFull,
    /// There are 64 listeners.
    #[error("there are 64 listeners")]
    ListenersFull,
    /// There is no such service. The service of the platform itself counts as none.
    #[error("there is no service {service}")]
    NoService {
        /// The number.
        service: u64,
    },
    /// The service is another bundle's.
    #[error("the service is of the bundle {owner}")]
    NotOwner {
        /// The bundle that registered it.
        owner: u64,
    },
    /// The bundle didn't get the service, or released it as often.
    #[error("the bundle doesn't use the service")]
    NotUsing,
    /// There is no such listener.
    #[error("there is no listener {listener}")]
    NoListener {
        /// The number.
        listener: u64,
    },
    /// There is no configuration of this PID.
    #[error("there is no such configuration")]
    NoConfiguration,
    /// A PID or a name isn't one or more of letters, digits, `.`, `_` and `-`.
    #[error("that is no PID")]
    BadPid,
    /// The PID is one of a factory, or the factory's PID has a configuration of its own.
    #[error("a factory and a configuration have one PID")]
    FactoryClash,
    /// The service left when a creation or an activation was refused.
    #[error("the instance {instance} couldn't be activated")]
    ActivationFailed {
        /// The instance.
        instance: u64,
    },
    /// The service left when a creation or an activation found no memory.
    #[error("the instance {instance} found no memory")]
    ActivationNoMemory {
        /// The instance.
        instance: u64,
    },
    /// The journal has no room for what is asked, beside the entries that are reserved.
    #[error("the journal has no room")]
    JournalFull,
    /// There was no memory.
    #[error("out of memory")]
    OutOfMemory,
}

impl From<AllocError> for CoreFault {
    ghost from_gives = { λ _ e. e ≡ OutOfMemory };

    fn from(_: AllocError) -> Self {
        CoreFault::OutOfMemory
    }
}

impl<T: Drop> From<AllocFailed<T>> for CoreFault {
    ghost from_gives = { λ _ e. e ≡ OutOfMemory };

    fn from(_: AllocFailed<T>) -> Self {
        CoreFault::OutOfMemory
    }
}
