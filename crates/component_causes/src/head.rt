//! Component configurations with how they stand.

use callback_orders::{Callback, Outcome};
use prop_map::Str;

/// A component configuration, with how it stands.
#[derive(Debug, PartialEq, Eq, Drop)]
pub struct ComponentHead {
    /// Its number.
    pub number: u64,
    /// The name of its description.
    pub name: Str,
    /// Its state (OSGi Compendium 8, chapter 112, `ComponentConfigurationDTO`): 1 unsatisfied for want of a configuration, 2
    /// unsatisfied for a reference, 4 satisfied, 8 active, 16 failed.
    pub state: u8,
    /// Why it isn't active, where its state is 4 or 16; `None` in the others.
    pub standing: Option<Standing>,
}

/// Why a component configuration that is satisfied isn't active.
#[derive(Debug, PartialEq, Eq, Drop)]
pub enum Standing {
    /// The creation or activation of an instance ended without success.
    Failed {
        /// The number of the instance.
        instance: u64,
        /// `Callback::Create` or `Callback::Activate`.
        callback: Callback,
        /// How it ended, not `Outcome::Done`.
        outcome: Outcome,
    },
    /// It isn't open, as an instance of a period that has ended still lives.
    Leaving {
        /// The number of the instance, the lowest of those.
        instance: u64,
    },
    /// An instance of its open period is being told of a callback.
    Turn {
        /// The number of the turn.
        turn: u64,
        /// What the instance is told.
        callback: Callback,
        /// The number of the instance, the lowest of those.
        instance: u64,
    },
    /// It has a wanted key, so an instance is to come or to be told.
    Wanted,
    /// Nobody asks for its service.
    Unasked {
        /// The number of the service.
        service: u64,
    },
}
