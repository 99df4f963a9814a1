//! What an entry of the journal tells.
use crate::Command;
use callback_orders::{Callback, Outcome};
use component_state::Choice;
use prop_map::List;

/// What an entry of the journal tells.
#[derive(Debug, Drop)]
pub enum Step {
    /// A command that changed something.
    Command(Command),
    /// A turn began: an instance is told of a callback, which is its first one where the callback is Create.
    Begin {
        /// The number of the turn, from 1 on.
        turn: u64,
        /// The number of the instance.
        instance: u64,
        /// The number of its component configuration.
        configuration: u64,
        /// The number of the bundle that it is made for, 0 where it is for all.
        consumer: u64,
        /// What it is told.
        callback: Callback,
        /// At a Create what it chooses for each static reference, else nothing.
        chosen: List<Choice>,
    },
    /// A turn ended.
    End {
        /// The number of the turn.
        turn: u64,
        /// How it ended.
        outcome: Outcome,
    },
    /// The drain of an instance's gate was posted: nobody is inside any more.
    Drained {
        /// The number of the instance.
        instance: u64,
    },
    /// A service was got by a token.
    Got {
        /// The number of the bundle that got it.
        bundle: u64,
        /// The service's number.
        service: u64,
    },
    /// A get by a token was released.
    Released {
        /// The place of the entry of that get, from 0 on.
        place: u64,
    },
}
