//! Component configurations as they were.
ghost use Rattle.std.specs.Prelude.{◌≡◌};

use crate::ComponentStates;
use std::marker::Model;

/// The component configurations of a platform as they were when they were saved.
#[derive(Drop)]
pub struct SavedStates {
    states: ComponentStates,
}

impl Model for SavedStates {
    ghost use Rattle.component_state.specs.ComponentStates.{States};

    ghost Value = { States };

    ghost view = { λ s. s.states };
}

impl SavedStates {
    pub(crate) fn of(states: ComponentStates) -> SavedStates
        ensures { result ≡ states }
    {
        SavedStates { states }
    }

    pub(crate) fn states(self) -> ComponentStates
        ensures { result ≡ self }
    {
        let SavedStates { states } = self;
        states
    }
}
