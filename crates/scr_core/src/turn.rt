//! Turns that are taken.

use std::marker::Model;
use turn_work::TurnWork;

/// Stands for a turn that was taken and not ended yet. Contracts see its number. It is made by [`crate::Core::take_turn`] alone.
#[derive(Debug, Drop)]
pub struct Turn {
    number: u64,
}

impl Model for Turn {
    ghost use Rattle.std.specs.Prelude.{ℕ};

    ghost Value = { ℕ };

    ghost view = { λ t. t.number };
}

impl Turn {
    ghost use Rattle.std.specs.Prelude.{◌≡◌};

    pub(crate) fn new(number: u64) -> Turn
        ensures { result ≡ number }
    {
        Turn { number }
    }

    /// The number of the turn.
    pub fn number(&self) -> u64
        ensures { result ≡ self.now }
    {
        self.number
    }
}

/// What taking a turn answers.
#[derive(Drop)]
pub enum Taken {
    /// The first due turn, which has begun.
    Turn(Turn, TurnWork),
    /// Nothing is due.
    Idle,
}
