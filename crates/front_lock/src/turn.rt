//! What a thread holds while it is at the lock.
ghost use Rattle.std.specs.Prelude.{◌≡◌};

use crate::grows::Grows;
use crate::rule::FrontView;
use atomic_table::Seat;
use std::marker::Model;

/// A pass that takes part in the steps of the lock's table.
pub(crate) type Place<T> = Seat<Option<T>, FrontView<<T as Grows>::Entry>>;

/// The right to give the value back. To a contract it is the pass that has the turn, the ticket under which it is served,
/// the entries that the value had when the turn began, and what it kept then. It isn't `Drop`, so a value can't be lost.
pub struct Turn<T: Grows> {
    pub(crate) seat: Place<T>,
    pub(crate) ticket: u64,
    pub(crate) number: u64,
    pub(crate) spare: u64,
}

impl<T: Grows> Model for Turn<T> {
    ghost use Rattle.std.specs.Prelude.{◌≡◌, ◌+◌, ◌<◌, ◌^◌, [], ◌∷◌, None};
    ghost use Rattle.front_lock.specs.Passes.{TurnView, turn_of, holding_of};

    ghost Value = { TurnView T.Entry };

    ghost view = { λ t. turn_of t.seat.table_id t.seat.me.0 };

    ghost invariant = { λ t. let v = turn_of t.seat.table_id t.seat.me.0 in (t.seat.me ≡ (holding_of t.ticket v, (0, None) ∷ [])) × (t.ticket + 1 < 2 ^ 64) × (t.ticket ≡ v.ticket) × (t.number ≡ v.pass.number) × (t.spare ≡ v.pass.spare) };
}

/// The value, out with a pass.
pub struct Inner<T: Grows> {
    /// The value.
    pub value: T,
    /// The turn that took it out.
    pub turn: Turn<T>,
}

impl<T: Grows> Inner<T> {
    /// The owner of the entries that are appended in this turn: the number of its pass.
    pub fn owner(&self) -> u64
        ensures { result ≡ self.now.turn.pass.number }
    {
        self.turn.number
    }

    /// The ticket under which the pass is served.
    pub fn ticket(&self) -> u64
        ensures { result ≡ self.now.turn.ticket }
    {
        self.turn.ticket
    }
}
