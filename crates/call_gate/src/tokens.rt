//! What callers and the keeper hold: proof of being inside, of having left last, and of a claimed drain.
ghost use Rattle.std.specs.Prelude.{◌≡◌};

use crate::rule::GateView;
use atomic_table::Seat;
use journal_core::GateKey;
use std::marker::Model;

/// A caller that is inside a gate. Only [`CallGate::enter`](crate::CallGate::enter) makes one, and
/// [`CallGate::leave`](crate::CallGate::leave) has to spend it. To a contract it is its key and the gates that it is of;
/// its slot is one of theirs.
pub struct Inside {
    pub(crate) key: GateKey,
    pub(crate) of: Seat<(), GateView>,
}

impl Model for Inside {
    ghost use Rattle.std.specs.Prelude.{◌-◌, ◌<◌};
    ghost use Rattle.call_gate.specs.Holders.{HeldKey};

    ghost Value = { HeldKey };

    ghost view = { λ i. record { gate = i.of.table_id; key = i.key } };

    ghost invariant = { λ i. i.key.slot < i.of.table_id.words - 1 };
}

impl Inside {
    /// The key under which the caller entered.
    pub fn key(&self) -> GateKey
        ensures { result ≡ self.now.key }
    {
        self.key
    }
}

/// Tells that a step left the gate of a key shut, unclaimed and empty. Only the steps of
/// [`CallGate`](crate::CallGate) make one, and [`CallGate::claim`](crate::CallGate::claim) has to spend it. Several may
/// be told of one shutting. To a contract it is the key and the gates that it is of; its slot is one of theirs, and its
/// generation is below 2^38.
pub struct Last {
    pub(crate) key: GateKey,
    pub(crate) of: Seat<(), GateView>,
}

impl Model for Last {
    ghost use Rattle.std.specs.Prelude.{◌-◌, ◌<◌, ◌^◌};
    ghost use Rattle.call_gate.specs.Holders.{HeldKey};

    ghost Value = { HeldKey };

    ghost view = { λ l. record { gate = l.of.table_id; key = l.key } };

    ghost invariant = { λ l. (l.key.generation < 2 ^ 38) × (l.key.slot < l.of.table_id.words - 1) };
}

impl Last {
    /// The key that was left.
    pub fn key(&self) -> GateKey
        ensures { result ≡ self.now.key }
    {
        self.key
    }
}

/// The right to tell that nobody is inside a key any more, and that nobody will be. There is at most one for each
/// shutting. To a contract it is the key and the gates that it is of; its slot is one of theirs. One that is let go is
/// never told; whoever keeps drains says by its clauses which it has.
#[derive(Drop)]
pub struct Drain {
    pub(crate) key: GateKey,
    pub(crate) of: Seat<(), GateView>,
}

impl Model for Drain {
    ghost use Rattle.std.specs.Prelude.{◌-◌, ◌<◌};
    ghost use Rattle.call_gate.specs.Holders.{HeldKey};

    ghost Value = { HeldKey };

    ghost view = { λ d. record { gate = d.of.table_id; key = d.key } };

    ghost invariant = { λ d. d.key.slot < d.of.table_id.words - 1 };
}

impl Drain {
    /// The key that is drained.
    pub fn key(&self) -> GateKey
        ensures { result ≡ self.now.key }
    {
        self.key
    }

    /// Gives the right up for its key, when the drain is told.
    pub fn spend(self) -> GateKey
        ensures { result ≡ self.key }
    {
        let Drain { key, of: _ } = self;
        key
    }
}

/// What [`CallGate::enter`](crate::CallGate::enter) answers.
pub enum Entered {
    /// The caller is inside.
    Inside(Inside),
    /// The gate is shut, or open under another key. The caller has stepped out again.
    Gone {
        /// The generation of the word that the caller found.
        generation: u64,
        /// Whether that word was shut.
        shut: bool,
        /// The key of the gate, where the step out left it shut, unclaimed and empty.
        last: Option<Last>,
    },
}

/// The last generation of a slot, 2^38 - 1, was used.
#[derive(Debug, PartialEq, Eq, Drop)]
pub struct Worn;
