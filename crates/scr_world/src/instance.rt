//! Living instances (OSGi Compendium 8, chapter 112, "Component Life Cycle").
ghost use Rattle.callback_orders.specs.Sequences.{is_failed};
ghost use Rattle.scr_world.specs.Consequences.{gate_of};
ghost use Rattle.scr_world.specs.Instances.{becomes_active, has_failed, has_turn, is_active_instance};
ghost use Rattle.std.specs.Prelude.{◌≡◌};

use crate::last_callbacks::last_is_activate;
use callback_orders::{Outcome, Phase};
use component_state::Origin;
use instance_callbacks::InstanceCallbacks;
use journal_core::GateKey;
use prop_map::{Copies, OutOfMemory, Properties, Shared};
use std::alloc::Global;
use told_revisions::ToldRevisions;

/// A living instance.
#[derive(Drop)]
pub struct Instance {
    /// Its number, from 1 on, in the order in which they are made. The whiteboard's has the number 0.
    pub number: u64,
    /// The number of the bundle that it was made for, 0 where it is for all.
    pub consumer: u64,
    /// The number of its service, 0 where it has none.
    pub service: u64,
    /// The slot of its gate, the lowest that was free at its Create.
    pub slot: u32,
    /// How often the gate of its slot had been opened when it became active, 0 before.
    pub generation: u64,
    /// The drain of its gate is posted.
    pub drained: bool,
    /// The number of the last turn that told it of a callback.
    pub turn: u64,
    /// Its component configuration, its Create and its choices.
    pub origin: Shared<Origin>,
    /// Its callbacks so far.
    pub callbacks: InstanceCallbacks,
    /// The properties that it took when its Create or its last Modified began.
    pub properties: Shared<Properties>,
    /// The place of the entry in which that callback began.
    pub properties_taken_at: u64,
    /// What it was told last of each service that is bound and not being unbound.
    pub told_revisions: ToldRevisions,
}

/// Whether a callback ended other than Done. It takes no memory.
pub fn is_failed(outcome: Option<Outcome>) -> bool
    ensures { result ≡ is_failed outcome }
{
    matches!(outcome, Some(Outcome::Refused | Outcome::NoMemory))
}

impl Instance {
    /// Whether it is active: from the end of a successful Activate to the end of its Deactivate. It takes no memory.
    pub fn is_active(&self) -> bool
        ensures { result ≡ is_active_instance self.now }
    {
        matches!(self.callbacks.phase(), Phase::Active)
    }

    /// Whether its activation ended without success. It takes no memory.
    pub fn has_failed(&self) -> bool
        ensures { result ≡ has_failed self.now.callbacks }
    {
        self.callbacks.has_failed()
    }

    /// Whether a turn is under way and tells it of a callback. It takes no memory.
    pub fn has_turn(&self, turn: u64) -> bool
        ensures { result ≡ has_turn turn self.now }
    {
        self.turn == turn && self.callbacks.is_outstanding()
    }

    /// Whether it becomes active as its turn ends with this outcome: its Activate is done. It takes no memory.
    pub fn becomes_active(&self, outcome: Outcome) -> bool
        ensures { result ≡ becomes_active outcome self.now }
    {
        outcome == Outcome::Done && last_is_activate(&self.callbacks)
    }

    /// Its gate, by the generation under which it was opened. It takes no memory.
    pub fn gate(&self) -> GateKey
        ensures { result ≡ gate_of self.now }
    {
        GateKey {
            slot: self.slot,
            generation: self.generation,
        }
    }
}

impl Copies for Instance {
    fn copy(&self, alloc: Global) -> Result<Instance, OutOfMemory> {
        Ok(Instance {
            number: self.number,
            consumer: self.consumer,
            service: self.service,
            slot: self.slot,
            generation: self.generation,
            drained: self.drained,
            turn: self.turn,
            origin: self.origin.copy(alloc)?,
            callbacks: self.callbacks.copy(alloc)?,
            properties: self.properties.copy(alloc)?,
            properties_taken_at: self.properties_taken_at,
            told_revisions: self.told_revisions.copy(alloc)?,
        })
    }
}
