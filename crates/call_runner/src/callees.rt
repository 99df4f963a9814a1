//! Whom calls reach, and the objects of those that are reached.
ghost use Rattle.call_moves.specs.Evaluations.{Reaching};
ghost use Rattle.call_runner.specs.Reached.{IsOwnCallee, whom_of};
ghost use Rattle.std.specs.Prelude.{◌≡◌, ℕ, IfOk};

use kind_trait::{NestedReply, Site};
use prop_map::{OutOfMemory, Str};
use std::alloc::Global;
use std::sync::Arc;

/// An instance that is reached.
#[derive(Drop)]
pub struct Party<O> {
    /// Its number.
    pub instance: u64,
    /// What its component code is told.
    pub site: Site,
    /// Its object.
    pub object: Arc<O>,
}

/// Whom a nested call reaches.
#[derive(Drop)]
pub enum Callee<O> {
    /// Nobody: the call has its reply at once.
    Nobody {
        /// The number of the service, 0 where none is held.
        service: u64,
        /// The reply.
        reply: NestedReply,
    },
    /// An instance.
    Instance {
        /// The number of the service.
        service: u64,
        /// The instance.
        party: Party<O>,
    },
}

/// Whom nested calls reach, by a journal that stays as it is while it is borrowed, and the objects of the instances.
pub trait Callees<O> {
    /// The length of the journal.
    ghost journal_length: { Self → ℕ };

    /// Whom a nested call reaches, at each length of the journal.
    ghost reaching: { Self → Reaching };

    /// What it is that an object is an instance's own.
    ghost owns: { Self → ℕ → O → Type 0 };

    /// The length of the journal.
    fn front(&self) -> u64
        ensures { result ≡ journal_length self.now };

    /// Whom a nested call of an instance reaches, by the name of the reference. An instance that is reached comes
    /// with its own object.
    ///
    /// # Errors
    /// Only want of memory.
    fn reach(&self, alloc: Global, instance: u64, reference: &Str) -> Result<Callee<O>, OutOfMemory>
        ensures reached { IfOk result (λ callee.
            whom_of callee ≡ reaching self.now (journal_length self.now) instance reference.now) }
        ensures own { IfOk result (IsOwnCallee (owns self.now)) };
}
