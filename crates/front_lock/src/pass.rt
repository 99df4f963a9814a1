//! What a thread holds of the lock while it isn't at it.
ghost use Rattle.std.specs.Prelude.{◌≡◌, length};

use crate::rule::FrontView;
use atomic_table::Badge;
use std::marker::Model;

/// A pass: the right to take turns at a lock whose entries are `E`. To a contract it is what its holder knows: which
/// lock it is of, its number, the passes that were joined into it, the beginning of the history that it has seen, what the
/// value keeps under its number and theirs, how many passes can be split from it, and how often it entered. A pass that is
/// dropped is never joined, so its lock is never closed.
#[derive(Drop)]
pub struct Pass<E> {
    pub(crate) badge: Badge<FrontView<E>>,
    pub(crate) number: u64,
    pub(crate) spare: u64,
    pub(crate) seen: u64,
}

impl<E> Model for Pass<E> {
    ghost use Rattle.std.specs.Prelude.{◌≡◌, [], ◌∷◌, length};
    ghost use Rattle.front_lock.specs.Passes.{PassView, first_of, pass_of, idle_of};

    ghost Value = { PassView E };

    ghost view = { λ p. pass_of p.badge.table_id (first_of p.badge.views) };

    ghost invariant = { λ p. let f = pass_of p.badge.table_id (first_of p.badge.views) in (p.badge.views ≡ idle_of f ∷ []) × (p.number ≡ f.number) × (p.spare ≡ f.spare) × (p.seen ≡ length f.seen) };
}

impl<E> Pass<E> {
    /// Its number, which no other pass of its lock has or had: 0 for the first pass, else the ticket of the turn in which
    /// it was split off.
    pub fn number(&self) -> u64
        ensures { result ≡ self.now.number }
    {
        self.number
    }

    /// How many entries it has seen, from the first on.
    pub fn seen(&self) -> u64
        ensures { result ≡ length self.now.seen }
    {
        self.seen
    }

    /// How many passes can still be split from it, 63 at most.
    pub fn spare(&self) -> u64
        ensures { result ≡ self.now.spare }
    {
        self.spare
    }
}
