//! Gets by token (OSGi Core 8, chapter 5, "Getting Services"; tokens are our own).
ghost use Rattle.hall_locked.specs.Locks.{AppendsFor};
ghost use Rattle.hall_locked.specs.Owned.{without_use};
ghost use Rattle.hall_locked.specs.OwnedCores.{AppendsOwned};
ghost use Rattle.hall_locked.specs.Uses.{GetsUse, GivesBack};
ghost use Rattle.std.specs.Prelude.{◌≡◌, ◌++◌, ◌∷◌, [], IfErr, IfOk, OnErr, OnOk};

use crate::locked::Locked;
use crate::owned_core::OwnedCore;
use crate::owners::note_owner;
use crate::refusals::starved_get;
use prop_map::OutOfMemory;
use scr_core::{CoreFault, UseNote};
use std::alloc::{AllocError, Global};

// Lets the get at a place go.
fn let_use_go(uses: &mut Vec<(u64, u64)>, place: u64)
    ensures { uses.new.items ≡ without_use place uses.old.items }
{
    uses.retain(|used| used.1 != place);
}

impl<O: Drop> OwnedCore<O> {
    // Gets a service for a bundle by a token, and answers as the core does: want of memory for the owner of its entry hides no
    // refusal. The entry is this owner's. Where it is refused all is as it was.
    pub(crate) fn get(
        &mut self,
        alloc: Global,
        owner: u64,
        bundle: u64,
        service: u64,
    ) -> Result<UseNote, CoreFault>
        ensures answer { GetsUse self.old.core bundle service result self.new.core }
        ensures appended { AppendsOwned owner self.old self.new }
        ensures turns { self.new.turns ≡ self.old.turns }
        ensures parts { self.new.parts ≡ self.old.parts }
        ensures refused { OnErr result (self.new ≡ self.old) }
        ensures limits { self.new.core.limits ≡ self.old.core.limits }
    {
        if self.owners.reserve(1).is_err() {
            return Err(starved_get(&self.core, bundle, service));
        }
        self.core.note_legal();
        match self.core.get_use(alloc, bundle, service) {
            Ok(note) => {
                note_owner(&self.core, &mut self.owners, owner);
                Ok(note)
            }
            Err(fault) => Err(fault),
        }
    }

    // Releases a get by token, and answers whether it stood still. The entry, if there is one, is this owner's. Where memory is
    // wanting the note comes back, and all is as it was.
    pub(crate) fn release(
        &mut self,
        alloc: Global,
        owner: u64,
        note: UseNote,
    ) -> Result<bool, (UseNote, OutOfMemory)>
        ensures released { IfOk result (λ stood. GivesBack self.old.core note stood self.new.core) }
        ensures appended { AppendsOwned owner self.old self.new }
        ensures turns { self.new.turns ≡ self.old.turns }
        ensures parts { self.new.parts ≡ self.old.parts }
        ensures err { OnErr result (self.new ≡ self.old) }
        ensures back { IfErr result (λ e. e.0 ≡ note) }
        ensures limits { self.new.core.limits ≡ self.old.core.limits }
    {
        if self.owners.reserve(1).is_err() {
            return Err((note, AllocError));
        }
        self.core.note_legal();
        match self.core.end_use(alloc, note) {
            Ok(stood) => {
                note_owner(&self.core, &mut self.owners, owner);
                Ok(stood)
            }
            Err(back) => Err(back),
        }
    }
}

impl<O: Drop> Locked<O> {
    /// Gets a service for a bundle by a token, and answers as the core does. The entry is this owner's, and the get is kept
    /// for it until it is given back; the turns, the parts and the gates are as they were.
    ///
    /// # Errors
    /// Those of [`scr_core::Core::get_use`]. Want of memory for what is kept hides no other. A refused get leaves all as it was.
    pub fn get(
        &mut self,
        alloc: Global,
        owner: u64,
        bundle: u64,
        service: u64,
    ) -> Result<UseNote, CoreFault>
        ensures answer { GetsUse self.old.core bundle service result self.new.core }
        ensures appended { AppendsFor owner self.old self.new }
        ensures turns { self.new.turns ≡ self.old.turns }
        ensures parts { self.new.parts ≡ self.old.parts }
        ensures uses { IfOk result (λ note. self.new.uses ≡ self.old.uses ++ (owner, note.place) ∷ []) }
        ensures keeper { self.new.keeper ≡ self.old.keeper }
        ensures refused { OnErr result (self.new ≡ self.old) }
        ensures limits { self.new.core.limits ≡ self.old.core.limits }
    {
        if self.uses.reserve(1).is_err() {
            return Err(starved_get(self.own.look(), bundle, service));
        }
        self.own.note_kept();
        let _keeper = &self.keeper;
        match self.own.get(alloc, owner, bundle, service) {
            Ok(note) => {
                self.uses.push_reserved((owner, note.place()));
                Ok(note)
            }
            Err(fault) => Err(fault),
        }
    }

    /// Gives a get by token back, and answers whether it stood still: it doesn't exactly where its service was unregistered or
    /// its bundle stopped since. One that stood is released by an entry of this owner; nothing is kept of it in either
    /// case. The turns, the parts and the gates are as they were.
    ///
    /// # Errors
    /// Only want of memory: the note comes back, and all is as it was.
    pub fn release(
        &mut self,
        alloc: Global,
        owner: u64,
        note: UseNote,
    ) -> Result<bool, (UseNote, OutOfMemory)>
        ensures released { IfOk result (λ stood. GivesBack self.old.core note stood self.new.core) }
        ensures appended { AppendsFor owner self.old self.new }
        ensures turns { self.new.turns ≡ self.old.turns }
        ensures parts { self.new.parts ≡ self.old.parts }
        ensures uses { OnOk result (self.new.uses ≡ without_use note.place self.old.uses) }
        ensures keeper { self.new.keeper ≡ self.old.keeper }
        ensures err { OnErr result (self.new ≡ self.old) }
        ensures back { IfErr result (λ e. e.0 ≡ note) }
        ensures limits { self.new.core.limits ≡ self.old.core.limits }
    {
        self.own.note_kept();
        let _keeper = &self.keeper;
        let place = note.place();
        match self.own.release(alloc, owner, note) {
            Ok(stood) => {
                let_use_go(&mut self.uses, place);
                Ok(stood)
            }
            Err(back) => Err(back),
        }
    }
}
