//! The journal within its limit.
ghost use Rattle.journal_core.specs.Rooms.{JournalRows, HasRoom, IsAppendRefused, IsReserveRefused, empty_journal};
ghost use Rattle.std.specs.Option.{option_copied};
ghost use Rattle.std.specs.Prelude.{◌≡◌, ◌+◌, ◌-◌, ◌<◌, ◌≤◌, ◌++◌, ◌∷◌, [], IfErr, None, OnErr, OnOk, Some, length, slice_get};

use crate::{Entry, JournalFault};
use prop_map::OutOfMemory;
use std::alloc::{AllocError, Global};
use std::marker::Model;

/// The entries so far, how many more are reserved, and how many there may be of both together.
#[derive(Drop)]
pub struct Journal<S> {
    entries: Vec<Entry<S>>,
    reserved: u64,
    limit: u64,
}

impl<S> Model for Journal<S> {
    ghost use Rattle.std.specs.Prelude.{◌+◌, ◌≤◌, vec_len};
    ghost use Rattle.journal_core.specs.Rooms.{JournalRows};

    ghost Value = { JournalRows S };

    ghost view = { λ j. record { entries = j.entries.items; reserved = j.reserved; limit = j.limit } };

    ghost invariant = { λ j. vec_len j.entries + j.reserved ≤ j.limit };
}

impl<S> Journal<S> {
    /// A journal without entries, and nothing reserved. It takes no memory.
    pub fn new(alloc: Global, limit: u64) -> Journal<S>
        ensures { result ≡ empty_journal limit }
    {
        Journal {
            entries: Vec::new(alloc),
            reserved: 0,
            limit,
        }
    }

    /// The entries, the oldest first.
    pub fn entries(&self) -> &[Entry<S>]
        ensures { result.now ≡ self.now.entries }
    {
        self.entries.as_slice()
    }

    /// The entry at a place from 0 on, if there is one.
    pub fn at(&self, place: u64) -> Option<&Entry<S>>
        ensures { option_copied result ≡ slice_get self.now.entries place }
    {
        if place < self.entries.len() as u64 {
            return Some(&self.entries[place as usize]);
        }
        None
    }

    /// How many entries there are.
    pub fn length(&self) -> u64
        ensures { result ≡ length self.now.entries }
    {
        self.entries.len() as u64
    }

    /// How many entries more are reserved.
    pub fn reserved(&self) -> u64
        ensures { result ≡ self.now.reserved }
    {
        self.reserved
    }

    /// For how many entries more there is room, beside those that are reserved.
    pub fn room(&self) -> u64
        ensures { length self.now.entries + self.now.reserved + result ≡ self.now.limit }
    {
        self.limit - self.entries.len() as u64 - self.reserved
    }

    /// Adds an entry at the end.
    ///
    /// # Errors
    /// `Full` where it and what is reserved pass the limit. The entry comes back, and the journal is as it was.
    pub fn append(&mut self, entry: Entry<S>) -> Result<(), (Entry<S>, JournalFault)>
        ensures ok { OnOk result (self.new ≡ record self.old { entries = self.old.entries ++ entry ∷ [] }) }
        ensures refused { IsAppendRefused self.old result }
        ensures err { OnErr result (self.new ≡ self.old) }
        ensures back { IfErr result (λ e. e.0 ≡ entry) }
    {
        if self.room() == 0 {
            return Err((entry, JournalFault::Full));
        }
        match self.entries.push(entry) {
            Ok(()) => Ok(()),
            Err(refused) => Err((refused.value, JournalFault::OutOfMemory)),
        }
    }

    /// Reserves room for entries to come. It takes no memory.
    ///
    /// # Errors
    /// `Full` where they pass the limit. The journal is as it was.
    pub fn reserve(&mut self, extra: u64) -> Result<(), JournalFault>
        ensures ok { OnOk result (self.new ≡ record self.old { reserved = self.old.reserved + extra }) }
        ensures refused { IsReserveRefused self.old extra result }
        ensures err { OnErr result (self.new ≡ self.old) }
    {
        if self.room() < extra {
            return Err(JournalFault::Full);
        }
        self.reserved += extra;
        Ok(())
    }

    /// Gives reserved room back. It takes no memory.
    pub fn give_back(&mut self, extra: u64)
        requires { extra ≤ self.old.reserved }
        ensures { self.new ≡ record self.old { reserved = self.old.reserved - extra } }
    {
        self.reserved -= extra;
    }

    /// Adds an entry for which room is reserved: its room is given back first. It is never full.
    ///
    /// # Errors
    /// Only want of memory. The entry comes back, its room is reserved again, and the journal is as it was.
    pub fn append_reserved(&mut self, entry: Entry<S>) -> Result<(), (Entry<S>, OutOfMemory)>
        requires { 0 < self.old.reserved }
        ensures ok { OnOk result (self.new ≡ record self.old { entries = self.old.entries ++ entry ∷ []; reserved = self.old.reserved - 1 }) }
        ensures err { OnErr result (self.new ≡ self.old) }
        ensures back { IfErr result (λ e. e.0 ≡ entry) }
    {
        match self.entries.push(entry) {
            Ok(()) => {
                self.reserved -= 1;
                Ok(())
            }
            Err(refused) => Err((refused.value, AllocError)),
        }
    }

    /// Takes the last entry away again, if there is one. It takes no memory.
    pub fn take_back(&mut self) -> Option<Entry<S>>
        ensures taken { (before : JournalRows S) (entry : Entry S) → self.old ≡ record before { entries = before.entries ++ entry ∷ [] } → (self.new ≡ before) × (result ≡ Some entry) }
        ensures empty { self.old.entries ≡ [] → (self.new ≡ self.old) × (result ≡ None) }
    {
        self.entries.pop()
    }
}
