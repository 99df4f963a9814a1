//! The events of bundles, with room for those that are to come for certain.
ghost use Rattle.bundle_life.specs.EventLists.{EventList};
ghost use Rattle.bundle_life.specs.Undoing.{owing};
ghost use Rattle.std.specs.Prelude.{◌≡◌, ◌+◌, ◌-◌, ◌<◌, ◌≤◌, [], ◌∷◌, ◌++◌, drop, length, take, OnOk, OnErr};

use crate::BundleEvent;
use prop_map::OutOfMemory;
use std::alloc::{AllocError, Global};
use std::marker::Model;

/// The events so far. For so many that are owed there is room.
#[derive(Drop)]
pub(crate) struct BundleEvents {
    list: Vec<BundleEvent>,
    owed: usize,
}

impl Model for BundleEvents {
    ghost use Rattle.bundle_life.specs.EventLists.{EventList};
    ghost use Rattle.std.specs.Prelude.{◌+◌, ◌≤◌, vec_len};
    ghost use Rattle.std.specs.Vec.{vec_capacity};

    ghost Value = { EventList };

    ghost view = { λ e. record { events = e.list.items; owed = e.owed } };

    ghost invariant = { λ e. vec_len e.list + e.owed ≤ vec_capacity e.list };
}

impl BundleEvents {
    /// No event, and none owed. It takes no memory.
    pub(crate) fn new(alloc: Global) -> BundleEvents
        ensures { result ≡ record { events = []; owed = 0 } }
    {
        BundleEvents {
            list: Vec::new(alloc),
            owed: 0,
        }
    }

    /// Adds events, and makes room for more that are owed.
    ///
    /// # Errors
    /// Only want of memory.
    pub(crate) fn add(&mut self, events: &[BundleEvent], owing: usize) -> Result<(), OutOfMemory>
        ensures ok { OnOk result (self.new ≡ record { events = self.old.events ++ events.now; owed = self.old.owed + owing }) }
        ensures err { OnErr result (self.new ≡ self.old) }
    {
        let owed = self.owed.checked_add(owing).ok_or(AllocError)?;
        let room = owed.checked_add(events.len()).ok_or(AllocError)?;
        self.list.reserve(room)?;
        self.list.extend_from_slice(events)?;
        self.owed = owed;
        Ok(())
    }

    /// Adds an event that is owed. It takes no memory.
    pub(crate) fn add_owed(&mut self, event: BundleEvent)
        requires { 0 < self.old.owed }
        ensures { self.new ≡ record { events = self.old.events ++ event ∷ []; owed = self.old.owed - 1 } }
    {
        self.owed -= 1;
        self.list.push_reserved(event);
    }

    /// The events behind so many. It takes no memory.
    pub(crate) fn after(&self, position: u64) -> &[BundleEvent]
        ensures { result.now ≡ drop position self.now.events }
    {
        let events = self.list.as_slice();
        if position < events.len() as u64 {
            return &events[position as usize..];
        }
        &events[events.len()..]
    }

    /// How many events there are.
    pub(crate) fn length(&self) -> usize
        ensures { result ≡ length self.now.events }
    {
        self.list.len()
    }

    /// How many are owed.
    pub(crate) fn owed(&self) -> usize
        ensures { result ≡ self.now.owed }
    {
        self.owed
    }

    /// Takes the events behind the first `kept` away, and owes so many. It takes no memory.
    pub(crate) fn cut(&mut self, kept: usize, owed: usize)
        requires { kept + owed ≤ length self.old.events + self.old.owed }
        ensures { self.new ≡ record { events = take kept self.old.events; owed = owed } }
    {
        self.list.truncate(kept);
        self.owed = owed;
    }
    /// Takes the events behind the first `kept` away, where a bundle that owed an event or not owes one or not from now
    /// on. It takes no memory.
    pub(crate) fn take_back(&mut self, kept: usize, owed: bool, owes: bool)
        requires room { kept + owing owes ≤ length self.old.events + owing owed }
        requires owed { owing owed ≤ self.old.owed }
        ensures { self.new ≡ record { events = take kept self.old.events; owed = self.old.owed + owing owes - owing owed } }
    {
        self.list.truncate(kept);
        match (owed, owes) {
            (true, false) => self.owed -= 1,
            (false, true) => self.owed += 1,
            _ => {}
        }
    }
}
