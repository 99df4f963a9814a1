//! The table of listeners.
ghost use Rattle.ldap_filter.specs.Trees.{Tree};
ghost use Rattle.service_listeners.specs.Listening.{after_changes, after_listen, after_unlisten, listener_of, ListenerTable, no_listeners, without_listeners_of};
ghost use Rattle.service_listeners.specs.Numbers.{AreNumbered, IsGiven};
ghost use Rattle.service_listeners.specs.Refusals.{IsRefusedBy, listen_refusal, no_listener};
ghost use Rattle.service_listeners.specs.Saves.{HaveGrown, cut_to, gone_back, saved_of};
ghost use Rattle.service_listeners.specs.Undoing.{listeners_of, with_listener, with_listeners, without_change};
ghost use Rattle.service_listeners.specs.declared.listen_fault.ListenFault.TheVariants.{NoListener};
ghost use Rattle.service_listeners.specs.declared.listener.Listener.{Listener};
ghost use Rattle.std.specs.List.{All};
ghost use Rattle.std.specs.Option.{option_copied, option_map_or, option_to_list};
ghost use Rattle.std.specs.Prelude.{◌≡◌, ◌<◌, ◌≤◌, ◌+◌, ◌-◌, ◌↔◌, ℕ, [], ◌∷◌, ◌++◌, drop, length, IfErr, IfOk, IsTrue, MatchOption, None, OnErr, OnOk, Some};

use crate::cutting::{counts_told, cut_rows};
use crate::rows::{
    keep_others, move_those_of, place_of, put_each, put_into, tell_from, untell_from,
};
use crate::{KeptListeners, ListenFault, Listener, Saved, ServiceEvent};
use ldap_filter::Filter;
use prop_map::{List, OutOfMemory};
use row_places::RowRoom;
use service_registry::ServiceRow;
use std::alloc::{AllocError, Global};
use std::marker::Model;

/// The listeners, and what each was told.
#[derive(Drop)]
pub struct Listeners {
    rows: Vec<Listener>,
    numbered: u64,
}

impl Model for Listeners {
    ghost use Rattle.service_listeners.specs.Listening.{ListenerTable};
    ghost use Rattle.service_listeners.specs.Numbers.{AreNumbered};

    ghost Value = { ListenerTable };

    ghost use Rattle.std.specs.Coded.{codes};
    ghost use Rattle.ldap_filter.specs.TreeCodes.{tree_code};

    ghost coded = { Prim.hlevel (codes, tree_code) };

    ghost view = { λ l. record { rows = l.rows.items; numbered = l.numbered } };

    ghost invariant = { λ l. AreNumbered l.numbered l.rows.items };
}

impl Listeners {
    /// A table without listeners.
    pub fn new(alloc: Global) -> Result<Listeners, OutOfMemory>
        ensures { IfOk result (λ listeners. listeners ≡ no_listeners) }
    {
        Ok(Listeners {
            rows: Vec::new(alloc),
            numbered: 0,
        })
    }

    /// The listeners, by number.
    pub fn rows(&self) -> &[Listener]
        ensures { result.now ≡ self.now.rows }
    {
        self.rows.as_slice()
    }

    /// The listener of a number.
    pub fn listener(&self, number: u64) -> Option<&Listener>
        ensures { option_copied result ≡ listener_of self.now.rows number }
    {
        match place_of(self.rows.as_slice(), number) {
            Some(place) => Some(&self.rows[place]),
            None => None,
        }
    }

    /// Whether there are 64 listeners.
    pub fn is_full(&self) -> bool
        ensures { IsTrue result ↔ (64 ≤ length self.now.rows) }
    {
        self.rows.len() >= 64
    }

    /// How many numbers were given so far, also those of listeners that were removed since.
    pub fn numbered(&self) -> u64
        ensures { result ≡ self.now.numbered }
    {
        self.numbered
    }

    /// Adds a listener of a bundle, under the next number. It was told of nothing yet.
    ///
    /// # Errors
    /// `ListenersFull` where there are 64.
    pub fn listen(&mut self, alloc: Global, bundle: u64, filter: Filter) -> Result<u64, ListenFault>
        ensures number { IfOk result (λ number. number ≡ self.old.numbered + 1) }
        ensures ok { OnOk result (self.new ≡ after_listen bundle filter self.old) }
        ensures refused { IsRefusedBy (listen_refusal self.old) result }
        ensures err { OnErr result (self.new ≡ self.old) }
    {
        if self.is_full() {
            return Err(ListenFault::ListenersFull);
        }
        let number = self.numbered.checked_add(1).ok_or(AllocError)?;
        self.rows.reserve(1)?;
        self.rows.push_reserved(Listener {
            number,
            bundle,
            filter,
            events: List::of(Vec::new(alloc)),
        });
        self.numbered = number;
        Ok(number)
    }

    /// Removes a listener. Its number isn't given again. It takes no memory.
    ///
    /// # Errors
    /// `NoListener` where there is none of this number.
    pub fn unlisten(&mut self, listener: u64) -> Result<(), ListenFault>
        ensures ok { OnOk result (self.new ≡ after_unlisten listener self.old) }
        ensures refused { IsRefusedBy (no_listener listener self.old) result }
        ensures fault { IfErr result (λ fault. fault ≡ NoListener listener) }
        ensures err { OnErr result (self.new ≡ self.old) }
    {
        let _row = self.remove(listener)?;
        Ok(())
    }

    /// Removes a listener as `unlisten` does, and hands it out. To `put_back` it undoes that.
    ///
    /// # Errors
    /// As those of `unlisten`.
    pub fn remove(&mut self, listener: u64) -> Result<Listener, ListenFault>
        ensures row { IfOk result (λ row. listener_of self.old.rows listener ≡ Some row) }
        ensures given { IfOk result (λ row. IsGiven self.old.numbered row) }
        ensures number { IfOk result (λ row. row.number ≡ listener) }
        ensures ok { OnOk result (self.new ≡ after_unlisten listener self.old) }
        ensures refused { IsRefusedBy (no_listener listener self.old) result }
        ensures fault { IfErr result (λ fault. fault ≡ NoListener listener) }
        ensures fewer { OnOk result (length self.new.rows < length self.old.rows) }
        ensures err { OnErr result (self.new ≡ self.old) }
    {
        match place_of(self.rows.as_slice(), listener) {
            Some(place) => Ok(self.rows.remove(place)),
            None => Err(ListenFault::NoListener { listener }),
        }
    }

    /// Room for the listeners that stand, to be taken before one is removed that may have to be put back.
    ///
    /// # Errors
    /// Only want of memory.
    pub fn room(&self, alloc: Global) -> Result<RowRoom<Listener>, OutOfMemory>
        ensures { IfOk result (λ room. room ≡ length self.now.rows) }
    {
        RowRoom::of(alloc, self.rows.len())
    }

    /// Puts a listener that was removed back at its place, with what it was told. It takes no memory.
    pub fn put_back(&mut self, listener: Listener, room: RowRoom<Listener>)
        requires given { IsGiven self.old.numbered listener }
        requires room { length self.old.rows < room }
        ensures back { self.new ≡ with_listener listener self.old }
        ensures undone { (before : ListenerTable) → AreNumbered before.numbered before.rows →
            listener_of before.rows listener.number ≡ Some listener →
            self.old ≡ after_unlisten listener.number before → self.new ≡ before }
    {
        put_into(&mut self.rows, listener, room);
    }

    /// Removes the listeners of a bundle. It takes no memory. Where it may have to be undone, `take_listeners_of` does it.
    pub fn remove_listeners_of(&mut self, bundle: u64)
        ensures { self.new ≡ without_listeners_of bundle self.old }
    {
        keep_others(&mut self.rows, bundle);
    }

    /// Removes the listeners of a bundle as `remove_listeners_of` does, and hands them out in the room that was taken for
    /// them. To `put_listeners_back` undoes that. It takes no memory.
    pub fn take_listeners_of(&mut self, bundle: u64, room: RowRoom<Listener>) -> KeptListeners
        requires { length self.old.rows ≤ room }
        ensures listeners { result.listeners ≡ listeners_of bundle self.old }
        ensures room { result.room ≡ room }
        ensures given { All (IsGiven self.new.numbered) result.listeners }
        ensures fits { length self.new.rows + length result.listeners ≤ result.room }
        ensures left { self.new ≡ without_listeners_of bundle self.old }
    {
        let mut rows = room.list();
        move_those_of(&mut self.rows, bundle, &mut rows);
        KeptListeners { rows }
    }

    /// Puts listeners that were removed back: each that stands comes to its place among them. It takes no memory. Where
    /// only they are missing, as behind `take_listeners_of`, the table is as it was before they were removed.
    pub fn put_listeners_back(&mut self, kept: KeptListeners)
        requires given { All (IsGiven self.old.numbered) kept.listeners }
        requires room { length self.old.rows + length kept.listeners ≤ kept.room }
        ensures back { self.new ≡ with_listeners kept.listeners self.old }
        ensures undone { (before : ListenerTable) (bundle : ℕ) → AreNumbered before.numbered before.rows →
            kept.listeners ≡ listeners_of bundle before →
            self.old ≡ without_listeners_of bundle before → self.new ≡ before }
    {
        let KeptListeners { mut rows } = kept;
        put_each(&mut rows, &mut self.rows);
        self.rows = rows;
    }

    /// Tells each listener what happened to a service: it came (no `before`), it left (no `after`), or its properties
    /// were set. A listener is told REGISTERED 1 and UNREGISTERING 4 where its filter matches the properties, MODIFIED 2
    /// where it matches the new ones, and MODIFIED_ENDMATCH 8 where it matches the old ones alone.
    ///
    /// # Errors
    /// Only want of memory. No listener was told then.
    pub fn tell(
        &mut self,
        alloc: Global,
        before: Option<&ServiceRow>,
        after: Option<&ServiceRow>,
    ) -> Result<(), OutOfMemory>
        ensures ok { OnOk result (self.new ≡ after_changes ((option_copied before.entry, option_copied after.entry) ∷ []) self.old) }
        ensures err { OnErr result (self.new ≡ self.old) }
    {
        match tell_from(&mut self.rows, 0, alloc, before, after) {
            Ok(()) => Ok(()),
            Err(fault) => Err(fault),
        }
    }

    /// Takes the last listener that stands back, and the number that was given last: where nothing changed since it came, it
    /// is as if it had never come. It takes no memory.
    pub fn undo_listen(&mut self) -> Option<Listener>
        ensures taken { (before : ListenerTable) (row : Listener) → self.old ≡ record { rows = before.rows ++ row ∷ []; numbered = before.numbered + 1 } → (self.new ≡ before) × (result ≡ Some row) }
        ensures empty { self.old.rows ≡ [] → (self.new ≡ self.old) × (result ≡ None) }
        ensures row { self.old.rows ≡ self.new.rows ++ option_to_list result }
        ensures number { MatchOption result (self.new.numbered ≡ self.old.numbered) (λ _. self.new.numbered ≡ self.old.numbered - 1) }
    {
        let row = self.rows.pop()?;
        self.numbered = self.numbered.saturating_sub(1);
        Some(row)
    }

    /// Takes back what each listener was told last, which was of this change. It takes no memory.
    pub fn undo_tell(
        &mut self,
        alloc: Global,
        before: Option<&ServiceRow>,
        after: Option<&ServiceRow>,
    )
        ensures untold { self.new ≡ without_change (option_copied before.entry, option_copied after.entry) self.old }
        ensures undone { (was : ListenerTable) → self.old ≡ after_changes ((option_copied before.entry, option_copied after.entry) ∷ []) was → self.new ≡ was }
    {
        untell_from(&mut self.rows, 0, alloc, before, after);
    }

    /// The table as it is now, to go back to. It holds how many events each listener was told, and no filter.
    ///
    /// # Errors
    /// Only want of memory.
    pub fn save(&self, alloc: Global) -> Result<Saved, OutOfMemory>
        ensures { IfOk result (λ saved. saved ≡ saved_of self.now) }
    {
        Ok(Saved {
            told: counts_told(alloc, self.rows.as_slice())?,
            numbered: self.numbered,
            alloc,
        })
    }

    /// Leaves the first listeners, as many as were saved, each told no more than it was then, and the numbers that were
    /// given. This is the table that was saved where listeners and events only came since. It takes no memory.
    pub fn go_back(&mut self, saved: Saved)
        requires { AreNumbered saved.numbered (cut_to self.old.rows saved.told) }
        ensures back { self.new ≡ gone_back saved self.old }
        ensures undone { (before : ListenerTable) → saved ≡ saved_of before → HaveGrown before.rows self.old.rows → self.new ≡ before }
    {
        let Saved {
            told,
            numbered,
            alloc,
        } = saved;
        cut_rows(&mut self.rows, told.as_slice(), alloc);
        self.numbered = numbered;
    }

    /// For contracts alone: where listeners and events only came since a save, the table can go back to it.
    #[tactic(auto, using(crate::proofs::CutRows::goes_back))]
    pub fn note_go_back()
        ensures { (before : ListenerTable) → (now : ListenerTable) → AreNumbered before.numbered before.rows → HaveGrown before.rows now.rows
            → AreNumbered (saved_of before).numbered (cut_to now.rows (saved_of before).told) }
    {}

    /// What a listener was told behind the first `position` events; nothing where there are no more. It takes no memory.
    ///
    /// # Errors
    /// `NoListener` where there is none of this number.
    pub fn events_since(
        &self,
        listener: u64,
        position: usize,
    ) -> Result<&[ServiceEvent], ListenFault>
        ensures events { IfOk result (λ events. events.now ≡ drop position (option_map_or (λ (l : Listener). l.events) (listener_of self.now.rows listener) [])) }
        ensures refused { IsRefusedBy (no_listener listener self.now) result }
        ensures fault { IfErr result (λ fault. fault ≡ NoListener listener) }
    {
        match self.listener(listener) {
            Some(row) => Ok(events_behind(row.events.as_slice(), position)),
            None => Err(ListenFault::NoListener { listener }),
        }
    }
}

fn events_behind(events: &[ServiceEvent], position: usize) -> &[ServiceEvent]
    ensures { result.now ≡ drop position events.now }
{
    if position < events.len() {
        return &events[position..];
    }
    &events[events.len()..]
}
