//! What is asked of a core that may change its journal.
ghost use Rattle.scr_core.specs.Turns.{TakesTurn};
ghost use Rattle.scr_world.specs.Calls.{Commands, Drains, EndsTurn, EndsUse, Gets, awaits_drain_at, world_at};
ghost use Rattle.scr_world.specs.Legal.{is_under_way};
ghost use Rattle.std.specs.List.{list_any};
ghost use Rattle.std.specs.Prelude.{◌≡◌, true, IfErr, IfOk, OnErr, OnOk};

use crate::commands::take_command;
use crate::drains::drain;
use crate::turns::{end, take};
use crate::uses::{get, release};
use crate::{Core, Taken, Turn, UseNote};
use callback_orders::Outcome;
use journal_core::GateKey;
use prop_map::OutOfMemory;
use scr_dues::Making;
use scr_world::{Accepted, Command, CoreFault, Ended};
use std::alloc::Global;

impl Core {
    /// Takes a command. One that changes something is one more entry of the journal; any other leaves the journal as
    /// it is.
    ///
    /// # Errors
    /// The first refusal of the command whose condition holds; last comes `JournalFull`, where the journal has no room
    /// for the entry of a command that changes something. `OutOfMemory` comes only for want of memory, and hides none of
    /// these but `NoComponent`, `Cycle`, `ComponentsFull` and what stands behind one of them. A refused command leaves
    /// all as it was.
    pub fn command(&mut self, alloc: Global, command: Command) -> Result<Accepted, CoreFault>
        ensures answer { Commands self.old.limits.journal self.old.journal command result self.new.journal }
        ensures limits { self.new.limits ≡ self.old.limits }
    {
        self.making = Making::none();
        take_command(
            alloc,
            &mut self.journal,
            &mut self.state,
            &mut self.wirings,
            command,
        )
    }

    /// Takes the first due turn, which begins. The turn stands for the work beside it and is to be given to
    /// [`Core::done`] once the work is done.
    ///
    /// # Errors
    /// `JournalFull` exactly where the journal has no room for the turn: for its beginning and its end, at an Activate for the
    /// drain too, beside the entries that are reserved already. Otherwise only want of memory. All is then as it was.
    pub fn take_turn(&mut self, alloc: Global) -> Result<Taken, CoreFault>
        ensures answer { TakesTurn self.old.limits.journal self.old.journal result self.new.journal }
        ensures limits { self.new.limits ≡ self.old.limits }
    {
        take(
            alloc,
            self.limits.journal,
            &self.own,
            &mut self.journal,
            &mut self.state,
            &mut self.lines,
            &mut self.making,
        )
    }

    /// Ends a turn that is under way, with its outcome.
    ///
    /// # Errors
    /// Only want of memory: the turn comes back, and all is as it was.
    pub fn done(
        &mut self,
        alloc: Global,
        turn: Turn,
        outcome: Outcome,
    ) -> Result<Ended, (Turn, OutOfMemory)>
        requires { is_under_way (world_at self.old.journal) turn ≡ true }
        ensures ok { IfOk result (λ ended. EndsTurn self.old.limits.journal self.old.journal turn outcome ended self.new.journal) }
        ensures err { OnErr result (self.new.journal ≡ self.old.journal) }
        ensures back { IfErr result (λ e. e.0 ≡ turn) }
        ensures limits { self.new.limits ≡ self.old.limits }
    {
        let number = turn.number();
        match end(
            alloc,
            self.limits.journal,
            &mut self.journal,
            &mut self.state,
            &mut self.lines,
            &mut self.making,
            number,
            outcome,
        ) {
            Ok(ended) => Ok(ended),
            Err(error) => Err((turn, error)),
        }
    }

    /// Posts the drain of a gate that is shut and whose drain isn't posted yet.
    ///
    /// # Errors
    /// Only want of memory: all is then as it was.
    pub fn drained(&mut self, alloc: Global, key: GateKey) -> Result<(), OutOfMemory>
        requires { list_any (awaits_drain_at (world_at self.old.journal) key) (world_at self.old.journal).instances ≡ true }
        ensures ok { OnOk result (Drains self.old.limits.journal self.old.journal key self.new.journal) }
        ensures err { OnErr result (self.new.journal ≡ self.old.journal) }
        ensures limits { self.new.limits ≡ self.old.limits }
    {
        drain(alloc, &mut self.journal, &mut self.state, key)
    }

    /// Gets a service for a bundle by a token, which is to be given to [`Core::end_use`]. An entry is reserved for that.
    ///
    /// # Errors
    /// Those of the command that gets a service, the first whose condition holds; last `JournalFull`, where the journal has no room
    /// for the get and its release. Otherwise only want of memory. All is then as it was.
    pub fn get_use(
        &mut self,
        alloc: Global,
        bundle: u64,
        service: u64,
    ) -> Result<UseNote, CoreFault>
        ensures answer { Gets self.old.limits.journal self.old.journal bundle service result self.new.journal }
        ensures limits { self.new.limits ≡ self.old.limits }
    {
        get(alloc, &mut self.journal, &mut self.state, bundle, service)
    }

    /// Releases a get by token, and answers whether it stood: it doesn't exactly where its service was unregistered or its bundle
    /// stopped since. Then nothing changes.
    ///
    /// # Errors
    /// Only want of memory: the note comes back, and all is as it was.
    pub fn end_use(&mut self, alloc: Global, note: UseNote) -> Result<bool, (UseNote, OutOfMemory)>
        ensures ok { IfOk result (λ stood. EndsUse self.old.limits.journal self.old.journal note stood self.new.journal) }
        ensures err { OnErr result (self.new.journal ≡ self.old.journal) }
        ensures back { IfErr result (λ e. e.0 ≡ note) }
        ensures limits { self.new.limits ≡ self.old.limits }
    {
        match release(alloc, &mut self.journal, &mut self.state, note.token()) {
            Ok(stood) => Ok(stood),
            Err(error) => Err((note, error)),
        }
    }
}
