//! A core, and beside it what its entries and its turns are told with: who made them, and what is kept for instances.
ghost use Rattle.front_lock.specs.Keepings.{kept_under};
ghost use Rattle.hall_locked.specs.Owned.{without_turn};
ghost use Rattle.hall_locked.specs.OwnedCores.{AppendsOwned, IsOwned, PostsKey, TellsGates, log_owned, turns_owned};
ghost use Rattle.hall_locked.specs.Parts.{ArePartsLeft, has_begun, parts_begun, with_begun};
ghost use Rattle.platform_hall.specs.Platforms.{BeginsTurn, CoreTakes, Ends, running, world};
ghost use Rattle.scr_core.specs.Cores.{AreWithinGreatest};
ghost use Rattle.scr_world.specs.Calls.{awaits_drain_at};
ghost use Rattle.scr_world.specs.Legal.{IsLegal};
ghost use Rattle.scr_world.specs.Steps.{history_of};
ghost use Rattle.scr_world.specs.declared.reply.CoreFault.TheVariants.{OutOfMemory as NoMemory};
ghost use Rattle.std.specs.Arc.{arc_value};
ghost use Rattle.std.specs.List.{find, list_any};
ghost use Rattle.std.specs.Option.{option_copied};
ghost use Rattle.std.specs.Prelude.{◌≡◌, ◌==◌, ℕ, [], IfErr, IfOk, OnErr, OnOk, false, is_some, length, true};
ghost use Rattle.turn_runner.specs.Outcomes.{IsRunOf};

use crate::owners::note_owner;
use crate::part::Part;
use crate::parts::{keep, part_of, tell_site};
use crate::refusals::starved_command;
use crate::room::{let_go, room_in};
use crate::turns::{put_again, take_out};
use call_gate::Drain;
use journal_core::Journal;
use prop_map::OutOfMemory;
use scr_core::{Accepted, Command, Core, CoreFault, Ended, Limits, Step, Taken, Turn};
use std::alloc::{AllocError, Global};
use std::marker::Model;
use turn_runner::Ran;

// The core, the owner of each entry, the turns under way, each with its owner, and what is kept for the instances.
//
// Its journal is legal, and has as many owners as entries. A token is kept for each turn under way and none for any
// other, and a part for each living instance that was made, with the class and the properties that it was told at
// its Create or its last Modified, and for no other.
#[derive(Drop)]
pub(crate) struct OwnedCore<O> {
    pub(crate) core: Core,
    pub(crate) owners: Vec<u64>,
    turns: Vec<(u64, Turn)>,
    parts: Vec<Part<O>>,
}

impl<O> Model for OwnedCore<O> {
    ghost use Rattle.hall_locked.specs.OwnedCores.{IsOwned, OwnedView};
    ghost use Rattle.ldap_filter.specs.TreeCodes.{tree_code};
    ghost use Rattle.std.specs.Coded.{codes};

    ghost Value = { OwnedView O };

    ghost coded = { Prim.hlevel (codes, tree_code) };

    ghost view = { λ l. record { core = l.core; owners = l.owners.items; turns = l.turns.items; parts = l.parts.items } };

    ghost invariant = { λ l. IsOwned (record { core = l.core; owners = l.owners.items; turns = l.turns.items; parts = l.parts.items }) };
}

impl<O> OwnedCore<O> {
    // How many entries there are.
    pub(crate) fn length(&self) -> u64
        ensures { result ≡ length (log_owned self.now) }
    {
        self.core.journal().length()
    }
}

impl<O: Drop> OwnedCore<O> {
    // A core with an empty journal, and nothing beside it. Its only error is want of memory.
    pub(crate) fn new(alloc: Global, limits: Limits) -> Result<OwnedCore<O>, CoreFault>
        requires within { AreWithinGreatest limits }
        ensures ok { IfOk result (λ l. l ≡ record { core = record { limits = limits; journal = [] }; owners = []; turns = []; parts = [] }) }
        ensures err { IfErr result (λ fault. fault ≡ NoMemory) }
    {
        Ok(OwnedCore {
            core: Core::new(alloc, limits)?,
            owners: Vec::new(alloc),
            turns: Vec::new(alloc),
            parts: Vec::new(alloc),
        })
    }

    // The core, to look at: it is legal.
    pub(crate) fn look(&self) -> &Core
        ensures core { result.now ≡ self.now.core }
        ensures legal { IsLegal self.now.core.limits.journal (history_of self.now.core.journal) }
    {
        self.core.note_legal();
        &self.core
    }

    // For contracts alone: what every such value keeps, and how large its limits are at most.
    pub(crate) fn note_kept(&self)
        ensures legal { IsLegal self.now.core.limits.journal (history_of self.now.core.journal) }
        ensures kept { IsOwned self.now }
        ensures within { AreWithinGreatest self.now.core.limits }
    {
        self.core.note_legal();
        self.core.limits();
    }

    // What is kept for an instance: `None` where nothing is.
    pub(crate) fn part(&self, instance: u64) -> Option<&Part<O>>
        ensures { option_copied result ≡ find (λ part. part.instance == instance) self.now.parts }
    {
        part_of(self.parts.as_slice(), instance)
    }

    // Takes a command for this owner, and answers as the core does. Where memory is wanting for the owner of its entry, that hides
    // no refusal but those that the core's own want of memory hides. A refused command leaves all as it was.
    pub(crate) fn command(
        &mut self,
        alloc: Global,
        owner: u64,
        command: Command,
    ) -> Result<Accepted, CoreFault>
        ensures answer { CoreTakes self.old.core command result self.new.core }
        ensures appended { AppendsOwned owner self.old self.new }
        ensures turns { self.new.turns ≡ self.old.turns }
        ensures parts { self.new.parts ≡ self.old.parts }
        ensures refused { OnErr result (self.new ≡ self.old) }
        ensures limits { self.new.core.limits ≡ self.old.core.limits }
    {
        if self.owners.reserve(1).is_err() {
            return Err(starved_command(alloc, &self.core, command));
        }
        self.core.note_legal();
        match self.core.command(alloc, command) {
            Ok(accepted) => {
                note_owner(&self.core, &mut self.owners, owner);
                Ok(accepted)
            }
            Err(fault) => Err(fault),
        }
    }

    // Posts the drain of a gate for this owner: nobody is inside it any more. It is the one place that tells the core so.
    // Where memory is wanting the drain comes back, and all is as it was.
    pub(crate) fn post(
        &mut self,
        alloc: Global,
        owner: u64,
        drain: Drain,
    ) -> Result<(), (Drain, OutOfMemory)>
        requires awaits { list_any (awaits_drain_at (world self.old.core) drain.key) (world self.old.core).instances ≡ true }
        ensures posted { OnOk result (PostsKey self.old.core drain.key self.new.core) }
        ensures appended { AppendsOwned owner self.old self.new }
        ensures turns { self.new.turns ≡ self.old.turns }
        ensures parts { self.new.parts ≡ self.old.parts }
        ensures err { OnErr result (self.new ≡ self.old) }
        ensures back { IfErr result (λ e. e.0 ≡ drain) }
        ensures limits { self.new.core.limits ≡ self.old.core.limits }
    {
        if self.owners.reserve(1).is_err() {
            return Err((drain, AllocError));
        }
        self.core.note_legal();
        match self.core.drained(alloc, drain.key()) {
            Ok(()) => {
                drain.spend();
                note_owner(&self.core, &mut self.owners, owner);
                Ok(())
            }
            Err(error) => Err((drain, error)),
        }
    }

    // Begins the first due turn for this owner, and answers its number: `None` exactly where none is due. Its work
    // is what the core says of the turn. The part of its instance, if there is one, has the site of that work then;
    // the other parts, and the other turns, are as they were. `JournalFull` comes exactly where a turn is due and the
    // journal has no room for it; otherwise only want of memory. All is then as it was.
    pub(crate) fn take(&mut self, alloc: Global, owner: u64) -> Result<Option<u64>, CoreFault>
        ensures answer { BeginsTurn self.old.core result self.new.core }
        ensures appended { AppendsOwned owner self.old self.new }
        ensures turns { self.new.turns ≡ with_begun owner result self.old.turns }
        ensures parts { self.new.parts ≡ parts_begun self.new.core result self.old.parts }
        ensures refused { OnErr result (self.new ≡ self.old) }
        ensures limits { self.new.core.limits ≡ self.old.core.limits }
    {
        if room_in(&mut self.owners, &mut self.turns).is_err() {
            return Err(CoreFault::OutOfMemory);
        }
        self.core.note_legal();
        match self.core.take_turn(alloc) {
            Ok(Taken::Turn(token, work)) => {
                let number = work.number;
                self.turns.push_reserved((owner, token));
                note_owner(&self.core, &mut self.owners, owner);
                tell_site(&mut self.parts, work);
                Ok(Some(number))
            }
            Ok(Taken::Idle) => Ok(None),
            Err(CoreFault::JournalFull) => Err(CoreFault::JournalFull),
            Err(CoreFault::OutOfMemory) => Err(CoreFault::OutOfMemory),
            Err(_) => unreachable!(),
        }
    }

    // Ends a turn that is under way with what it came to, whoever began it, and answers what that does to gates. The
    // entry is this owner's. The object that the turn made is kept, and that of an instance that was destroyed is let go.
    // Where memory is wanting what the turn came to comes back, and all is as it was.
    pub(crate) fn done(
        &mut self,
        alloc: Global,
        owner: u64,
        turn: u64,
        ran: Ran<O>,
    ) -> Result<Ended, (Ran<O>, OutOfMemory)>
        requires run { IsRunOf (running self.old.core turn) ran.outcome (is_some ran.made) }
        ensures ended { OnOk result (Ends self.old.core turn ran.outcome self.new.core) }
        ensures gates { IfOk result (λ ended. TellsGates self.old.core turn ran.outcome ended self.new.core) }
        ensures appended { AppendsOwned owner self.old self.new }
        ensures turns { OnOk result (self.new.turns ≡ without_turn turn self.old.turns) }
        ensures others { (n : ℕ) → has_begun n turn self.old.turns ≡ false → kept_under n (turns_owned self.new) ≡ kept_under n (turns_owned self.old) }
        ensures parts { OnOk result (ArePartsLeft arc_value (running self.old.core turn) ran.made self.old.parts self.new.parts) }
        ensures err { OnErr result (self.new ≡ self.old) }
        ensures back { IfErr result (λ e. e.0 ≡ ran) }
        ensures limits { self.new.core.limits ≡ self.old.core.limits }
    {
        if room_in(&mut self.owners, &mut self.parts).is_err() {
            return Err((ran, AllocError));
        }
        self.core.note_legal();
        let work = match self.core.turn_work(alloc, turn) {
            Ok(Some(work)) => work,
            Ok(None) => unreachable!(),
            Err(error) => return Err((ran, error)),
        };
        let out = take_out(&mut self.turns, turn);
        match self.core.done(alloc, out.turn, ran.outcome) {
            Ok(ended) => {
                note_owner(&self.core, &mut self.owners, owner);
                keep(&mut self.parts, work, ran.made);
                Ok(ended)
            }
            Err((token, error)) => {
                let_go(work);
                put_again(&mut self.turns, out.place, out.owner, token);
                Err((ran, error))
            }
        }
    }

    // The journal, with the owner of each entry. The tokens and the parts are let go. It takes no memory.
    pub(crate) fn into_journal(self) -> (Journal<Step>, Vec<u64>)
        ensures entries { (result.0.entries ≡ self.core.journal) × (result.1.items ≡ self.owners) }
        ensures limit { result.0.limit ≡ self.core.limits.journal }
        ensures many { length result.1.items ≡ length result.0.entries }
        ensures legal { IsLegal self.core.limits.journal (history_of self.core.journal) }
    {
        self.core.note_legal();
        let OwnedCore {
            core,
            owners,
            turns,
            parts,
        } = self;
        let_go(turns);
        let_go(parts);
        (core.into_journal(), owners)
    }
}
