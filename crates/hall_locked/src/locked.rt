//! The value under the lock.
ghost use Rattle.front_lock.specs.Keepings.{kept_under};
ghost use Rattle.hall_locked.specs.Locks.{AppendsFor, IsLocked, KnowsGates, PostsOne, turns_kept};
ghost use Rattle.hall_locked.specs.Owned.{without_turn};
ghost use Rattle.hall_locked.specs.Parts.{ArePartsLeft, has_begun, parts_begun, with_begun};
ghost use Rattle.platform_hall.specs.Platforms.{BeginsTurn, CoreTakes, Ends, has_drain, running, world};
ghost use Rattle.scr_core.specs.Cores.{AreWithinGreatest};
ghost use Rattle.scr_world.specs.Legal.{IsLegal};
ghost use Rattle.scr_world.specs.Steps.{history_of};
ghost use Rattle.scr_world.specs.declared.reply.CoreFault.TheVariants.{OutOfMemory as NoMemory};
ghost use Rattle.std.specs.Arc.{arc_value};
ghost use Rattle.std.specs.List.{find};
ghost use Rattle.std.specs.Option.{option_copied};
ghost use Rattle.std.specs.Prelude.{◌≡◌, ◌==◌, ◌&&◌, ℕ, [], Ok, Err, IfErr, IfOk, MatchResult, OnErr, OnOk, false, is_some, length, nat_lt};
ghost use Rattle.turn_runner.specs.Outcomes.{IsRunOf};

use crate::moving::move_gates;
use crate::owed::{Owed, owed_by, owed_since};
use crate::owned_core::OwnedCore;
use crate::part::Part;
use crate::room::let_go;
use call_gate::CallGate;
use front_lock::Grows;
use gate_keeper::Keeper;
use journal_core::{Entry, Journal};
use prop_map::OutOfMemory;
use scr_core::{Accepted, Command, Core, CoreFault, Limits, Step};
use std::alloc::Global;
use std::marker::Model;
use turn_runner::Ran;

// The slots of the gates: no instance has a slot above.
const SLOTS: u32 = 70_000;

/// What lies under the lock of a hall. Contracts see what they see of the core, the owner of each entry, the turns
/// under way, each with its owner, what is kept for the instances, the gets by token that weren't given back, each
/// with its owner, and the keeper of the gates.
///
/// Its journal is legal, and has as many owners as entries. A token is kept for each turn under way and none for any
/// other, and a part for each living instance that was made, with the class and the properties that it was told at
/// its Create or its last Modified, and for no other. What is kept of gets was got by its owner, and nobody has
/// released it. The gate of each slot is as far as the journal has it: open,
/// shut or closed, and a shut one is closed already where its drain is on the shelf. No seat was handed out, so nobody
/// is inside, and the drain of each shut gate is there.
#[derive(Drop)]
pub struct Locked<O> {
    pub(crate) own: OwnedCore<O>,
    pub(crate) gate: CallGate,
    pub(crate) keeper: Keeper,
    pub(crate) uses: Vec<(u64, u64)>,
}

impl<O> Model for Locked<O> {
    ghost use Rattle.hall_locked.specs.Locks.{HasGates, LockedView};
    ghost use Rattle.hall_locked.specs.OwnedCores.{log_owned};
    ghost use Rattle.hall_locked.specs.Uses.{AreKeptGets};
    ghost use Rattle.ldap_filter.specs.TreeCodes.{tree_code};
    ghost use Rattle.platform_hall.specs.Platforms.{world};
    ghost use Rattle.std.specs.Coded.{codes};
    ghost use Rattle.std.specs.Prelude.{◌≡◌};

    ghost Value = { LockedView O };

    ghost coded = { Prim.hlevel (codes, tree_code) };

    ghost view = { λ l. record { core = l.own.core; owners = l.own.owners; turns = l.own.turns; parts = l.own.parts; uses = l.uses.items; keeper = l.keeper } };

    ghost invariant = { λ l. HasGates (world l.own.core) l.keeper × (l.keeper.gate ≡ l.gate) × AreKeptGets (log_owned l.own) l.uses.items };
}

impl<O> Grows for Locked<O> {
    ghost use Rattle.hall_locked.specs.Locks.{limits_code, log_of, things_kept};

    type Entry = Entry<Step>;

    ghost entries = { λ l. log_of l };

    ghost kept = { λ l. things_kept l };

    ghost tie = { λ l. limits_code l.core.limits };

    fn length(&self) -> u64 {
        self.own.length()
    }
}

impl<O: Drop> Locked<O> {
    /// A core with an empty journal, closed gates, and nothing beside them. The limits have to be at most 4,194,304
    /// entries and 1,000,000 turns.
    ///
    /// # Errors
    /// Only want of memory.
    pub fn new(alloc: Global, limits: Limits) -> Result<Locked<O>, CoreFault>
        requires within { AreWithinGreatest limits }
        ensures ok { IfOk result (λ l. (l.core ≡ record { limits = limits; journal = [] }) × (l.owners ≡ []) × (l.turns ≡ []) × (l.parts ≡ []) × (l.uses ≡ [])) }
        ensures shelf { IfOk result (λ l. l.keeper.shelf ≡ []) }
        ensures err { IfErr result (λ fault. fault ≡ NoMemory) }
    {
        let own = OwnedCore::new(alloc, limits)?;
        match Keeper::new(alloc, SLOTS) {
            Ok((gate, keeper)) => {
                let uses = Vec::new(alloc);
                Ok(Locked {
                    own,
                    gate,
                    keeper,
                    uses,
                })
            }
            Err(_) => {
                let_go(own);
                Err(CoreFault::OutOfMemory)
            }
        }
    }

    /// The core, to look at: it is legal.
    pub fn look(&self) -> &Core
        ensures core { result.now ≡ self.now.core }
        ensures legal { IsLegal self.now.core.limits.journal (history_of self.now.core.journal) }
    {
        self.own.look()
    }

    /// For contracts alone: what every such value keeps.
    pub fn note_kept(&self)
        ensures legal { IsLegal self.now.core.limits.journal (history_of self.now.core.journal) }
        ensures kept { IsLocked self.now }
    {
        self.own.note_kept();
        let _gate = &self.gate;
        let _keeper = &self.keeper;
    }

    /// For contracts alone: what the keeper knows of the gates of living instances.
    pub fn note_locked(&self)
        ensures { KnowsGates (world self.now.core) self.now.keeper }
    {
        self.own.note_kept();
        self.keeper.note_orderly();
    }

    /// What is kept for an instance: `None` where nothing is. Its object can be shared with whoever tells it of a
    /// callback outside the lock.
    pub fn part(&self, instance: u64) -> Option<&Part<O>>
        ensures { option_copied result ≡ find (λ part. part.instance == instance) self.now.parts }
    {
        self.own.part(instance)
    }

    /// Takes a command for this owner, and answers as the core does. The entry of a command that changes something is
    /// the owner's, the gates of the instances that begin to end then are shut, and drains may be owed; a command that
    /// changes nothing owes none.
    ///
    /// # Errors
    /// Those of [`scr_core::Core::command`]. Want of memory for the owner of its entry hides none but those that the core's own
    /// hides. A refused command leaves all as it was.
    pub fn command(
        &mut self,
        alloc: Global,
        owner: u64,
        command: Command,
    ) -> Result<(Accepted, Option<Owed>), CoreFault>
        ensures answer { MatchResult result (λ r. CoreTakes self.old.core command (Ok r.0) self.new.core) (λ fault. CoreTakes self.old.core command (Err fault) self.new.core) }
        ensures appended { AppendsFor owner self.old self.new }
        ensures turns { self.new.turns ≡ self.old.turns }
        ensures parts { self.new.parts ≡ self.old.parts }
        ensures uses { self.new.uses ≡ self.old.uses }
        ensures owed { IfOk result (λ r. is_some r.1 ≡ (nat_lt (length self.old.core.journal) (length self.new.core.journal) && has_drain self.new.core)) }
        ensures refused { OnErr result (self.new ≡ self.old) }
        ensures limits { self.new.core.limits ≡ self.old.core.limits }
    {
        self.own.note_kept();
        self.keeper.note_orderly();
        let entries = self.own.look().journal().length();
        match self.own.command(alloc, owner, command) {
            Ok(accepted) => {
                self.keeper.shut_all(&self.gate, accepted.shut.as_slice());
                self.own.note_kept();
                self.keeper.note_orderly();
                let owed = owed_since(self.own.look(), &self.keeper, entries);
                Ok((accepted, owed))
            }
            Err(fault) => Err(fault),
        }
    }

    /// Posts the drain that is first on the shelf, for this owner, and answers what is owed then. Where the shelf is
    /// empty, since another pass posted what was there, all stays as it is.
    ///
    /// # Errors
    /// Only want of memory: what is owed comes back, and all is as it was.
    pub fn post(
        &mut self,
        alloc: Global,
        owner: u64,
        owed: Owed,
    ) -> Result<Option<Owed>, (Owed, OutOfMemory)>
        ensures posted { IfOk result (λ left. PostsOne self.old self.new) }
        ensures appended { AppendsFor owner self.old self.new }
        ensures turns { self.new.turns ≡ self.old.turns }
        ensures parts { self.new.parts ≡ self.old.parts }
        ensures uses { self.new.uses ≡ self.old.uses }
        ensures owed { IfOk result (λ left. is_some left ≡ has_drain self.new.core) }
        ensures err { OnErr result (self.new ≡ self.old) }
        ensures limits { self.new.core.limits ≡ self.old.core.limits }
    {
        self.own.note_kept();
        self.keeper.note_orderly();
        let Some(drain) = self.keeper.take_drain() else {
            owed.spend();
            return Ok(None);
        };
        match self.own.post(alloc, owner, drain) {
            Ok(()) => {
                owed.spend();
                self.own.note_kept();
                self.keeper.note_orderly();
                Ok(owed_by(&self.keeper))
            }
            Err((drain, error)) => {
                self.keeper.put_back(drain);
                Err((owed, error))
            }
        }
    }

    /// Begins the first due turn for this owner, and answers its number: `None` exactly where none is due. Its work
    /// is what the core says of the turn. The part of its instance, if there is one, has the site of that work then;
    /// the other parts, the other turns, the gets and the gates are as they were.
    ///
    /// # Errors
    /// `JournalFull` exactly where a turn is due and the journal has no room for it; otherwise only want of memory.
    /// All is then as it was.
    pub fn take(&mut self, alloc: Global, owner: u64) -> Result<Option<u64>, CoreFault>
        ensures answer { BeginsTurn self.old.core result self.new.core }
        ensures appended { AppendsFor owner self.old self.new }
        ensures turns { self.new.turns ≡ with_begun owner result self.old.turns }
        ensures parts { self.new.parts ≡ parts_begun self.new.core result self.old.parts }
        ensures uses { self.new.uses ≡ self.old.uses }
        ensures keeper { self.new.keeper ≡ self.old.keeper }
        ensures refused { OnErr result (self.new ≡ self.old) }
        ensures limits { self.new.core.limits ≡ self.old.core.limits }
    {
        self.own.note_kept();
        let _keeper = &self.keeper;
        self.own.take(alloc, owner)
    }

    /// Ends a turn that is under way with what it came to, whoever began it, and answers what is owed then. The entry
    /// is this owner's. The object that the turn made is kept, and that of an instance that was destroyed is let go. The
    /// gate of an instance whose Activate is done is opened, and then those of the instances that begin to end are shut.
    ///
    /// # Errors
    /// Only want of memory: what the turn came to comes back, and all is as it was.
    pub fn done(
        &mut self,
        alloc: Global,
        owner: u64,
        turn: u64,
        ran: Ran<O>,
    ) -> Result<Option<Owed>, (Ran<O>, OutOfMemory)>
        requires run { IsRunOf (running self.old.core turn) ran.outcome (is_some ran.made) }
        ensures ended { OnOk result (Ends self.old.core turn ran.outcome self.new.core) }
        ensures appended { AppendsFor owner self.old self.new }
        ensures turns { OnOk result (self.new.turns ≡ without_turn turn self.old.turns) }
        ensures others { (n : ℕ) → has_begun n turn self.old.turns ≡ false → kept_under n (turns_kept self.new) ≡ kept_under n (turns_kept self.old) }
        ensures parts { OnOk result (ArePartsLeft arc_value (running self.old.core turn) ran.made self.old.parts self.new.parts) }
        ensures uses { self.new.uses ≡ self.old.uses }
        ensures owed { IfOk result (λ left. is_some left ≡ has_drain self.new.core) }
        ensures err { OnErr result (self.new ≡ self.old) }
        ensures back { IfErr result (λ e. e.0 ≡ ran) }
        ensures limits { self.new.core.limits ≡ self.old.core.limits }
    {
        self.own.note_kept();
        self.keeper.note_orderly();
        match self.own.done(alloc, owner, turn, ran) {
            Ok(ended) => {
                move_gates(
                    &mut self.keeper,
                    &self.gate,
                    ended.reopened,
                    ended.shut.as_slice(),
                );
                let_go(ended);
                self.own.note_kept();
                self.keeper.note_orderly();
                Ok(owed_by(&self.keeper))
            }
            Err(back) => Err(back),
        }
    }

    /// The journal, with the owner of each entry. All else is let go. It takes no memory.
    pub fn into_journal(self) -> (Journal<Step>, Vec<u64>)
        ensures entries { (result.0.entries ≡ self.core.journal) × (result.1.items ≡ self.owners) }
        ensures limit { result.0.limit ≡ self.core.limits.journal }
        ensures many { length result.1.items ≡ length result.0.entries }
        ensures legal { IsLegal self.core.limits.journal (history_of self.core.journal) }
    {
        let Locked {
            own,
            gate,
            keeper,
            uses,
        } = self;
        let_go(gate);
        let_go(keeper);
        let_go(uses);
        own.into_journal()
    }
}
