//! The desk of a platform: turns come from its core and go back to it.
ghost use Rattle.platform_hall.specs.Desks.{DeskBegins, DeskEnds, DeskKeeps, DeskPosts, HandsOut, Owns, kept_of};
ghost use Rattle.platform_hall.specs.Platforms.{CoreTakes, has_drain, has_due, has_object, has_room, running, world};
ghost use Rattle.scr_world.specs.declared.reply.CoreFault.TheVariants.{OutOfMemory as NoMemory};
ghost use Rattle.scr_requests.specs.Cores.{AreWithinGreatest};
ghost use Rattle.scr_world.specs.Legal.{IsLegal};
ghost use Rattle.scr_world.specs.Steps.{history_of};
ghost use Rattle.std.specs.Arc.{arc_value};
ghost use Rattle.std.specs.Prelude.{◌≡◌, ◌⊎◌, ℕ, [], Some, None, false, true, is_some, IfOk, IfErr, OnErr, OnOk};
ghost use Rattle.turn_runner.specs.declared.came.Came.{Came};
ghost use Rattle.turn_runner.specs.Outcomes.{IsMadeFor, has_object_after, is_destroy_of, makes_object, needs_object};

use crate::drains::post_drains;
use crate::endings::try_end;
use crate::heard::note_heard;
use crate::held::Held;
use crate::kept::{forget, found_kept};
use crate::tokens::{keep, shared_object};
use callback_orders::Outcome;
use prop_map::OutOfMemory;
use scr_requests::{Core, Taken, Turn};
use scr_world::{Accepted, Command, CoreFault, Limits};
use std::alloc::{AllocError, Global};
use std::marker::Model;
use std::sync::Arc;
use turn_runner::{Came, Desk, DeskFault, Ran, TurnWork};

/// A desk over the core. Contracts see what they see of the core, the objects, the turns of which these heard, what turns came to
/// that couldn't be put back, and whether there is room for one more.
#[derive(Drop)]
pub(crate) struct CoreDesk<O> {
    pub(crate) core: Core,
    pub(crate) turns: Vec<Turn>,
    pub(crate) held: Vec<Held<O>>,
    pub(crate) told: Vec<u64>,
    pub(crate) kept: Vec<Came<O>>,
}

impl<O> Model for CoreDesk<O> {
    ghost use Rattle.platform_hall.specs.Desks.{AreFit, DeskView, IsDesk};
    ghost use Rattle.std.specs.Prelude.{nat_lt, vec_capacity, vec_len};
    ghost use Rattle.std.specs.Coded.{codes};
    ghost use Rattle.ldap_filter.specs.TreeCodes.{tree_code};

    ghost Value = { DeskView O };

    ghost coded = { Prim.hlevel (codes, tree_code) };

    ghost view = { λ d. record { core = d.core; held = d.held.items; told = d.told.items; kept = d.kept.items; ready = nat_lt (vec_len d.kept) (vec_capacity d.kept) } };

    ghost invariant = { λ d. IsDesk d.core d.turns.items d.held.items × AreFit d.core d.kept.items };
}

impl<O: Drop> CoreDesk<O> {
    pub(crate) fn new(alloc: Global, limits: Limits) -> Result<CoreDesk<O>, CoreFault>
        requires within { AreWithinGreatest limits }
        ensures core { IfOk result (λ desk. desk.core ≡ record { limits = limits; journal = [] }) }
        ensures empty { IfOk result (λ desk. (desk.held ≡ []) × (desk.told ≡ [])) }
        ensures kept { IfOk result (λ desk. desk.kept ≡ []) }
        ensures err { IfErr result (λ fault. fault ≡ NoMemory) }
    {
        Ok(CoreDesk {
            core: Core::new(alloc, limits)?,
            turns: Vec::new(alloc),
            held: Vec::new(alloc),
            told: Vec::new(alloc),
            kept: Vec::new(alloc),
        })
    }

    // The core, whose journal is legal.
    pub(crate) fn core(&self) -> &Core
        ensures core { result.now ≡ self.now.core }
        ensures legal { IsLegal self.now.core.limits.journal (history_of self.now.core.journal) }
    {
        self.core.note_legal();
        &self.core
    }

    // Takes a command.
    pub(crate) fn command(&mut self, alloc: Global, command: Command) -> Result<Accepted, CoreFault>
        ensures takes { CoreTakes self.old.core command result self.new.core }
        ensures kept { self.new.kept ≡ self.old.kept }
    {
        self.core.note_legal();
        let answer = self.core.command(alloc, command);
        self.core.note_legal();
        answer
    }

    // The work of a turn that is under way, for whose instance an object is there where the turn needs one.
    pub(crate) fn work(&self, alloc: Global, turn: u64) -> Result<Option<TurnWork>, OutOfMemory>
        ensures work { IfOk result (λ work. work ≡ running self.now.core turn) }
        ensures number { (work : _) → running self.now.core turn ≡ Some work → work.number ≡ turn }
        ensures fits { (work : _) → running self.now.core turn ≡ Some work → has_object self.now.core work.instance ≡ needs_object work }
    {
        self.core.note_legal();
        self.core.turn_work(alloc, turn)
    }
}

impl<O: Drop> Desk<O> for CoreDesk<O> {
    ghost has_due = { λ desk. has_due desk.core };

    ghost has_room = { λ desk. has_room desk.core };

    ghost has_drain = { λ desk. has_drain desk.core };

    ghost running = { λ desk. running desk.core };

    ghost has_object = { λ desk. has_object desk.core };

    ghost owns = { Owns };

    ghost kept = { λ desk. kept_of desk.kept };

    ghost ready = { λ desk. desk.ready };

    ghost begins = { DeskBegins };

    ghost hands = { HandsOut };

    ghost ends = { DeskEnds };

    ghost keeps = { DeskKeeps };

    ghost posts = { DeskPosts };

    fn take(&mut self, alloc: Global) -> Result<Option<TurnWork>, DeskFault> {
        self.turns.reserve(1)?;
        self.core.note_legal();
        match self.core.take_turn(alloc) {
            Ok(Taken::Turn(token, work)) => {
                self.turns.push_reserved(token);
                Ok(Some(work))
            }
            Ok(Taken::Idle) => Ok(None),
            Err(CoreFault::JournalFull) => Err(DeskFault::JournalFull),
            Err(CoreFault::OutOfMemory) => Err(DeskFault::OutOfMemory),
            Err(_) => unreachable!(),
        }
    }

    fn due(&self, alloc: Global) -> Result<bool, OutOfMemory> {
        self.core.due(alloc)
    }

    fn hand_out(&mut self, _alloc: Global, work: &TurnWork) -> Result<Option<Arc<O>>, OutOfMemory> {
        self.told.reserve(1)?;
        let object = shared_object(self.held.as_slice(), work.instance)?;
        self.kept.reserve(1)?;
        note_heard(&mut self.told, work);
        Ok(object)
    }

    fn put_back(&mut self, alloc: Global, work: TurnWork, ran: Ran<O>) -> Result<(), OutOfMemory>
        requires running { running self.old.core work.number ≡ Some work }
        requires made { is_some ran.made ≡ makes_object work ran.outcome }
        requires ready { self.old.ready ≡ true }
        ensures ok { OnOk result (DeskEnds self.old work.number ran.outcome self.new) }
        ensures ended { OnOk result (running self.new.core work.number ≡ None) }
        ensures objects { OnOk result ((instance : ℕ) → is_destroy_of (Some work) instance ≡ false → has_object self.new.core instance ≡ has_object_after (Some work) (is_some ran.made) (has_object self.old.core) instance) }
        ensures own { OnOk result ((instance : ℕ) (object : O) → Owns self.new instance object → Owns self.old instance object ⊎ IsMadeFor arc_value (Some work) ran.made instance object) }
        ensures err { OnErr result (DeskKeeps self.old (record { work = work; ran = ran }) self.new) }
    {
        self.core.note_legal();
        let ended = try_end(
            alloc,
            &mut self.core,
            &mut self.turns,
            &mut self.held,
            work.number,
            ran.outcome,
        );
        if ended.is_err() {
            self.kept.push_reserved(Came { work, ran });
            return Err(AllocError);
        }
        forget(&mut self.kept, work.number);
        let is_destroyed = work.callback.is_destroy();
        keep(&mut self.held, work.instance, ran.made, is_destroyed);
        Ok(())
    }

    fn put_back_kept(
        &mut self,
        alloc: Global,
        work: &TurnWork,
    ) -> Result<Option<Outcome>, OutOfMemory> {
        self.core.note_legal();
        let Some(ran) = found_kept(self.kept.as_slice(), work.number)? else {
            return Ok(None);
        };
        let outcome = ran.outcome;
        try_end(
            alloc,
            &mut self.core,
            &mut self.turns,
            &mut self.held,
            work.number,
            outcome,
        )?;
        forget(&mut self.kept, work.number);
        let is_destroyed = work.callback.is_destroy();
        keep(&mut self.held, work.instance, ran.made, is_destroyed);
        Ok(Some(outcome))
    }

    fn post(&mut self, alloc: Global) -> Result<(), OutOfMemory> {
        self.core.note_legal();
        post_drains(alloc, &mut self.core)
    }
}
