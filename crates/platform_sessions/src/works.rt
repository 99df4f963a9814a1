//! Turns that are run.
ghost use Rattle.hall_locked.specs.Owned.{turn_thing};
ghost use Rattle.hall_locked.specs.Platforms.{running};
ghost use Rattle.platform_sessions.specs.Halls.{IsOf, KeepsPass, KeepsSeat, core_seen};
ghost use Rattle.platform_sessions.specs.Works.{EndsOne, IsMine, IsTask, RunsDue, Works, things_but};
ghost use Rattle.std.specs.Prelude.{◌≡◌, Some};
ghost use Rattle.turn_work.specs.declared.work.TurnWork.{TurnWork};

use crate::hall::Hall;
use crate::hall_pass::HallPass;
use crate::tasks::{Task, run_task};
use kind_trait::Kinds;
use scr_world::CoreFault;
use std::alloc::Global;
use std::sync::Wait;

impl<K: Kinds + Drop> Hall<K> {
    /// Runs the turns that are due, one after the other, until none is due or so many have run, and answers how many ran. A
    /// turn begins and ends in a turn at the lock each, and runs outside of it: so other passes go on meanwhile. Behind its
    /// end each drain that is awaited is posted. Where memory is wanting for the end it tries again, and no code is told
    /// twice. An outcome NoMemory is the turn's and stops nothing.
    ///
    /// # Errors
    /// JournalFull exactly where a turn is due and the journal has no room for it; otherwise only want of memory as a turn
    /// is to begin. The turns that ran stand.
    #[tactic(auto, using(crate::proofs::Working::one_more_ran, crate::proofs::Working::worked_idle, crate::proofs::Working::worked_all, crate::proofs::Working::ran_nowhere, crate::proofs::Stretches::keeps_itself, crate::proofs::Stretches::keeps_on))]
    pub fn work<R: Wait>(
        &self,
        rt: &R,
        alloc: Global,
        pass: &mut HallPass,
        turns: u64,
    ) -> Result<u64, CoreFault>
        requires of { IsOf self.now pass.old }
        ensures of { IsOf self.now pass.new }
        ensures closed { pass.new.closed ≡ pass.old.closed }
        ensures keeps { KeepsPass pass.old.front pass.new.front }
        ensures worked { Works K.refuses self.now.limits pass.old.front pass.new.front turns result }
    {
        for ran in 0..turns {
            match self.run_due(rt, alloc, pass) {
                Ok(true) => {}
                Ok(false) => return Ok(ran),
                Err(fault) => return Err(fault),
            }
        }
        Ok(turns)
    }

    // Runs the first due turn, if one is due, and answers whether one was.
    #[tactic(auto, using(crate::proofs::Working::keeps_turn))]
    fn run_due<R: Wait>(
        &self,
        rt: &R,
        alloc: Global,
        pass: &mut HallPass,
    ) -> Result<bool, CoreFault>
        requires of { IsOf self.now pass.old }
        ensures of { IsOf self.now pass.new }
        ensures closed { pass.new.closed ≡ pass.old.closed }
        ensures keeps { KeepsPass pass.old.front pass.new.front }
        ensures ran { RunsDue K.refuses self.now.limits pass.old.front pass.new.front result }
    {
        match self.begin_turn(rt, alloc, pass) {
            Ok(Some((turn, task))) => {
                self.run_begun(rt, alloc, pass, turn, task);
                Ok(true)
            }
            Ok(None) => Ok(false),
            Err(fault) => Err(fault),
        }
    }

    // Runs a turn of this pass outside the lock, ends it, and posts the drains that are owed then.
    #[tactic(auto, using(crate::proofs::Working::left_owed))]
    fn run_begun<R: Wait>(
        &self,
        rt: &R,
        alloc: Global,
        pass: &mut HallPass,
        turn: u64,
        task: Option<Task<K::Object>>,
    )
        requires of { IsOf self.now pass.old }
        requires mine { IsMine turn pass.old.front }
        requires task { (work : TurnWork) × (running (core_seen self.now.limits pass.old.front) turn ≡ Some work) × IsTask work task }
        ensures of { IsOf self.now pass.new }
        ensures closed { pass.new.closed ≡ pass.old.closed }
        ensures seat { KeepsSeat pass.old.front pass.new.front }
        ensures left { pass.new.front.kept ≡ things_but (turn_thing turn) pass.old.front.kept }
        ensures ended { EndsOne K.refuses self.now.limits pass.old.front pass.new.front turn }
    {
        let ran = run_task(alloc, &self.kinds, task);
        let owed = self.end_turn(rt, alloc, pass, turn, ran);
        self.post_owed(rt, alloc, pass, owed);
    }
}
