//! Turns that begin and end, each in a turn at the lock.
ghost use Rattle.hall_goings.specs.Went.{Went};
ghost use Rattle.hall_locked.specs.Locks.{AppendsFor};
ghost use Rattle.hall_locked.specs.Owned.{turn_thing};
ghost use Rattle.hall_locked.specs.Parts.{with_begun};
ghost use Rattle.hall_locked.specs.Platforms.{BeginsTurn};
ghost use Rattle.platform_sessions.specs.Commands.{IsOwed};
ghost use Rattle.platform_sessions.specs.Halls.{IsOf, KeepsPass, KeepsSeat};
ghost use Rattle.platform_sessions.specs.Works.{BeginsOne, HandsOut, HasEnded, IsMine, IsOneMore, IsOwn, IsRunFor, begun_of, things_but};
ghost use Rattle.std.specs.Arc.{arc_value};
ghost use Rattle.std.specs.Prelude.{◌≡◌, [], IfErr, IfOk, IfSome, OnErr, OnOk};

use crate::hall::Hall;
use crate::hall_pass::{HallPass, put};
use crate::tasks::{Task, task_of};
use hall_locked::{Locked, Owed};
use kind_trait::Kinds;
use prop_map::OutOfMemory;
use scr_world::CoreFault;
use std::alloc::Global;
use std::sync::Wait;
use std::thread;
use turn_runner::Ran;

// A turn that has begun: its number, and what it takes outside the lock; None where memory was wanting for that.
pub(crate) type Begun<O> = (u64, Option<Task<O>>);

// Begins the first due turn, and hands out what it takes outside the lock.
fn begin_in<O: Drop>(
    alloc: Global,
    value: &mut Locked<O>,
    owner: u64,
) -> Result<Option<Begun<O>>, CoreFault>
    ensures answer { BeginsTurn value.old.core (begun_of result) value.new.core }
    ensures appended { AppendsFor owner value.old value.new }
    ensures turns { value.new.turns ≡ with_begun owner (begun_of result) value.old.turns }
    ensures uses { value.new.uses ≡ value.old.uses }
    ensures limits { value.new.core.limits ≡ value.old.core.limits }
    ensures out { HandsOut value.new.core result }
    ensures own { IfOk result (λ begun. IfSome begun (λ b. IsOwn arc_value value.new.parts b.1)) }
    ensures refused { OnErr result (value.new ≡ value.old) }
{
    match value.take(alloc, owner) {
        Ok(Some(turn)) => Ok(Some((turn, task_of(alloc, value, turn)))),
        Ok(None) => Ok(None),
        Err(fault) => Err(fault),
    }
}

impl<K: Kinds + Drop> Hall<K> {
    // Begins the first due turn, in a turn at the lock.
    pub(crate) fn begin_turn<R: Wait>(
        &self,
        rt: &R,
        alloc: Global,
        pass: &mut HallPass,
    ) -> Result<Option<Begun<K::Object>>, CoreFault>
        requires of { IsOf self.now pass.old }
        ensures of { IsOf self.now pass.new }
        ensures closed { pass.new.closed ≡ pass.old.closed }
        ensures seat { KeepsSeat pass.old.front pass.new.front }
        ensures begins { BeginsOne self.now.limits pass.old.front pass.new.front result }
        ensures more { IsOneMore (begun_of result) pass.old.front.kept pass.new.front.kept }
    {
        let mut inner = self.lock.enter(rt, pass.pass.take().unwrap());
        let owner = inner.owner();
        inner.value.note_kept();
        let begun = begin_in(alloc, &mut inner.value, owner);
        inner.value.note_kept();
        let back = self.lock.leave(inner);
        put(&mut pass.pass, back);
        begun
    }

    // Ends a turn of this pass with what it came to, in a turn at the lock, and answers what is owed then. Where memory is
    // wanting it tries again: so no code is told twice.
    pub(crate) fn end_turn<R: Wait>(
        &self,
        rt: &R,
        alloc: Global,
        pass: &mut HallPass,
        turn: u64,
        ran: Ran<K::Object>,
    ) -> Option<Owed>
        requires of { IsOf self.now pass.old }
        requires mine { IsMine turn pass.old.front }
        requires fits { IsRunFor K.refuses self.now.limits pass.old.front turn ran }
        ensures of { IsOf self.now pass.new }
        ensures closed { pass.new.closed ≡ pass.old.closed }
        ensures seat { KeepsSeat pass.old.front pass.new.front }
        ensures left { pass.new.front.kept ≡ things_but (turn_thing turn) pass.old.front.kept }
        ensures ended { HasEnded K.refuses self.now.limits pass.old.front pass.new.front turn }
        ensures owed { IsOwed self.now.limits pass.new.front result }
    {
        let mut ran = ran;
        for _ in rt.forever() {
            match self.end_once(rt, alloc, pass, turn, ran) {
                Ok(owed) => return owed,
                Err((back, _)) => {
                    thread::yield_now();
                    ran = back;
                }
            }
        }
        unreachable!()
    }

    // Ends a turn of this pass with what it came to, in a turn at the lock, and answers what is owed then. Where memory is
    // wanting all stays as it was, and what it came to comes back.
    fn end_once<R: Wait>(
        &self,
        rt: &R,
        alloc: Global,
        pass: &mut HallPass,
        turn: u64,
        ran: Ran<K::Object>,
    ) -> Result<Option<Owed>, (Ran<K::Object>, OutOfMemory)>
        requires of { IsOf self.now pass.old }
        requires mine { IsMine turn pass.old.front }
        requires fits { IsRunFor K.refuses self.now.limits pass.old.front turn ran }
        ensures of { IsOf self.now pass.new }
        ensures closed { pass.new.closed ≡ pass.old.closed }
        ensures seat { KeepsSeat pass.old.front pass.new.front }
        ensures left { OnOk result (pass.new.front.kept ≡ things_but (turn_thing turn) pass.old.front.kept) }
        ensures ended { OnOk result (HasEnded K.refuses self.now.limits pass.old.front pass.new.front turn) }
        ensures owed { IfOk result (λ owed. IsOwed self.now.limits pass.new.front owed) }
        ensures same { OnErr result (Went pass.old.front pass.new.front []) }
        ensures keeps { OnErr result (KeepsPass pass.old.front pass.new.front) }
        ensures back { IfErr result (λ e. IsRunFor K.refuses self.now.limits pass.new.front turn e.0) }
    {
        let mut inner = self.lock.enter(rt, pass.pass.take().unwrap());
        let owner = inner.owner();
        inner.value.note_kept();
        let done = inner.value.done(alloc, owner, turn, ran);
        inner.value.note_kept();
        let back = self.lock.leave(inner);
        put(&mut pass.pass, back);
        done
    }
}
