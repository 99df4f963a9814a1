//! Commands, and the drains behind them.
ghost use Rattle.platform_sessions.specs.Commands.{IsOwed, IsPosted, Posts, PostsOwed, TakesCommand, TookCommand};
ghost use Rattle.platform_sessions.specs.Halls.{IsOf, KeepsPass};
ghost use Rattle.std.specs.Prelude.{◌≡◌, IfOk};

use crate::hall::Hall;
use crate::hall_pass::{HallPass, put};
use hall_locked::Owed;
use kind_trait::Kinds;
use prop_map::OutOfMemory;
use scr_world::{Accepted, Command, CoreFault, Reply};
use std::alloc::Global;
use std::sync::Wait;
use std::thread;

impl<K: Kinds + Drop> Hall<K> {
    /// Takes a command in one turn at the lock, and posts each drain that is then awaited in a turn of its own, until none
    /// is awaited. A command that changes something is one entry of the pass, behind all that it had seen, and the front
    /// that it answers is just behind it; one that changes nothing appends nothing, and its front is all that the pass has
    /// seen then. The reply is by the journal before the front's entry, or up to the front. Where memory is wanting for a
    /// drain it tries again.
    ///
    /// # Errors
    /// Those of [`Core::command`](hall_locked::Core::command), by all that the pass has seen then. A refused command
    /// appends nothing.
    #[tactic(auto, using(crate::proofs::Stretches::keeps_on))]
    pub fn command<R: Wait>(
        &self,
        rt: &R,
        alloc: Global,
        pass: &mut HallPass,
        command: Command,
    ) -> Result<(u64, Reply), CoreFault>
        requires of { IsOf self.now pass.old }
        ensures of { IsOf self.now pass.new }
        ensures closed { pass.new.closed ≡ pass.old.closed }
        ensures keeps { KeepsPass pass.old.front pass.new.front }
        ensures taken { TakesCommand self.now.limits pass.old.front pass.new.front command result }
    {
        let (answer, front) = self.take_command(rt, alloc, pass, command);
        let (accepted, owed) = answer?;
        self.post_owed(rt, alloc, pass, owed);
        Ok((front, accepted.reply))
    }

    // Takes a command in one turn at the lock, and answers the front behind it too.
    fn take_command<R: Wait>(
        &self,
        rt: &R,
        alloc: Global,
        pass: &mut HallPass,
        command: Command,
    ) -> (Result<(Accepted, Option<Owed>), CoreFault>, u64)
        requires of { IsOf self.now pass.old }
        ensures of { IsOf self.now pass.new }
        ensures closed { pass.new.closed ≡ pass.old.closed }
        ensures keeps { KeepsPass pass.old.front pass.new.front }
        ensures taken { TookCommand self.now.limits pass.old.front pass.new.front command result.0 result.1 }
    {
        let mut inner = self.lock.enter(rt, pass.pass.take().unwrap());
        let owner = inner.owner();
        inner.value.note_kept();
        let answer = inner.value.command(alloc, owner, command);
        inner.value.note_kept();
        let back = self.lock.leave(inner);
        let front = back.seen();
        put(&mut pass.pass, back);
        (answer, front)
    }

    // Posts the drains that are awaited, where any are owed.
    pub(crate) fn post_owed<R: Wait>(
        &self,
        rt: &R,
        alloc: Global,
        pass: &mut HallPass,
        owed: Option<Owed>,
    )
        requires of { IsOf self.now pass.old }
        ensures of { IsOf self.now pass.new }
        ensures closed { pass.new.closed ≡ pass.old.closed }
        ensures keeps { KeepsPass pass.old.front pass.new.front }
        ensures posted { PostsOwed self.now.limits owed pass.old.front pass.new.front }
    {
        match owed {
            Some(owed) => self.post_all(rt, alloc, pass, owed),
            None => {}
        }
    }

    // Posts the drains that are awaited, each in a turn of its own, until none is left. Where memory is wanting it tries
    // again.
    #[tactic(auto, using(crate::proofs::Stretches::keeps_on))]
    fn post_all<R: Wait>(&self, rt: &R, alloc: Global, pass: &mut HallPass, owed: Owed)
        requires of { IsOf self.now pass.old }
        ensures of { IsOf self.now pass.new }
        ensures closed { pass.new.closed ≡ pass.old.closed }
        ensures keeps { KeepsPass pass.old.front pass.new.front }
        ensures posted { Posts pass.old.front pass.new.front }
        ensures all { IsPosted self.now.limits pass.new.front }
    {
        let mut owed = owed;
        for _ in rt.forever() {
            match self.post_one(rt, alloc, pass, owed) {
                Ok(Some(left)) => owed = left,
                Ok(None) => return,
                Err((back, _)) => {
                    thread::yield_now();
                    owed = back;
                }
            }
        }
        unreachable!()
    }

    // Posts the first drain that is awaited, in a turn of its own, and answers what is owed then.
    fn post_one<R: Wait>(
        &self,
        rt: &R,
        alloc: Global,
        pass: &mut HallPass,
        owed: Owed,
    ) -> Result<Option<Owed>, (Owed, OutOfMemory)>
        requires of { IsOf self.now pass.old }
        ensures of { IsOf self.now pass.new }
        ensures closed { pass.new.closed ≡ pass.old.closed }
        ensures keeps { KeepsPass pass.old.front pass.new.front }
        ensures posted { Posts pass.old.front pass.new.front }
        ensures left { IfOk result (λ left. IsOwed self.now.limits pass.new.front left) }
    {
        let mut inner = self.lock.enter(rt, pass.pass.take().unwrap());
        let owner = inner.owner();
        inner.value.note_kept();
        let posted = inner.value.post(alloc, owner, owed);
        inner.value.note_kept();
        let back = self.lock.leave(inner);
        put(&mut pass.pass, back);
        posted
    }
}
