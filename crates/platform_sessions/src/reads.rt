//! Looks at the core.
ghost use Rattle.platform_sessions.specs.Halls.{IsOf, KeepsPass};
ghost use Rattle.platform_sessions.specs.Reads.{Reads};
ghost use Rattle.std.specs.Prelude.{◌≡◌};

use crate::hall::Hall;
use crate::hall_pass::{HallPass, put};
use crate::look::Look;
use kind_trait::Kinds;
use std::sync::Wait;

impl<K: Kinds + Drop> Hall<K> {
    /// Looks at the core once, in one turn at the lock, and answers the front: how many entries the pass has seen then.
    /// It appends nothing and takes no memory of its own.
    pub fn read<R: Wait, L: Look>(&self, rt: &R, pass: &mut HallPass, look: &mut L) -> u64
        requires of { IsOf self.now pass.old }
        ensures of { IsOf self.now pass.new }
        ensures closed { pass.new.closed ≡ pass.old.closed }
        ensures keeps { KeepsPass pass.old.front pass.new.front }
        ensures read { Reads L.looks self.now.limits pass.old.front pass.new.front look.old result look.new }
    {
        let inner = self.lock.enter(rt, pass.pass.take().unwrap());
        inner.value.note_kept();
        look.look(inner.value.look());
        let back = self.lock.leave(inner);
        let front = back.seen();
        put(&mut pass.pass, back);
        front
    }
}
