//! Gets by token, and their release.
ghost use Rattle.hall_locked.specs.Owned.{use_thing};
ghost use Rattle.platform_sessions.specs.Halls.{IsOf, KeepsPass, KeepsSeat};
ghost use Rattle.platform_sessions.specs.Uses.{Gets, HasUse, Releases};
ghost use Rattle.platform_sessions.specs.Works.{things_but};
ghost use Rattle.std.specs.Prelude.{◌≡◌, IfErr, OnErr, OnOk};

use crate::hall::Hall;
use crate::hall_pass::{HallPass, put};
use hall_locked::UseNote;
use kind_trait::Kinds;
use prop_map::OutOfMemory;
use scr_world::CoreFault;
use std::alloc::Global;
use std::sync::Wait;

/// A get by token, which is kept for the pass that got it. Contracts see the place of its entry, the bundle and the
/// service.
pub type ServiceUse = UseNote;

impl<K: Kinds + Drop> Hall<K> {
    /// Gets a service for a bundle by a token, in one turn at the lock: by one entry of the pass, the last that it has seen
    /// then. The get is kept for the pass until [`Hall::release`] gives it back, whether it stands or not; no other pass can
    /// release it.
    ///
    /// # Errors
    /// Those of [`Core::get_use`](hall_locked::Core::get_use), by all that the pass has seen then. Want of memory for what is
    /// kept hides no other. Nothing is appended.
    pub fn get<R: Wait>(
        &self,
        rt: &R,
        alloc: Global,
        pass: &mut HallPass,
        bundle: u64,
        service: u64,
    ) -> Result<ServiceUse, CoreFault>
        requires of { IsOf self.now pass.old }
        ensures of { IsOf self.now pass.new }
        ensures closed { pass.new.closed ≡ pass.old.closed }
        ensures seat { KeepsSeat pass.old.front pass.new.front }
        ensures gets { Gets self.now.limits pass.old.front pass.new.front bundle service result }
        ensures keeps { OnErr result (KeepsPass pass.old.front pass.new.front) }
    {
        let mut inner = self.lock.enter(rt, pass.pass.take().unwrap());
        let owner = inner.owner();
        inner.value.note_kept();
        let got = inner.value.get(alloc, owner, bundle, service);
        inner.value.note_kept();
        let back = self.lock.leave(inner);
        put(&mut pass.pass, back);
        got
    }

    /// Gives a get back that the pass has, in one turn at the lock, and answers whether it stood still. One that stood is
    /// released by one entry of the pass; one that doesn't is gone, since its service was unregistered or its bundle
    /// stopped, and nothing is appended. It is kept for the pass no more in either case.
    ///
    /// # Errors
    /// Only want of memory: the get comes back and is the pass's still, and nothing is appended.
    pub fn release<R: Wait>(
        &self,
        rt: &R,
        alloc: Global,
        pass: &mut HallPass,
        used: ServiceUse,
    ) -> Result<bool, (ServiceUse, OutOfMemory)>
        requires of { IsOf self.now pass.old }
        requires has { HasUse used pass.old.front }
        ensures of { IsOf self.now pass.new }
        ensures closed { pass.new.closed ≡ pass.old.closed }
        ensures seat { KeepsSeat pass.old.front pass.new.front }
        ensures releases { Releases self.now.limits pass.old.front pass.new.front used result }
        ensures left { OnOk result (pass.new.front.kept ≡ things_but (use_thing used.place) pass.old.front.kept) }
        ensures keeps { OnErr result (KeepsPass pass.old.front pass.new.front) }
        ensures back { IfErr result (λ e. e.0 ≡ used) }
    {
        let mut inner = self.lock.enter(rt, pass.pass.take().unwrap());
        let owner = inner.owner();
        inner.value.note_kept();
        let released = inner.value.release(alloc, owner, used);
        inner.value.note_kept();
        let back = self.lock.leave(inner);
        put(&mut pass.pass, back);
        released
    }
}
