//! What calls ask of a core.
ghost use Rattle.scr_readers.specs.Reaching.{active_for, held_services, inward, inward_at, is_ending_at, live_at, outer, outer_at};
ghost use Rattle.scr_world.specs.Calls.{world_at};
ghost use Rattle.std.specs.Prelude.{◌≡◌, IfOk, option_map};

use crate::{Core, UseNote};
use prop_map::{List, OutOfMemory, Str};
use scr_readers::{Inward, InwardAt, Live, LiveAt, Outer, OuterAt};
use service_registry::ServiceRow;
use std::alloc::Global;

impl Core {
    /// Whether an instance is ending, or isn't there any more. That of the whiteboard, which has the number 0, never is. It takes
    /// no memory.
    pub fn ending(&self, instance: u64) -> bool
        ensures { result ≡ is_ending_at (world_at self.now.journal) instance }
    {
        scr_readers::ending(&self.state.world, instance)
    }

    /// The services that an instance holds for the reference of a name, best first, as they are or as they left; nothing where there
    /// is no such instance.
    ///
    /// # Errors
    /// Only want of memory.
    pub fn held_services(
        &self,
        alloc: Global,
        instance: u64,
        reference: &Str,
    ) -> Result<List<ServiceRow>, OutOfMemory>
        ensures { IfOk result (λ rows. rows ≡ held_services (world_at self.now.journal) instance reference.now) }
    {
        scr_readers::held_services(alloc, &self.own, &self.state.world, instance, reference)
    }

    /// The active instance that a bundle uses of a service, and `None` exactly where there is none.
    ///
    /// # Errors
    /// Only want of memory.
    pub fn active(
        &self,
        alloc: Global,
        service: u64,
        bundle: u64,
    ) -> Result<Option<Live>, OutOfMemory>
        ensures { IfOk result (λ live. live ≡ active_for (world_at self.now.journal) bundle service) }
    {
        scr_readers::active(alloc, &self.own, &self.state.world, service, bundle)
    }

    /// Whom a call by a get reaches: nobody where the get stands no more, where the service has no object, or where its instance
    /// isn't active.
    ///
    /// # Errors
    /// Only want of memory.
    pub fn outer(&self, alloc: Global, note: &UseNote) -> Result<Outer, OutOfMemory>
        ensures { IfOk result (λ reached. reached ≡ outer (world_at self.now.journal) note.now) }
    {
        scr_readers::outer(alloc, &self.own, &self.state.world, note.token())
    }

    /// Whom a nested call of an instance reaches: the instance of the best service that it holds for the reference of a name.
    ///
    /// # Errors
    /// Only want of memory.
    pub fn nested(
        &self,
        alloc: Global,
        instance: u64,
        reference: &Str,
    ) -> Result<Inward, OutOfMemory>
        ensures { IfOk result (λ reached. reached ≡ inward (world_at self.now.journal) instance reference.now) }
    {
        scr_readers::nested(alloc, &self.own, &self.state.world, instance, reference)
    }

    /// The active instance that a bundle uses of a service, by its number and its gate alone. It takes no memory.
    pub fn active_at(&self, service: u64, bundle: u64) -> Option<LiveAt>
        ensures { result ≡ option_map live_at (active_for (world_at self.now.journal) bundle service) }
    {
        scr_readers::active_at(&self.state.world, service, bundle)
    }

    /// Whom a call by a get reaches, by number and gate alone. It takes no memory.
    pub fn outer_at(&self, note: &UseNote) -> OuterAt
        ensures { result ≡ outer_at (outer (world_at self.now.journal) note.now) }
    {
        scr_readers::outer_at(&self.own, &self.state.world, note.token())
    }

    /// Whom a nested call of an instance reaches, by number and gate alone. It takes no memory.
    pub fn nested_at(&self, instance: u64, reference: &Str) -> InwardAt
        ensures { result ≡ inward_at (inward (world_at self.now.journal) instance reference.now) }
    {
        scr_readers::nested_at(&self.own, &self.state.world, instance, reference)
    }
}
