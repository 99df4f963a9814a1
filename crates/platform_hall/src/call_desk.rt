//! What calls by gets ask of the desk.
ghost use Rattle.platform_hall.specs.Calls.{GetsUse, ReleasesUse};
ghost use Rattle.platform_hall.specs.Desks.{Owns};
ghost use Rattle.platform_hall.specs.Platforms.{has_object};
ghost use Rattle.std.specs.Arc.{arc_value};
ghost use Rattle.std.specs.Prelude.{◌≡◌, true, IfOk, OnErr, OnOk};

use crate::core_desk::CoreDesk;
use crate::tokens::held_object;
use prop_map::OutOfMemory;
use scr_requests::UseNote;
use scr_world::CoreFault;
use std::alloc::Global;
use std::sync::Arc;

impl<O: Drop> CoreDesk<O> {
    // Gets a service by a token.
    pub(crate) fn get_use(
        &mut self,
        alloc: Global,
        bundle: u64,
        service: u64,
    ) -> Result<UseNote, CoreFault>
        ensures gets { GetsUse self.old.core bundle service result self.new.core }
        ensures kept { self.new.kept ≡ self.old.kept }
    {
        self.core.note_legal();
        let note = self.core.get_use(alloc, bundle, service);
        self.core.note_legal();
        note
    }

    // Releases a get by a token, and answers whether it stood still.
    pub(crate) fn end_use(&mut self, alloc: Global, note: UseNote) -> Result<bool, OutOfMemory>
        ensures ok { OnOk result (ReleasesUse self.old.core note self.new.core) }
        ensures err { OnErr result (self.new.core ≡ self.old.core) }
        ensures kept { self.new.kept ≡ self.old.kept }
    {
        self.core.note_legal();
        let ended = self.core.end_use(alloc, note);
        self.core.note_legal();
        match ended {
            Ok(stood) => Ok(stood),
            Err((_, error)) => Err(error),
        }
    }

    // The object that is kept for an instance.
    pub(crate) fn own_object(&self, instance: u64) -> Result<Arc<O>, OutOfMemory>
        requires { has_object self.now.core instance ≡ true }
        ensures { IfOk result (λ object. Owns self.now instance (arc_value object)) }
    {
        match held_object(self.held.as_slice(), instance) {
            Some(one) => Ok(Arc::try_clone(&one.object)?),
            None => unreachable!(),
        }
    }
}
