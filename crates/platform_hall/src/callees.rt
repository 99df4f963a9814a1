//! Whom calls reach on a desk, each with its own object.
ghost use Rattle.call_runner.specs.Reached.{IsOwnCallee, whom_of};
ghost use Rattle.call_runner.specs.declared.callees.Callee.TheVariants.{Nobody as ToNobody};
ghost use Rattle.platform_hall.specs.Callees.{HasItsObject, HasOuterObject};
ghost use Rattle.platform_hall.specs.Desks.{Owns};
ghost use Rattle.platform_hall.specs.Platforms.{has_object, world};
ghost use Rattle.scr_calls.specs.Evaluates.{whom};
ghost use Rattle.scr_readers.specs.Reaching.{outer};
ghost use Rattle.std.specs.Arc.{arc_value};
ghost use Rattle.std.specs.Prelude.{◌≡◌, IfOk, true};

use crate::core_desk::CoreDesk;
use call_runner::{Callee, Callees, Party};
use kind_trait::NestedReply;
use prop_map::{OutOfMemory, Str};
use scr_readers::{Inward, Live, Outer};
use scr_requests::UseNote;
use std::alloc::Global;

// An instance that is reached, with its own object.
pub(crate) fn party_of<O: Drop>(desk: &CoreDesk<O>, live: Live) -> Result<Party<O>, OutOfMemory>
    requires { has_object desk.now.core live.instance ≡ true }
    ensures number { IfOk result (λ party. party.instance ≡ live.instance) }
    ensures site { IfOk result (λ party. party.site ≡ live.site) }
    ensures own { IfOk result (λ party. Owns desk.now party.instance (arc_value party.object)) }
{
    let Live {
        key: _,
        instance,
        site,
    } = live;
    let object = desk.own_object(instance)?;
    Ok(Party {
        instance,
        site,
        object,
    })
}

// Whom a call by a get reaches.
pub(crate) fn reached_by<O: Drop>(
    alloc: Global,
    desk: &CoreDesk<O>,
    note: &UseNote,
) -> Result<Outer, OutOfMemory>
    ensures reached { IfOk result (λ to. to ≡ outer (world desk.now.core) note.now) }
    ensures object { IfOk result (HasOuterObject desk.now.core) }
{
    let core = desk.core();
    let to = core.outer(alloc, note)?;
    Ok(to)
}

fn nobody<O>(service: u64, reply: NestedReply) -> Callee<O>
    ensures { result ≡ ToNobody service reply }
{
    Callee::Nobody { service, reply }
}

// Whom a nested call reaches, with the object of an instance.
fn callee_of<O: Drop>(desk: &CoreDesk<O>, reached: Inward) -> Result<Callee<O>, OutOfMemory>
    requires { HasItsObject desk.now.core reached }
    ensures reached { IfOk result (λ callee. whom_of callee ≡ whom reached) }
    ensures own { IfOk result (IsOwnCallee (Owns desk.now)) }
{
    match reached {
        Inward::NoService => Ok(nobody(0, NestedReply::NoService)),
        Inward::NoObject { service } => Ok(nobody(service, NestedReply::NoObject)),
        Inward::Gone { service } => Ok(nobody(service, NestedReply::Gone)),
        Inward::Live { service, live } => {
            let party = party_of(desk, live)?;
            Ok(Callee::Instance { service, party })
        }
    }
}

impl<O: Drop> Callees<O> for CoreDesk<O> {
    ghost use Rattle.std.specs.Prelude.{length};
    ghost use Rattle.scr_calls.specs.Evaluates.{reaching, world_up_to};

    ghost journal_length = { λ desk. length desk.core.journal };

    ghost reaching = { λ desk. reaching (world_up_to desk.core.journal) };

    ghost owns = { Owns };

    fn front(&self) -> u64 {
        self.core().journal().length()
    }

    fn reach(
        &self,
        alloc: Global,
        instance: u64,
        reference: &Str,
    ) -> Result<Callee<O>, OutOfMemory> {
        let reached = self.core().nested(alloc, instance, reference)?;
        callee_of(self, reached)
    }
}
