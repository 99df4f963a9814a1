//! What a call by a get is answered.
ghost use Rattle.call_runner.specs.Runs.{ComesToEnd};
ghost use Rattle.platform_hall.specs.Calls.{AnswersNow};
ghost use Rattle.platform_hall.specs.Callees.{HasOuterObject, answer_at};
ghost use Rattle.platform_hall.specs.Platforms.{has_object, world};
ghost use Rattle.scr_calls.specs.Evaluates.{reaching, world_up_to};
ghost use Rattle.scr_readers.specs.Reaching.{outer};
ghost use Rattle.std.specs.Prelude.{◌≡◌, IfOk, length, true};

use crate::callees::{party_of, reached_by};
use crate::core_desk::CoreDesk;
use call_runner::{CallEnd, Callees, End, run_call};
use kind_trait::Kinds;
use prop_map::{OutOfMemory, Str};
use scr_calls::{CallFault, Called};
use scr_readers::{Live, Outer};
use scr_requests::UseNote;
use std::alloc::Global;

// What a call that came to this end is answered.
fn answer_at(front: u64, ran: CallEnd) -> Result<Called, CallFault>
    ensures { result ≡ answer_at front ran.nested ran.end }
{
    let CallEnd { nested, end } = ran;
    match end {
        End::Said(text) => Ok(Called {
            front,
            text,
            nested,
        }),
        End::Declined => Err(CallFault::Refused { front, nested }),
        End::TooLong => Err(CallFault::CallTooLong { front, nested }),
    }
}

// Runs a call of an instance to its end.
pub(crate) fn run_live<K: Kinds>(
    alloc: Global,
    kinds: &K,
    desk: &CoreDesk<K::Object>,
    service: u64,
    live: Live,
    request: &str,
) -> Result<CallEnd, OutOfMemory>
    requires { has_object desk.now.core live.instance ≡ true }
    ensures { IfOk result (λ ran.
        ComesToEnd (reaching (world_up_to desk.now.core.journal)) K.next (length desk.now.core.journal)
        (record { instance = live.instance; site = live.site; request = request.now }) ran.nested ran.end) }
{
    let asked = Str::spell(alloc, request)?;
    let party = party_of(desk, live)?;
    run_call(alloc, kinds, desk, service, party, asked)
}

// What a call by a get is answered, by whom it reaches.
fn answer_reached<K: Kinds>(
    alloc: Global,
    kinds: &K,
    desk: &CoreDesk<K::Object>,
    note: &UseNote,
    to: Outer,
    request: &str,
) -> Result<Called, CallFault>
    requires reached { to ≡ outer (world desk.now.core) note.now }
    requires object { HasOuterObject desk.now.core to }
    ensures { AnswersNow K.next desk.now.core note.now request.now result }
{
    let front = desk.front();
    match to {
        Outer::Gone => Err(CallFault::Gone { front }),
        Outer::NoObject => Err(CallFault::NoObject { front }),
        Outer::Pending => Err(CallFault::Pending { front }),
        Outer::Live(live) => {
            match run_live(alloc, kinds, desk, note.service(), live, request) {
                Ok(ran) => answer_at(front, ran),
                Err(_) => Err(CallFault::OutOfMemory),
            }
        }
    }
}

// What a call by a get is answered, in the world of the whole journal.
pub(crate) fn answer_use<K: Kinds>(
    alloc: Global,
    kinds: &K,
    desk: &CoreDesk<K::Object>,
    note: &UseNote,
    request: &str,
) -> Result<Called, CallFault>
    ensures { AnswersNow K.next desk.now.core note.now request.now result }
{
    match reached_by(alloc, desk, note) {
        Ok(to) => answer_reached(alloc, kinds, desk, note, to, request),
        Err(_) => Err(CallFault::OutOfMemory),
    }
}
