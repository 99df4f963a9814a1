//! What a request is answered, over the servlets of the journal as it is.
ghost use Rattle.platform_hall.specs.Platforms.{has_object, world};
ghost use Rattle.platform_hall.specs.Requests.{AnswersHere, AnswersHttp, HasReachObject};
ghost use Rattle.scr_requests.specs.Requests.{AreServletsOf, IsReach};
ghost use Rattle.scr_requests.specs.declared.reaching.Reach.TheVariants.{Standing};
ghost use Rattle.std.specs.Prelude.{◌≡◌, IfOk, true};

use crate::call_answers::run_live;
use crate::core_desk::CoreDesk;
use call_runner::{CallEnd, Callees};
use http_wire::{Answered, Request};
use kind_trait::Kinds;
use prop_map::OutOfMemory;
use scr_calls::HallAnswer;
use scr_readers::Live;
use scr_requests::{
    Reach, Servlets, answer_by_end, answer_by_nobody, note_active, reach_of, servlet_text,
};
use std::alloc::Global;

// Whom a request reaches.
fn reached_at<O: Drop>(
    alloc: Global,
    desk: &CoreDesk<O>,
    servlets: &Servlets,
    path: &str,
) -> Result<Reach, OutOfMemory>
    requires { AreServletsOf desk.now.core.journal servlets.now }
    ensures reached { IfOk result (IsReach (world desk.now.core) path.now) }
    ensures object { IfOk result (HasReachObject desk.now.core) }
{
    note_active();
    let core = desk.core();
    let to = reach_of(alloc, core, servlets, path)?;
    Ok(to)
}

// What a request is answered by the instance that it reaches.
fn answer_standing<K: Kinds>(
    alloc: Global,
    kinds: &K,
    desk: &CoreDesk<K::Object>,
    request: &Request,
    service: u64,
    live: Live,
) -> Result<HallAnswer, OutOfMemory>
    requires reached { IsReach (world desk.now.core) request.now.path (Standing service live) }
    requires object { has_object desk.now.core live.instance ≡ true }
    ensures { IfOk result (AnswersHere K.next desk.now.core request.now) }
{
    let front = desk.front();
    let text = servlet_text(alloc, request)?;
    let ran = run_live(alloc, kinds, desk, service, live, text.as_str())?;
    let answer = answer_by_end(alloc, request, service, &ran.end)?;
    let CallEnd { nested, end: _ } = ran;
    Ok(HallAnswer {
        front,
        service,
        nested,
        answer,
    })
}

// What a request is answered, by whom it reaches.
fn answer_to<K: Kinds>(
    alloc: Global,
    kinds: &K,
    desk: &CoreDesk<K::Object>,
    request: &Request,
    to: Reach,
) -> Result<HallAnswer, OutOfMemory>
    requires reached { IsReach (world desk.now.core) request.now.path to }
    requires object { HasReachObject desk.now.core to }
    ensures { IfOk result (AnswersHere K.next desk.now.core request.now) }
{
    let front = desk.front();
    match to {
        Reach::Nowhere => Ok(answer_by_nobody(alloc, front, request, 0, 404)),
        Reach::Objectless { service } => Ok(answer_by_nobody(alloc, front, request, service, 500)),
        Reach::Ending { service } => Ok(answer_by_nobody(alloc, front, request, service, 503)),
        Reach::Standing { service, live } => {
            answer_standing(alloc, kinds, desk, request, service, live)
        }
    }
}

// The answer alone.
fn answer_of(told: HallAnswer) -> Answered
    ensures { result ≡ told.answer }
{
    let HallAnswer {
        front: _,
        service: _,
        nested: _,
        answer,
    } = told;
    answer
}

// What a request is answered, in the world of the whole journal.
pub(crate) fn answer_http<K: Kinds>(
    alloc: Global,
    kinds: &K,
    desk: &CoreDesk<K::Object>,
    servlets: &Servlets,
    request: &Request,
) -> Result<Answered, OutOfMemory>
    requires { AreServletsOf desk.now.core.journal servlets.now }
    ensures { IfOk result (AnswersHttp K.next desk.now.core request.now) }
{
    let to = reached_at(alloc, desk, servlets, request.path.as_str())?;
    let told = answer_to(alloc, kinds, desk, request, to)?;
    Ok(answer_of(told))
}
