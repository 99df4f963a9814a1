//! Requests on a platform (OSGi Compendium 8, chapter 140, has the choice of a servlet).
ghost use Rattle.platform_hall.specs.Requests.{AnswersHttp, WereServletsOf};
ghost use Rattle.scr_requests.specs.Requests.{AreServletsOf};
ghost use Rattle.std.specs.Prelude.{◌≡◌, ◌==◌, IfOk, MatchOption, length};

use crate::Platform;
use crate::core_desk::CoreDesk;
use crate::http_answers::answer_http;
use call_runner::Callees;
use http_wire::{AnswerStop, Answered, Request};
use kind_trait::Kinds;
use prop_map::OutOfMemory;
use scr_requests::Servlets;
use std::alloc::Global;

// The servlets of the journal as it is.
fn made<O: Drop>(alloc: Global, desk: &CoreDesk<O>) -> Result<Servlets, OutOfMemory>
    ensures now { IfOk result (AreServletsOf desk.now.core.journal) }
    ensures kept { IfOk result (WereServletsOf desk.now.core.journal) }
{
    Servlets::of(alloc, desk.core())
}

// Whether the journal is as long as it was when these servlets were made.
fn are_current<O: Drop>(desk: &CoreDesk<O>, servlets: &Servlets) -> bool
    ensures { result ≡ (servlets.now.made_at == length desk.now.core.journal) }
{
    servlets.made_at == desk.front()
}

// The servlets of the journal as it is, by servlets that were made before, where the journal is as long as it was then.
fn fresh<O: Drop>(
    alloc: Global,
    desk: &CoreDesk<O>,
    servlets: Servlets,
) -> Result<Servlets, OutOfMemory>
    requires { WereServletsOf desk.now.core.journal servlets }
    ensures now { IfOk result (AreServletsOf desk.now.core.journal) }
    ensures kept { IfOk result (WereServletsOf desk.now.core.journal) }
{
    if are_current(desk, &servlets) {
        return Ok(servlets);
    }
    made(alloc, desk)
}

// The same, by those that are kept, if any are.
fn kept_or_made<O: Drop>(
    alloc: Global,
    desk: &CoreDesk<O>,
    kept: Option<Servlets>,
) -> Result<Servlets, OutOfMemory>
    requires { MatchOption kept (Unit {0}) (WereServletsOf desk.now.core.journal) }
    ensures now { IfOk result (AreServletsOf desk.now.core.journal) }
    ensures kept { IfOk result (WereServletsOf desk.now.core.journal) }
{
    match kept {
        Some(servlets) => fresh(alloc, desk, servlets),
        None => made(alloc, desk),
    }
}

impl<K: Kinds + Drop> Platform<K> {
    // Answers a request, and keeps the servlets.
    fn answer_request(&mut self, alloc: Global, request: &Request) -> Result<Answered, OutOfMemory>
        ensures same { self.new ≡ self.old }
        ensures answer { IfOk result (AnswersHttp K.next self.old request.now) }
    {
        let kept = self.servlets.take();
        let servlets = kept_or_made(alloc, &self.desk, kept)?;
        let answer = answer_http(alloc, &self.kinds, &self.desk, &servlets, request);
        self.servlets = Some(servlets);
        answer
    }

    /// Answers a request by the servlet that is chosen for its path, among those that the whiteboard's instance holds: 404
    /// where none is, 500 where its service has no object, 503 where its instance is ending; else what the instance says,
    /// or 500 where that is a refusal, a call that is too long or a text above 65,536 bytes. It appends nothing. The
    /// routes serve the next request too, where the journal hasn't grown by then.
    ///
    /// # Errors
    /// Only want of memory.
    pub fn http(&mut self, alloc: Global, request: &Request) -> Result<Answered, AnswerStop>
        ensures same { self.new ≡ self.old }
        ensures answer { IfOk result (AnswersHttp K.next self.old request.now) }
    {
        match self.answer_request(alloc, request) {
            Ok(answer) => Ok(answer),
            Err(_) => Err(AnswerStop::OutOfMemory),
        }
    }
}
