//! What requests are asked and answered.
ghost use Rattle.call_runner.specs.Runs.{ended_of};
ghost use Rattle.scr_calls.specs.Answers.{answer_by, answered, servlet_text};
ghost use Rattle.std.specs.Prelude.{◌≡◌, [], IfOk};

use call_runner::End;
use http_wire::{Answered, Request};
use prop_map::{List, OutOfMemory, Str};
use scr_calls::HallAnswer;
use std::alloc::Global;

// The greatest length of an answer's body.
const MOST_BODY: usize = 65_536;

/// What a servlet is asked: the method, a blank, the target, a line feed, and the body, in which U+FFFD stands for what
/// is no UTF-8.
///
/// # Errors
/// Only want of memory.
pub fn servlet_text(alloc: Global, request: &Request) -> Result<Str, OutOfMemory>
    ensures { IfOk result (λ text. text ≡ servlet_text request.now) }
{
    let body = String::from_utf8_lossy(alloc, request.body.as_slice())?;
    let text = format!(in alloc;
        "{} {}\n{}",
        request.method.as_str(),
        request.target.as_str(),
        body.as_str()
    )?;
    Ok(Str::of(text))
}

// An answer to a request.
fn answered(request: &Request, status: u16, service: u64, body: List<u8>) -> Answered
    ensures { result ≡ answered request.now status service body }
{
    Answered {
        status,
        service,
        body,
        last: request.last,
        head_only: request.head_only,
    }
}

fn without_body(alloc: Global, request: &Request, status: u16) -> Answered
    ensures { result ≡ answered request.now status 0 [] }
{
    answered(request, status, 0, List::of(Vec::new(alloc)))
}

fn with_text(
    alloc: Global,
    request: &Request,
    service: u64,
    text: &Str,
) -> Result<Answered, OutOfMemory>
    ensures { IfOk result (λ answer. answer ≡ answered request.now 200 service text.now) }
{
    let body = Vec::from_slice(alloc, text.as_str().as_bytes())?;
    Ok(answered(request, 200, service, List::of(body)))
}

/// What a request is answered whose call at a servlet came to this end: 200 with its text, or 500 where the text is
/// above 65,536 bytes, the component code refuses, or the call is too long.
///
/// # Errors
/// Only want of memory.
pub fn answer_by_end(
    alloc: Global,
    request: &Request,
    service: u64,
    end: &End,
) -> Result<Answered, OutOfMemory>
    ensures { IfOk result (λ answer. answer ≡ answer_by request.now service (ended_of end.now)) }
{
    match end {
        End::Said(text) => {
            if text.as_str().len() <= MOST_BODY {
                with_text(alloc, request, service, text)
            } else {
                Ok(without_body(alloc, request, 500))
            }
        }
        End::Declined => Ok(without_body(alloc, request, 500)),
        End::TooLong => Ok(without_body(alloc, request, 500)),
    }
}

/// What a request is answered that reaches nobody, with a status and no body. The service is that of its servlet, 0
/// where none is chosen.
pub fn answer_by_nobody(
    alloc: Global,
    front: u64,
    request: &Request,
    service: u64,
    status: u16,
) -> HallAnswer
    ensures { result ≡ record {
      front = front;
      service = service;
      nested = [];
      answer = answered request.now status 0 [];
    } }
{
    HallAnswer {
        front,
        service,
        nested: List::of(Vec::new(alloc)),
        answer: without_body(alloc, request, status),
    }
}
