//! A connection: its requests answered one after the other.
ghost use Rattle.std.specs.Prelude.{◌≡◌, ◌++◌, ◌⊎◌, Ok, Err, OnOk, OnErr, IfErr};
ghost use Rattle.http_wire.specs.ResponseText.{response_text};
ghost use Rattle.http_wire.specs.declared.messages.Answered.{Answered};
ghost use Rattle.http_front.specs.Answers.{IsAnswerTo, refusal_of};
ghost use Rattle.http.specs.StatusCode.{IsStatusCode};
ghost use Rattle.http_front.specs.Connections.{ClosesRefused, HasServed};
ghost use Rattle.http_front.specs.Flows.{Closes};
ghost use Rattle.http_front.specs.Faults.{read_faults_after, write_faults_after};

use crate::Answerer;
use crate::request_body::Coming;
use crate::request_reading::next_request;
use crate::wire::{Wire, send};
use fault_count::{Sink, Source};
use http_wire::{AnswerStop, Answered, Request, push_response};
use prop_map::{List, OutOfMemory};
use std::alloc::Global;
use std::sync::Wait;

/// How a connection ended.
#[derive(Clone, Copy, Debug, PartialEq, Eq)]
pub enum ConnectionEnd {
    /// The input ended between requests.
    EndOfInput,
    /// A request ended the connection, or its bytes refused it.
    Closed,
    /// The input ended inside a request.
    Truncated,
    /// The source failed.
    ReadFault,
    /// The sink failed.
    WriteFault,
    /// There was no memory.
    NoMemory,
}

// Asks this request, and puts the text of its answer behind the others.
fn answer_one<R: Wait, A: Answerer>(
    rt: &R,
    alloc: Global,
    answerer: &mut A,
    request: &Request,
    texts: &mut Vec<u8>,
) -> Result<(), AnswerStop>
    ensures ok { OnOk result ((answer : Answered) × A.answers answerer.old request.now (Ok answer) answerer.new × IsAnswerTo request.now answer
        × (texts.new.items ≡ texts.old.items ++ response_text answer)) }
    ensures err { IfErr result (λ stop. (texts.new.items ≡ texts.old.items) × (A.answers answerer.old request.now (Err stop) answerer.new
        ⊎ ((answer : Answered) × A.answers answerer.old request.now (Ok answer) answerer.new × IsAnswerTo request.now answer))) }
{
    let answer = answerer.answer(rt, alloc, request)?;
    match push_response(texts, &answer) {
        Ok(()) => Ok(()),
        Err(_) => Err(AnswerStop::OutOfMemory),
    }
}

// Writes the texts as the last ones.
fn close<O: Sink>(texts: &mut Vec<u8>, output: &mut O) -> ConnectionEnd
    ensures end { Closes (O.written output.old) (O.written output.new) texts.old.items result }
    ensures faults { O.fault_count output.new ≡ write_faults_after (O.fault_count output.old) result }
{
    if send(texts, output) {
        ConnectionEnd::Closed
    } else {
        ConnectionEnd::WriteFault
    }
}

// Puts the answer to a request that its bytes refuse behind the others.
fn push_refusal(status: u16, texts: &mut Vec<u8>) -> Result<(), OutOfMemory>
    requires { IsStatusCode status }
    ensures ok { OnOk result (texts.new.items ≡ texts.old.items ++ response_text (refusal_of status)) }
{
    let alloc = *texts.allocator();
    let answer = Answered {
        status,
        service: 0,
        body: List::of(Vec::new(alloc)),
        last: true,
        head_only: false,
    };
    push_response(texts, &answer)
}

// Answers a request that its bytes refuse, and writes the texts as the last ones.
fn refuse<O: Sink>(status: u16, texts: &mut Vec<u8>, output: &mut O) -> ConnectionEnd
    requires { IsStatusCode status }
    ensures end { ClosesRefused (O.written output.old) (O.written output.new) texts.old.items status result }
    ensures faults { O.fault_count output.new ≡ write_faults_after (O.fault_count output.old) result }
{
    match push_refusal(status, texts) {
        Ok(()) => close(texts, output),
        Err(_) => ConnectionEnd::NoMemory,
    }
}

/// Serves a connection (RFC 9112, section 9): each request that its bytes don't refuse is asked once, in order, and its
/// answer is written. The connection ends where the input does, behind a request that says so, behind the hundredth, and
/// behind one that its bytes refuse, which is answered 400, 413, 431 or 501.
///
/// It is the same in whatever pieces the bytes come. Requests that were read together are answered without another
/// read, and their answers are written together before the next. `answerer` may wait. A failure of the source or the sink
/// ends the connection, and so does want of memory.
pub fn serve_connection<R: Wait, A: Answerer, I: Source, O: Sink>(
    rt: &R,
    alloc: Global,
    answerer: &mut A,
    input: &mut I,
    output: &mut O,
) -> ConnectionEnd
    ensures served { HasServed A.answers (I.left input.old) (I.left input.new) answerer.old answerer.new (O.written output.old) (O.written output.new) result }
    ensures reads { I.fault_count input.new ≡ read_faults_after (I.fault_count input.old) result }
    ensures writes { O.fault_count output.new ≡ write_faults_after (O.fault_count output.old) result }
{
    let mut wire = Wire::new(alloc);
    let mut number = 1u64;
    loop {
        let request = match next_request(alloc, number, &mut wire, input, output) {
            Ok(Coming::Asked(request)) => request,
            Ok(Coming::NoMore) => return ConnectionEnd::EndOfInput,
            Ok(Coming::Cut) => return ConnectionEnd::Truncated,
            Ok(Coming::Refused(status)) => return refuse(status, &mut wire.texts, output),
            Err(end) => return end,
        };
        match answer_one(rt, alloc, answerer, &request, &mut wire.texts) {
            Ok(()) => {}
            Err(_) => return ConnectionEnd::NoMemory,
        }
        if request.last {
            return close(&mut wire.texts, output);
        }
        number += 1;
    }
}
