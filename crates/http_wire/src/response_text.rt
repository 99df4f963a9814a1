//! Writing a response.
ghost use Rattle.std.specs.Prelude.{◌≡◌, ◌++◌, codes, IfOk, OnOk, OnErr, decimal};
ghost use Rattle.http.specs.StatusCode.{IsStatusCode, reason_phrase};
ghost use Rattle.http_wire.specs.ResponseText.{phrase_or_none, status_text, line, line_if, response_head, response_text, Grows};

use crate::messages::Answered;
use http::StatusCode;
use http_header::{CONNECTION, CONTENT_LENGTH, CONTENT_TYPE, HeaderName};
use itoa::Buffer;
use prop_map::OutOfMemory;
use std::alloc::Global;

fn phrase_of(status: u16) -> &'static str
    requires { IsStatusCode status }
    ensures { result.now ≡ phrase_or_none (reason_phrase status) }
{
    match StatusCode::from_u16(status) {
        Ok(code) => code.canonical_reason().unwrap_or(""),
        Err(_) => "",
    }
}

fn push(bytes: &mut Vec<u8>, part: &[u8]) -> Result<(), OutOfMemory>
    ensures ok { OnOk result (bytes.new.items ≡ bytes.old.items ++ part.now) }
    ensures grows { Grows bytes.old.items bytes.new.items }
{
    bytes.extend_from_slice(part)
}

// The number of a status, a blank and its phrase.
#[tactic(auto, using(crate::proofs::ResponseTextLemmas::grows_on), unfolding(crate::specs::ResponseText::status_text))]
fn push_status(bytes: &mut Vec<u8>, status: u16) -> Result<(), OutOfMemory>
    requires { IsStatusCode status }
    ensures ok { OnOk result (bytes.new.items ≡ bytes.old.items ++ status_text status) }
    ensures grows { Grows bytes.old.items bytes.new.items }
{
    let mut digits = Buffer::new();
    push(bytes, digits.format(status).as_bytes())?;
    push(bytes, b" ")?;
    push(bytes, phrase_of(status).as_bytes())
}

// A field of an answer: its name, a colon and a blank, its value and CRLF.
#[tactic(auto, unfolding(crate::specs::ResponseText::line))]
fn push_field(bytes: &mut Vec<u8>, name: &HeaderName, value: &[u8]) -> Result<(), OutOfMemory>
    ensures ok { OnOk result (bytes.new.items ≡ bytes.old.items ++ line (name.now ++ codes ": ") value.now) }
    ensures grows { Grows bytes.old.items bytes.new.items }
{
    bytes.extend_from_slice(name.as_bytes())?;
    bytes.extend_from_slice(b": ")?;
    bytes.extend_from_slice(value)?;
    bytes.extend_from_slice(b"\r\n")
}

fn push_number_field(bytes: &mut Vec<u8>, name: &HeaderName, number: u64) -> Result<(), OutOfMemory>
    ensures ok { OnOk result (bytes.new.items ≡ bytes.old.items ++ line (name.now ++ codes ": ") (decimal number)) }
    ensures grows { Grows bytes.old.items bytes.new.items }
{
    let mut digits = Buffer::new();
    push_field(bytes, name, digits.format(number).as_bytes())
}

fn push_field_if(
    bytes: &mut Vec<u8>,
    asked: bool,
    name: &HeaderName,
    value: &[u8],
) -> Result<(), OutOfMemory>
    ensures ok { OnOk result (bytes.new.items ≡ bytes.old.items ++ line_if asked (name.now ++ codes ": ") value.now) }
    ensures grows { Grows bytes.old.items bytes.new.items }
{
    if asked {
        push_field(bytes, name, value)
    } else {
        Ok(())
    }
}

#[tactic(auto, using(crate::proofs::ResponseTextLemmas::grows_on), unfolding(crate::specs::ResponseText::line))]
fn push_status_line(bytes: &mut Vec<u8>, status: u16) -> Result<(), OutOfMemory>
    requires { IsStatusCode status }
    ensures ok { OnOk result (bytes.new.items ≡ bytes.old.items ++ line (codes "HTTP/1.1 ") (status_text status)) }
    ensures grows { Grows bytes.old.items bytes.new.items }
{
    push(bytes, b"HTTP/1.1 ")?;
    push_status(bytes, status)?;
    push(bytes, b"\r\n")
}

#[tactic(auto, using(crate::proofs::ResponseTextLemmas::grows_on))]
fn push_head(bytes: &mut Vec<u8>, answer: &Answered) -> Result<(), OutOfMemory>
    requires { IsStatusCode answer.now.status }
    ensures ok { OnOk result (bytes.new.items ≡ bytes.old.items ++ response_head answer.now) }
    ensures grows { Grows bytes.old.items bytes.new.items }
{
    let length = answer.body.as_slice().len();
    let service = HeaderName::from_static("service-id");
    push_status_line(bytes, answer.status)?;
    push_number_field(bytes, &service, answer.service)?;
    push_field_if(
        bytes,
        answer.status == 200,
        &CONTENT_TYPE,
        b"text/plain; charset=utf-8",
    )?;
    push_number_field(bytes, &CONTENT_LENGTH, length as u64)?;
    push_field_if(bytes, answer.last, &CONNECTION, b"close")?;
    push(bytes, b"\r\n")?;
    Ok(())
}

#[tactic(auto, using(crate::proofs::ResponseTextLemmas::grows_on), unfolding(crate::specs::ResponseText::response_text))]
fn push_text(bytes: &mut Vec<u8>, answer: &Answered) -> Result<(), OutOfMemory>
    requires { IsStatusCode answer.now.status }
    ensures ok { OnOk result (bytes.new.items ≡ bytes.old.items ++ response_text answer.now) }
    ensures grows { Grows bytes.old.items bytes.new.items }
{
    push_head(bytes, answer)?;
    if answer.head_only {
        Ok(())
    } else {
        push(bytes, answer.body.as_slice())
    }
}

/// Appends the bytes of a response (RFC 9112, section 4): its head, and the body unless the request was HEAD. It takes
/// memory only as the buffer grows.
///
/// # Errors
/// Only want of memory; the buffer is then as it was.
pub fn push_response(bytes: &mut Vec<u8>, answer: &Answered) -> Result<(), OutOfMemory>
    requires { IsStatusCode answer.now.status }
    ensures ok { OnOk result (bytes.new.items ≡ bytes.old.items ++ response_text answer.now) }
    ensures err { OnErr result (bytes.new.items ≡ bytes.old.items) }
{
    let before = bytes.len();
    let pushed = push_text(bytes, answer);
    if pushed.is_err() {
        bytes.truncate(before);
    }
    pushed
}

/// The bytes of a response (RFC 9112, section 4): its head, and the body unless the request was HEAD.
///
/// # Errors
/// Only want of memory.
pub fn write_response(alloc: Global, answer: &Answered) -> Result<Vec<u8>, OutOfMemory>
    requires { IsStatusCode answer.now.status }
    ensures { IfOk result (λ bytes. bytes.items ≡ response_text answer.now) }
{
    let mut bytes = Vec::new(alloc);
    push_response(&mut bytes, answer)?;
    Ok(bytes)
}
