//! Whether bytes may become a head.
ghost use Rattle.std.specs.Prelude.{◌≡◌, ◌<◌, ◌≤◌, ◌↔◌, ◌⊎◌, ◌++◌, length, take, drop, IfOk, IsTrue};
ghost use Rattle.http_wire.specs.Continuation.{ending, HasEnd, IsEndedBy, IsHeadOfAtMost};
ghost use Rattle.http_wire.specs.Heads.{BeginsHead, EndsInside, IsInsideWithRoom, GoesOn, IsFront};

use crate::inside_target::ends_inside;
use httparse::Status;
use httparse::spans::{EMPTY_HEADER_SPAN, HeaderSpan, parse_request};
use prop_map::OutOfMemory;
use std::alloc::Global;

pub(crate) const MOST_BYTES: usize = 16384;

pub(crate) const MOST_FIELDS: usize = 64;

// The shortest ends of a head that is cut short: this one without its first bytes, and AFTER_NAME.
const ENDING: &[u8] = b"\nA / HTTP/1.0\n\n";

const AFTER_NAME: &[u8] = b":\n\n";

fn ending_from(skip: usize) -> &'static [u8]
    requires { skip ≤ 15 }
    ensures { result.now ≡ drop skip ending }
{
    &ENDING[skip..]
}

/// Whether the bytes are a whole head whose fields fit the room.
fn is_head(bytes: &[u8], room: &mut [HeaderSpan]) -> bool
    ensures { IsTrue result ↔ IsHeadOfAtMost bytes.now (length room.old) }
{
    match parse_request(bytes, room) {
        Ok(Status::Complete(parts)) => parts.len == bytes.len(),
        _ => false,
    }
}

/// Whether that end makes a head of the bytes.
fn is_ended_by(
    alloc: Global,
    bytes: &[u8],
    tail: &[u8],
    most: usize,
    room: &mut [HeaderSpan],
) -> Result<bool, OutOfMemory>
    ensures { IfOk result (λ b. IsTrue b ↔ IsEndedBy bytes.now tail.now most (length room.old)) }
{
    let mut text = Vec::from_slice(alloc, bytes)?;
    text.extend_from_slice(tail)?;
    Ok(text.len() <= most && is_head(&text, room))
}

/// Whether one of the ends makes a head of the bytes.
fn has_end(
    alloc: Global,
    bytes: &[u8],
    most: usize,
    room: &mut [HeaderSpan],
) -> Result<bool, OutOfMemory>
    ensures { IfOk result (λ b. IsTrue b ↔ HasEnd bytes.now most (length room.old)) }
{
    if is_ended_by(alloc, bytes, AFTER_NAME, most, room)? {
        return Ok(true);
    }
    for skip in 0..15 {
        if is_ended_by(alloc, bytes, ending_from(skip), most, room)? {
            return Ok(true);
        }
    }
    Ok(false)
}

// The shortest end behind a target has 11 bytes.
fn is_inside_with_room(bytes: &[u8]) -> bool
    ensures { IsTrue result ↔ IsInsideWithRoom bytes.now }
{
    bytes.len() <= MOST_BYTES - 11 && ends_inside(bytes)
}

/// Whether the bytes may become a head within the limits.
pub(crate) fn goes_on(alloc: Global, bytes: &[u8]) -> Result<bool, OutOfMemory>
    ensures { IfOk result (λ b. IsTrue b ↔ GoesOn bytes.now) }
{
    if bytes.len() > MOST_BYTES {
        return Ok(false);
    }
    if is_inside_with_room(bytes) {
        return Ok(true);
    }
    let mut room = [EMPTY_HEADER_SPAN; MOST_FIELDS];
    has_end(alloc, bytes, MOST_BYTES, &mut room)
}

/// Whether the bytes may become a head, however long.
pub(crate) fn begins_head(alloc: Global, bytes: &[u8]) -> Result<bool, OutOfMemory>
    requires { length bytes.now ≤ MOST_BYTES }
    ensures { IfOk result (λ b. IsTrue b ↔ (BeginsHead bytes.now ⊎ EndsInside bytes.now)) }
{
    if ends_inside(bytes) {
        return Ok(true);
    }
    let mut room = Vec::new(alloc);
    room.resize(MOST_BYTES, EMPTY_HEADER_SPAN)?;
    if is_head(bytes, &mut room) {
        return Ok(true);
    }
    has_end(alloc, bytes, usize::MAX, &mut room)
}

/// How long the shortest front is that may not become a head within the limits.
pub(crate) fn shortest(alloc: Global, bytes: &[u8]) -> Result<usize, OutOfMemory>
    requires { ¬ (GoesOn bytes.now) }
    ensures bound { IfOk result (λ at. at ≤ length bytes.now) }
    ensures front { IfOk result (λ at. IsFront (take at bytes.now) bytes.now) }
{
    let mut low = 0;
    let mut high = bytes.len();
    while high - low > 1 {
        let middle = low + (high - low) / 2;
        if goes_on(alloc, &bytes[..middle])? {
            low = middle;
        } else {
            high = middle;
        }
    }
    Ok(high)
}
