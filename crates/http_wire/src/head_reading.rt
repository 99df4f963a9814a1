//! Reading the head of a request.
ghost use Rattle.std.specs.Prelude.{◌≡◌, ◌≤◌, ℕ, List, length, count_by, IsTrue, IfOk, IfErr, OnErr};
ghost use Rattle.httparse.specs.Grammar.{RequestHead, ReadsRequest, HasNoRequest, MayBecomeRequest};
ghost use Rattle.httparse.specs.Spans.{IsRequestWithin, IsRequestOf};
ghost use Rattle.http_wire.specs.HeadFronts.{is_feed, HasRoom};
ghost use Rattle.http_wire.specs.HeadMeaning.{ReadsHead};
ghost use Rattle.http_wire.specs.Heads.{GoesOn};

use crate::continuation::{MOST_BYTES, MOST_FIELDS, begins_head, goes_on, shortest};
use crate::head_meaning::head_answer;
use crate::messages::HeadRead;
use httparse::Status;
use httparse::spans::{EMPTY_HEADER_SPAN, HeaderSpan, RequestSpans, parse_request};
use prop_map::OutOfMemory;
use std::alloc::Global;

// The longest end that a head may lack, and its lines.
const MOST_END: usize = 15;

const MOST_END_LINES: usize = 3;

/// The parts of the head that the bytes begin with, if its fields fit the room; else whether the parser wants more.
fn find_head(bytes: &[u8], room: &mut [HeaderSpan]) -> Result<RequestSpans, bool>
    ensures within { IfOk result (IsRequestWithin bytes.now room.new) }
    ensures some { IfOk result (IsRequestOf bytes.now room.new) }
    ensures none { OnErr result ((h : RequestHead) (rest : List ℕ) → ReadsRequest bytes.now h rest → ¬ (length h.fields ≤ length room.old)) }
    ensures more { IfErr result (λ more. IsTrue more → HasNoRequest bytes.now × MayBecomeRequest bytes.now) }
{
    match parse_request(bytes, room) {
        Ok(Status::Complete(parts)) => Ok(parts),
        Ok(Status::Partial) => Err(true),
        Err(_) => Err(false),
    }
}

fn count_feeds(bytes: &[u8]) -> usize
    ensures { result ≡ count_by is_feed bytes.now }
{
    let mut count = 0;
    for byte in bytes {
        if *byte == b'\n' {
            count += 1;
        }
    }
    count
}

/// Whether the end that a head may lack has room behind these bytes, whatever it is.
fn has_room(bytes: &[u8]) -> bool
    ensures { IsTrue result → HasRoom bytes.now }
{
    if bytes.len() > MOST_BYTES - MOST_END {
        return false;
    }
    count_feeds(bytes) <= MOST_FIELDS - MOST_END_LINES
}

/// Whether the bytes surely may become a head within the limits, by what the parser says.
fn is_unfinished(bytes: &[u8], more: bool) -> bool
    requires { IsTrue more → HasNoRequest bytes.now × MayBecomeRequest bytes.now }
    ensures { IsTrue result → GoesOn bytes.now }
{
    if more { has_room(bytes) } else { false }
}

// The answer to bytes that begin with no head within the limits. In the ordinary case the parser wants more, and there
// is room for it.
fn without_head(alloc: Global, bytes: &[u8], more: bool) -> Result<HeadRead, OutOfMemory>
    requires short { length bytes.now ≤ MOST_BYTES }
    requires none { (h : RequestHead) (rest : List ℕ) → ReadsRequest bytes.now h rest → ¬ (length h.fields ≤ 64) }
    requires more { IsTrue more → HasNoRequest bytes.now × MayBecomeRequest bytes.now }
    ensures { IfOk result (ReadsHead bytes.now) }
{
    if is_unfinished(bytes, more) {
        return Ok(HeadRead::More);
    }
    if goes_on(alloc, bytes)? {
        return Ok(HeadRead::More);
    }
    let end = shortest(alloc, bytes)?;
    if begins_head(alloc, &bytes[..end])? {
        Ok(HeadRead::TooLarge)
    } else {
        Ok(HeadRead::Bad)
    }
}

/// What the bytes begin with, read as a request head (RFC 9112, sections 2 to 6) of at most 16,384 bytes and 64 fields.
/// Bytes behind the shortest front that is not less than a head change nothing. Of a head that is whole only the texts
/// that are kept take memory; more is mostly told by one parse, without any.
///
/// # Errors
/// Only want of memory.
pub fn read_head(alloc: Global, bytes: &[u8]) -> Result<HeadRead, OutOfMemory>
    ensures { IfOk result (ReadsHead bytes.now) }
{
    let seen = &bytes[..bytes.len().min(MOST_BYTES)];
    let mut room = [EMPTY_HEADER_SPAN; MOST_FIELDS];
    match find_head(seen, &mut room) {
        Ok(parts) => head_answer(alloc, seen, &parts, &room[..parts.headers]),
        Err(more) => without_head(alloc, seen, more),
    }
}
