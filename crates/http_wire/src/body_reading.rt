//! Reading a chunked body.
ghost use Rattle.std.specs.Prelude.{◌≡◌, ◌≤◌, ◌++◌, ℕ, List, length, take, IfOk, IfSome, IfNone};
ghost use Rattle.http_wire.specs.ChunkedBody.{IsBodyAt, IsBody, IsLessBody, IsBodyFront};
ghost use Rattle.http_wire.specs.BodyReading.{ReadsBody};

use crate::chunk_needs::{MOST_CONTENT, MOST_FRAMING, begins_body, find_section, is_less_body};
use crate::chunk_scan::{Scan, scan_chunks};
use crate::messages::BodyRead;
use prop_map::OutOfMemory;
use std::alloc::Global;

// The content of the chunked body at the front, and how many bytes follow it.
fn find_body(alloc: Global, bytes: &[u8]) -> Result<Option<(Vec<u8>, usize)>, OutOfMemory>
    ensures some { IfOk result (λ found. IfSome found (λ r. (rest : List ℕ) × IsBodyAt bytes.now r.0.items rest × (r.1 ≡ length rest))) }
    ensures none { IfOk result (λ found. IfNone found ((body rest : List ℕ) → ¬ (IsBodyAt bytes.now body rest))) }
{
    match scan_chunks(alloc, bytes)? {
        Scan::Stuck(_, _) => Ok(None),
        Scan::Ended(content, rest) => match find_section(alloc, rest)? {
            None => Ok(None),
            Some(at) => Ok(Some((content, rest.len() - at))),
        },
    }
}

/// How long the shortest front is that is not less than a body within the limits.
fn shortest(alloc: Global, bytes: &[u8]) -> Result<usize, OutOfMemory>
    requires whole { ¬ (IsLessBody bytes.now) }
    requires short { length bytes.now ≤ MOST_FRAMING }
    ensures bound { IfOk result (λ at. at ≤ length bytes.now) }
    ensures front { IfOk result (λ at. IsBodyFront (take at bytes.now) bytes.now) }
{
    let mut low = 0;
    let mut high = bytes.len();
    while high - low > 1 {
        let middle = low + (high - low) / 2;
        if is_less_body(alloc, &bytes[..middle])? {
            low = middle;
        } else {
            high = middle;
        }
    }
    Ok(high)
}

// The answer where no body within the limits is at the front.
fn refusal(alloc: Global, bytes: &[u8]) -> Result<BodyRead, OutOfMemory>
    requires none { (front rest body : List ℕ) → bytes.now ≡ front ++ rest → ¬ (IsBody front body) }
    requires short { length bytes.now ≤ MOST_FRAMING }
    ensures { IfOk result (ReadsBody bytes.now) }
{
    if is_less_body(alloc, bytes)? {
        return Ok(BodyRead::More);
    }
    let end = shortest(alloc, bytes)?;
    if begins_body(alloc, &bytes[..end])? {
        Ok(BodyRead::TooLarge)
    } else {
        Ok(BodyRead::Bad)
    }
}

/// What the bytes behind a head begin with, read as a chunked body (RFC 9112, section 7.1). Trailers are read and
/// dropped.
///
/// # Errors
/// Only want of memory.
pub fn read_chunks(alloc: Global, bytes: &[u8]) -> Result<BodyRead, OutOfMemory>
    ensures { IfOk result (ReadsBody bytes.now) }
{
    let seen = &bytes[..bytes.len().min(MOST_FRAMING)];
    match find_body(alloc, seen)? {
        None => refusal(alloc, seen),
        Some((content, left)) => {
            let size = content.as_slice().len();
            if size > MOST_CONTENT {
                refusal(alloc, seen)
            } else {
                Ok(BodyRead::Whole {
                    body: prop_map::List::of(content),
                    length: seen.len() - left,
                })
            }
        }
    }
}
