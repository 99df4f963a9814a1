//! What bytes lack to be a chunked body.
ghost use Rattle.std.specs.Prelude.{◌≡◌, ◌≢◌, ◌++◌, ◌∷◌, [], ◌+◌, ◌-◌, ◌≤◌, ◌↔◌, bytes_eq, if◌then◌else◌, length, drop, IfOk, IfSome, IfNone, IsTrue, ℕ, List};
ghost use Rattle.httparse.specs.Grammar.{Field, LineEnd, ReadsSection, HasNoSection, ChunkLine, IsChunkLine, print_chunk_line};
ghost use Rattle.http_wire.specs.ChunkedBody.{HasSection, IsLessBody, BeginsBody};
ghost use Rattle.http_wire.specs.ChunkScan.{IsStuck};
ghost use Rattle.http_wire.specs.ChunkContinuation.{IsSection, NeedsOfSection, NeedsOf, IsWholeBody, needs_of, needs_behind, needs_ended, needs_of_line, needs_of_chunk, line_ending, IsCutLine, leaves_room, may_begin};

use crate::chunk_scan::{Scan, find_line, scan_chunks};
use httparse::Status;
use httparse::spans::{EMPTY_HEADER_SPAN, HeaderSpan, parse_headers};
use prop_map::OutOfMemory;
use std::alloc::Global;

pub(crate) const MOST_FRAMING: usize = 1048576;

pub(crate) const MOST_CONTENT: usize = 65536;

/// What bytes lack to be a chunked body.
#[derive(Clone, Copy)]
pub(crate) enum Needs {
    /// No bytes make one of them.
    Never,
    /// Some bytes make one, each with more content than the limit.
    TooMuch,
    /// So many bytes at least, and the content of the body then.
    Least(usize, usize),
}

/// How long the section of fields at the front is, if its fields fit the room.
fn find_section_in(bytes: &[u8], room: &mut [HeaderSpan]) -> Option<usize>
    ensures some { IfSome result (λ at. (at ≤ length bytes.now) × HasSection bytes.now (drop at bytes.now)) }
    ensures none { IfNone result ((fields : List Field) (end : LineEnd) (rest : List ℕ) → ReadsSection bytes.now fields end rest → ¬ (length fields ≤ length room.old)) }
{
    match parse_headers(bytes, room) {
        Ok(Status::Complete((at, _))) => Some(at),
        _ => None,
    }
}

/// How long the section of fields at the front is.
pub(crate) fn find_section(alloc: Global, bytes: &[u8]) -> Result<Option<usize>, OutOfMemory>
    ensures some { IfOk result (λ found. IfSome found (λ at. (at ≤ length bytes.now) × HasSection bytes.now (drop at bytes.now))) }
    ensures none { IfOk result (λ found. IfNone found (HasNoSection bytes.now)) }
{
    let mut room = Vec::new(alloc);
    room.resize(bytes.len() / 3 + 1, EMPTY_HEADER_SPAN)?;
    Ok(find_section_in(bytes, &mut room))
}

/// The text with that end.
fn with_end(alloc: Global, bytes: &[u8], end: &[u8]) -> Result<Vec<u8>, OutOfMemory>
    ensures { IfOk result (λ text. text.items ≡ bytes.now ++ end.now) }
{
    let mut text = Vec::from_slice(alloc, bytes)?;
    text.extend_from_slice(end)?;
    Ok(text)
}

/// Whether the bytes with that end are a section of fields.
fn is_section(alloc: Global, bytes: &[u8], end: &[u8]) -> Result<bool, OutOfMemory>
    ensures { IfOk result (λ b. IsTrue b ↔ IsSection (bytes.now ++ end.now)) }
{
    let text = with_end(alloc, bytes, end)?;
    match find_section(alloc, &text)? {
        Some(at) => Ok(at == text.len()),
        None => Ok(false),
    }
}

/// How many bytes a section of fields lacks, if some make one.
fn section_needs(alloc: Global, bytes: &[u8]) -> Result<Option<usize>, OutOfMemory>
    ensures { IfOk result (NeedsOfSection bytes.now) }
{
    if is_section(alloc, bytes, b"")? {
        return Ok(Some(0));
    }
    if is_section(alloc, bytes, b"\n")? {
        return Ok(Some(1));
    }
    if is_section(alloc, bytes, b"\n\n")? {
        return Ok(Some(2));
    }
    if is_section(alloc, bytes, b":\n\n")? {
        return Ok(Some(3));
    }
    Ok(None)
}

fn ending_behind(cr: bool) -> &'static [u8]
    ensures { result.now ≡ (if cr then 10 ∷ [] else 13 ∷ 10 ∷ []) }
{
    if cr { b"\n" } else { b"\r\n" }
}

fn line_ending(bytes: &[u8]) -> &'static [u8]
    ensures { result.now ≡ line_ending bytes.now }
{
    match bytes {
        [] => b"0\r\n",
        [_, ..] => ending_behind(is_cr(&bytes[bytes.len() - 1..])),
    }
}

/// How many bytes a chunk line that is cut lacks, and the size that it then gives.
fn cut_line(alloc: Global, bytes: &[u8]) -> Result<Option<(usize, u64)>, OutOfMemory>
    ensures some { IfOk result (λ found. IfSome found (λ r. IsCutLine bytes.now r.0 r.1)) }
    ensures none { IfOk result (λ found. IfNone found ((l : ChunkLine) → IsChunkLine l → bytes.now ++ line_ending bytes.now ≢ print_chunk_line l)) }
{
    let end = line_ending(bytes);
    let text = with_end(alloc, bytes, end)?;
    match find_line(&text) {
        None => Ok(None),
        Some((at, size)) => {
            if at == text.len() {
                Ok(Some((end.len(), size)))
            } else {
                Ok(None)
            }
        }
    }
}

fn needs_of(count: usize, size: usize) -> Needs
    ensures { result ≡ needs_of count size }
{
    if size > MOST_CONTENT {
        Needs::TooMuch
    } else {
        Needs::Least(count, size)
    }
}

// The shortest rest of a body behind the last byte of a chunk has six bytes.
fn needs_of_line(lacking: usize, size: u64) -> Needs
    requires { lacking ≤ 3 }
    ensures { result ≡ needs_of_line lacking size }
{
    if size == 0 {
        return Needs::Least(lacking + 1, 0);
    }
    if size > MOST_CONTENT as u64 {
        return Needs::TooMuch;
    }
    Needs::Least(lacking + size as usize + 6, size as usize)
}

fn needs_of_cut_chunk(count: usize, size: u64) -> Needs
    requires { count ≤ size }
    ensures { result ≡ needs_of (size - count + 6) size }
{
    if size > MOST_CONTENT as u64 {
        Needs::TooMuch
    } else {
        Needs::Least(size as usize - count + 6, size as usize)
    }
}

fn is_cr(bytes: &[u8]) -> bool
    ensures { result ≡ bytes_eq bytes.now (13 ∷ []) }
{
    bytes == b"\r".as_slice()
}

fn needs_of_chunk(bytes: &[u8], size: u64) -> Needs
    ensures { result ≡ needs_of_chunk bytes.now size }
{
    if bytes.len() as u64 <= size {
        return needs_of_cut_chunk(bytes.len(), size);
    }
    let size = size as usize;
    if is_cr(&bytes[size..]) {
        needs_of(5, size)
    } else {
        Needs::Never
    }
}

fn needs_behind(content: &[u8], needs: Needs) -> Needs
    ensures { result ≡ needs_behind (length content.now) needs }
{
    match needs {
        Needs::Least(count, size) => match content.len().checked_add(size) {
            Some(sum) => needs_of(count, sum),
            None => Needs::TooMuch,
        },
        Needs::Never => Needs::Never,
        Needs::TooMuch => Needs::TooMuch,
    }
}

fn needs_ended(content: &[u8], count: Option<usize>) -> Needs
    ensures { result ≡ needs_ended (length content.now) count }
{
    match count {
        None => Needs::Never,
        Some(count) => needs_of(count, content.len()),
    }
}

// What bytes lack that begin with neither a chunk nor the line of the size 0.
fn stuck_needs(alloc: Global, bytes: &[u8]) -> Result<Needs, OutOfMemory>
    requires { IsStuck bytes.now }
    ensures { IfOk result (NeedsOf IsWholeBody bytes.now) }
{
    match find_line(bytes) {
        Some((at, size)) => Ok(needs_of_chunk(&bytes[at..], size)),
        None => match cut_line(alloc, bytes)? {
            None => Ok(Needs::Never),
            Some((lacking, size)) => Ok(needs_of_line(lacking, size)),
        },
    }
}

// What bytes lack to be a chunked body.
fn body_needs(alloc: Global, bytes: &[u8]) -> Result<Needs, OutOfMemory>
    ensures { IfOk result (NeedsOf IsWholeBody bytes.now) }
{
    match scan_chunks(alloc, bytes)? {
        Scan::Ended(content, rest) => {
            let count = section_needs(alloc, rest)?;
            Ok(needs_ended(content.as_slice(), count))
        }
        Scan::Stuck(content, rest) => {
            let needs = stuck_needs(alloc, rest)?;
            Ok(needs_behind(content.as_slice(), needs))
        }
    }
}

fn leaves_room(needs: Needs, length: usize) -> bool
    requires { length ≤ MOST_FRAMING }
    ensures { result ≡ leaves_room needs length }
{
    match needs {
        Needs::Least(count, _) => 0 < count && count <= MOST_FRAMING - length,
        Needs::Never => false,
        Needs::TooMuch => false,
    }
}

fn may_begin(needs: Needs) -> bool
    ensures { result ≡ may_begin needs }
{
    match needs {
        Needs::Never => false,
        Needs::TooMuch => true,
        Needs::Least(_, _) => true,
    }
}

/// Whether the bytes are less than a chunked body within the limits.
pub(crate) fn is_less_body(alloc: Global, bytes: &[u8]) -> Result<bool, OutOfMemory>
    requires { length bytes.now ≤ MOST_FRAMING }
    ensures { IfOk result (λ b. IsTrue b ↔ IsLessBody bytes.now) }
{
    let needs = body_needs(alloc, bytes)?;
    Ok(leaves_room(needs, bytes.len()))
}

/// Whether some bytes, or none, make a chunked body of these, however long.
pub(crate) fn begins_body(alloc: Global, bytes: &[u8]) -> Result<bool, OutOfMemory>
    ensures { IfOk result (λ b. IsTrue b ↔ BeginsBody bytes.now) }
{
    let needs = body_needs(alloc, bytes)?;
    Ok(may_begin(needs))
}
