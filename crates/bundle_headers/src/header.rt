//! One header of a manifest.
ghost use Rattle.std.specs.Prelude.{◌≡◌, ◌∷◌, ◌≤◌, false, Some, IfOk, IsTrue, IsUtf8, length};
ghost use Rattle.bundle_headers.specs.Folding.{joined, text_of};
ghost use Rattle.bundle_headers.specs.Headers.{Gives, header_of, is_begun, later_fault, name_length, name_of, place_in, same_name, starts_value, value_of};
ghost use Rattle.std.specs.Str.{is_utf8};
ghost use Rattle.std.specs.Str.Lossy.{utf8_valid_len};

use crate::HeaderFault;
use crate::blanks::without_blanks;
use crate::folding::Folded;
use crate::headers::Headers;
use crate::line::Line;
use prop_map::{OutOfMemory, Str};
use std::alloc::Global;
use std::str;

const LONGEST_NAME: usize = 70;

/// The header of these lines behind those headers: its name and its value.
///
/// # Errors
/// `BadHeader` where it begins wrongly, `NotUtf8` where it is no text, `DuplicateHeader` where its name is among the
/// headers; the first by line.
pub(crate) fn header(
    alloc: Global,
    bytes: &[u8],
    headers: &Headers,
    folded: &Folded,
) -> Result<(Str, Str), HeaderFault>
    ensures { Gives result (header_of bytes.now headers.now folded.now) }
{
    let text = joined(alloc, bytes, folded)?;
    let text = text.as_slice();
    if folded.first.continues || !is_begun(text) {
        return Err(HeaderFault::BadHeader {
            line: folded.first.number,
        });
    }
    let repeats = headers.has(alloc, name(text))?;
    if let Some(fault) = later_fault(folded, text, repeats) {
        return Err(fault);
    }
    Ok(name_and_value(alloc, text)?)
}

// The bytes of the lines, joined.
fn joined(alloc: Global, bytes: &[u8], folded: &Folded) -> Result<Vec<u8>, OutOfMemory>
    ensures { IfOk result (λ text. text.items ≡ joined bytes.now folded.now) }
{
    let mut text = Vec::from_slice(alloc, text_of(bytes, folded.first))?;
    for line in folded.more.as_slice() {
        text.extend_from_slice(text_of(bytes, *line))?;
    }
    Ok(text)
}

fn text_of(bytes: &[u8], line: Line) -> &[u8]
    ensures { result.now ≡ text_of bytes.now line }
{
    let (_, rest) = bytes.split_at(line.start.min(bytes.len()));
    let length = line.end.saturating_sub(line.start);
    let (text, _) = rest.split_at(length.min(rest.len()));
    text
}

fn is_begun(text: &[u8]) -> bool
    ensures { result ≡ is_begun text.now }
{
    let length = name_length(text);
    let (_, rest) = text.split_at(length);
    1 <= length && length <= LONGEST_NAME && starts_value(rest)
}

fn starts_value(bytes: &[u8]) -> bool
    ensures { result ≡ starts_value bytes.now }
{
    match bytes {
        [colon, blank, ..] => *colon == b':' && *blank == b' ',
        _ => false,
    }
}

fn name_length(text: &[u8]) -> usize
    ensures value { result ≡ name_length text.now }
    ensures within { result ≤ length text.now }
{
    for (at, byte) in text.iter().enumerate() {
        if !(byte.is_ascii_alphanumeric() || *byte == b'-' || *byte == b'_') {
            return at;
        }
    }
    text.len()
}

fn name(text: &[u8]) -> &[u8]
    ensures { result.now ≡ name_of text.now }
{
    let (name, _) = text.split_at(name_length(text));
    name
}

/// Whether two names are the same without ASCII case.
pub(crate) fn same_name(a: &[u8], b: &[u8]) -> bool
    ensures { result ≡ same_name a.now b.now }
{
    a.eq_ignore_ascii_case(b)
}

// The line and the place of a byte of joined lines.
fn place_in(folded: &Folded, byte: usize) -> (usize, usize)
    ensures { result ≡ place_in (folded.now.first ∷ folded.now.more) byte }
{
    let first = folded.first;
    let length = first.end.saturating_sub(first.start);
    if byte < length {
        return (first.number, first.start + byte);
    }
    let mut left = byte - length;
    for line in folded.more.as_slice() {
        let length = line.end.saturating_sub(line.start);
        if left < length {
            return (line.number, line.start + left);
        }
        left -= length;
    }
    (0, 0)
}

// The fault of a header that is no text from this byte on.
fn no_text(folded: &Folded, byte: usize, repeats: bool) -> HeaderFault
    ensures { Some result ≡ later_fault false repeats folded.now.first.number (place_in (folded.now.first ∷ folded.now.more) byte) }
{
    let (line, at) = place_in(folded, byte);
    if repeats && folded.first.number < line {
        HeaderFault::DuplicateHeader {
            line: folded.first.number,
        }
    } else {
        HeaderFault::NotUtf8 { at }
    }
}

// The fault of a header that begins rightly.
fn later_fault(folded: &Folded, text: &[u8], repeats: bool) -> Option<HeaderFault>
    ensures { result ≡ later_fault (is_utf8 text.now) repeats folded.now.first.number (place_in (folded.now.first ∷ folded.now.more) (utf8_valid_len text.now)) }
{
    match str::from_utf8(text) {
        Err(error) => Some(no_text(folded, error.valid_up_to(), repeats)),
        Ok(_) if repeats => Some(HeaderFault::DuplicateHeader {
            line: folded.first.number,
        }),
        Ok(_) => None,
    }
}

fn name_and_value(alloc: Global, text: &[u8]) -> Result<(Str, Str), OutOfMemory>
    requires begun { IsTrue (is_begun text.now) }
    requires utf8 { IsUtf8 text.now }
    ensures { IfOk result (λ header. header ≡ (name_of text.now, value_of text.now)) }
{
    let length = name_length(text);
    let (name, _) = text.split_at(length);
    let (_, value) = text.split_at(length + 2);
    Ok((str_of(alloc, name)?, str_of(alloc, without_blanks(value))?))
}

/// A text of these bytes.
pub(crate) fn str_of(alloc: Global, bytes: &[u8]) -> Result<Str, OutOfMemory>
    requires { IsUtf8 bytes.now }
    ensures { IfOk result (λ text. text ≡ bytes.now) }
{
    match str::from_utf8(bytes) {
        Ok(text) => Ok(Str::of(String::from_str(alloc, text)?)),
        Err(_) => unreachable!(),
    }
}
