//! The lines of a document.
ghost use Rattle.std.specs.Prelude.{◌≡◌, ◌≤◌, ◌<◌, IfOk, false, length};
ghost use Rattle.bundle_headers.specs.Lines.{end_length, line_length, marked, plain_line, section};

use prop_map::OutOfMemory;
use std::alloc::Global;

/// A line of a document, by the places where its text begins and ends.
#[derive(Clone, Copy)]
pub(crate) struct Line {
    /// From 1.
    pub(crate) number: usize,
    /// Whether it began with a blank, and so continues the line before it.
    pub(crate) continues: bool,
    /// The place of its first byte, behind that blank.
    pub(crate) start: usize,
    /// The place behind its last byte, before the line's end.
    pub(crate) end: usize,
}

/// The lines up to the first empty one.
pub(crate) fn section(alloc: Global, bytes: &[u8]) -> Result<Vec<Line>, OutOfMemory>
    ensures { IfOk result (λ lines. lines.items ≡ section bytes.now) }
{
    let mut lines = Vec::new(alloc);
    let mut number = 1;
    let mut start = 0;
    while start < bytes.len() {
        let (_, rest) = bytes.split_at(start);
        let length = line_length(rest);
        if length == 0 {
            break;
        }
        let (_, behind) = rest.split_at(length);
        lines.push(marked(bytes, number, start, start + length))?;
        start += length + end_length(behind);
        number += 1;
    }
    Ok(lines)
}

// Without its blank, if it begins with one.
fn marked(bytes: &[u8], number: usize, start: usize, end: usize) -> Line
    requires { start < length bytes.now }
    ensures { result ≡ marked bytes.now (plain_line number start end) }
{
    let continues = bytes[start] == b' ';
    Line {
        number,
        continues,
        start: if continues { start + 1 } else { start },
        end,
    }
}

// How many bytes stand before the first end of a line.
fn line_length(bytes: &[u8]) -> usize
    ensures value { result ≡ line_length bytes.now }
    ensures within { result ≤ length bytes.now }
{
    for (at, byte) in bytes.iter().enumerate() {
        if *byte == b'\r' || *byte == b'\n' {
            return at;
        }
    }
    bytes.len()
}

// How many bytes the end of a line takes with which these begin.
fn end_length(bytes: &[u8]) -> usize
    ensures value { result ≡ end_length bytes.now }
    ensures within { result ≤ length bytes.now }
{
    match bytes {
        [b'\r', b'\n', ..] => 2,
        [b'\r' | b'\n', ..] => 1,
        _ => 0,
    }
}
