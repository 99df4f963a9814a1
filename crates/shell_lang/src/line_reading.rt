//! A line read from bytes.
ghost use Rattle.std.specs.Prelude.{◌≡◌, MatchOption, false, true};
ghost use Rattle.std.specs.Str.{is_utf8};
ghost use Rattle.shell_lang.specs.LineFaults.{Reads};
ghost use Rattle.shell_lang.specs.ShellLines.{ReadsLine, is_silent, shell_line, text_line};

use crate::line_forms::worded_line;
use crate::words::next_word;
use crate::{LineFault, ShellLine};
use std::alloc::Global;
use std::str;

/// What a line asks.
///
/// # Errors
/// The first of these. `UnknownCommand` exactly where the line isn't silent and is no text in UTF-8, or its first word is
/// no command; `BadWords` where a word doesn't fit or is missing, with the number of the first such; `NoFile` exactly where
/// the words fit and the document's text begins with `@`; `Document`, `NotJson`, `Properties` and `FilterText`, what is
/// wrong first with the document, the properties or the filter that it has. Otherwise only want of memory.
pub fn read_line(alloc: Global, line: &[u8]) -> Result<ShellLine, LineFault>
    ensures { ReadsLine line.now result }
{
    if is_silent(line) {
        return Ok(ShellLine::Silent);
    }
    match as_text(line) {
        None => Err(LineFault::UnknownCommand),
        Some(text) => text_line(alloc, text),
    }
}

fn is_silent(line: &[u8]) -> bool
    ensures { result ≡ is_silent line.now }
{
    match line {
        [] => true,
        [first, ..] => *first == b'#',
    }
}

// The bytes as a text, where they are one.
fn as_text(bytes: &[u8]) -> Option<&str>
    ensures { MatchOption result (is_utf8 bytes.now ≡ false) (λ text. (is_utf8 bytes.now ≡ true) × (text.now ≡ bytes.now)) }
{
    match str::from_utf8(bytes) {
        Ok(text) => Some(text),
        Err(_) => None,
    }
}

fn text_line(alloc: Global, line: &str) -> Result<ShellLine, LineFault>
    ensures { Reads (text_line line.now) result }
{
    let (word, rest) = next_word(line);
    worded_line(alloc, word, rest)
}
