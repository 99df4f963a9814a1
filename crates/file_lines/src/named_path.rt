//! The path that a line names.
ghost use Rattle.std.specs.Prelude.{◌≡◌, MatchOption, false, option_map, true};
ghost use Rattle.std.specs.Str.{is_utf8};
ghost use Rattle.std.specs.Str.Lines.{strip_carriage_return};
ghost use Rattle.file_lines.specs.HandedLines.{path_in};
ghost use Rattle.file_lines.specs.NamedFiles.{before_sign, behind_sign, behind_word, first_word, path_behind};
ghost use Rattle.file_lines.specs.NamedFiles.{path_behind_number, path_behind_word, path_of};

use fault_count::decimal;
use std::str;

/// The most bytes that a line may have before its end.
pub(crate) const LONGEST_LINE: usize = 1_048_576;

const CARRIAGE_RETURN: u8 = b'\r';

// The path that a line names, of what stands before its line feed.
pub(crate) fn path_in(part: &[u8]) -> Option<&str>
    ensures { option_map (λ path. path.now) result ≡ path_in part.now }
{
    if part.len() > LONGEST_LINE {
        return None;
    }
    match as_text(without_return(part)) {
        Some(line) => path_of(line),
        None => None,
    }
}

// The bytes as a text, where they are one.
fn as_text(bytes: &[u8]) -> Option<&str>
    ensures { MatchOption result (is_utf8 bytes.now ≡ false)
        (λ text. (is_utf8 bytes.now ≡ true) × (text.now ≡ bytes.now)) }
{
    match str::from_utf8(bytes) {
        Ok(text) => Some(text),
        Err(_) => None,
    }
}

// A line without the one carriage return at its end.
pub(crate) fn without_return(part: &[u8]) -> &[u8]
    ensures { result.now ≡ strip_carriage_return part.now }
{
    let count = part.len();
    if count == 0 {
        return part;
    }
    let last = count - 1;
    if part[last] == CARRIAGE_RETURN {
        return &part[..last];
    }
    part
}

fn path_of(line: &str) -> Option<&str>
    ensures { option_map (λ path. path.now) result ≡ path_of line.now }
{
    match next_word(line) {
        (word, Some(text)) => path_behind_word(word, text),
        (_, None) => None,
    }
}

// The first word of a text, and what follows the blank behind it, if there is one.
fn next_word(text: &str) -> (&str, Option<&str>)
    ensures word { result.0.now ≡ first_word text.now }
    ensures rest { option_map (λ t. t.now) result.1 ≡ behind_word text.now }
{
    match text.split_once(' ') {
        None => (text, None),
        Some((word, rest)) => (word, Some(rest)),
    }
}

fn path_behind_word<'t>(word: &str, text: &'t str) -> Option<&'t str>
    ensures { option_map (λ path. path.now) result ≡ path_behind_word word.now text.now }
{
    match word {
        "install" => path_behind(text),
        "update" => path_behind_number(text),
        _ => None,
    }
}

fn path_behind_number(text: &str) -> Option<&str>
    ensures { option_map (λ path. path.now) result ≡ path_behind_number text.now }
{
    match next_word(text) {
        (word, Some(document)) => match decimal(word.as_bytes()) {
            Some(_) => path_behind(document),
            None => None,
        },
        (_, None) => None,
    }
}

fn path_behind(document: &str) -> Option<&str>
    ensures { option_map (λ path. path.now) result ≡ path_behind document.now }
{
    let (front, path) = at_sign(document);
    if front.is_empty() { path } else { None }
}

// What stands before the first at sign, and what follows it, if there is one.
fn at_sign(text: &str) -> (&str, Option<&str>)
    ensures front { result.0.now ≡ before_sign text.now }
    ensures rest { option_map (λ t. t.now) result.1 ≡ behind_sign text.now }
{
    match text.split_once('@') {
        None => (text, None),
        Some((front, rest)) => (front, Some(rest)),
    }
}
