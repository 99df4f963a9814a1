//! What a line is answered.

use crate::arguments::next_text;
use crate::readers::{clauses, document, filter, head, manifest, method, range, target, version};
use prop_map::OutOfMemory;
use std::alloc::Global;
use std::str;

const USAGE: &str =
    "no line: filter TEXT [PROPERTIES], version, range, manifest, clauses, document, head, method or target TEXT";

const NO_UTF8: &str = "no line: this reader takes UTF-8";

/// The answer to a line.
pub(crate) fn reply(alloc: Global, line: &str) -> Result<String, OutOfMemory> {
    if line.is_empty() || line.starts_with('#') {
        return String::from_str(alloc, line);
    }
    let (word, rest) = line.split_once(' ').unwrap_or((line, ""));
    match next_text(alloc, rest)? {
        None => String::from_str(alloc, USAGE),
        Some((text, "")) => answer(alloc, word, text.as_slice()),
        Some((text, behind)) => match next_text(alloc, behind)? {
            Some((properties, "")) if word == "filter" => {
                filter_answer(alloc, text.as_slice(), Some(properties.as_slice()))
            }
            _ => String::from_str(alloc, USAGE),
        },
    }
}

fn answer(alloc: Global, word: &str, bytes: &[u8]) -> Result<String, OutOfMemory> {
    match word {
        "filter" => filter_answer(alloc, bytes, None),
        "manifest" => manifest(alloc, bytes),
        "document" => document(alloc, bytes),
        "head" => head(alloc, bytes),
        "method" => method(alloc, bytes),
        _ => match str::from_utf8(bytes) {
            Ok(text) => text_answer(alloc, word, text),
            Err(_) => String::from_str(alloc, NO_UTF8),
        },
    }
}

fn text_answer(alloc: Global, word: &str, text: &str) -> Result<String, OutOfMemory> {
    match word {
        "version" => version(alloc, text),
        "range" => range(alloc, text),
        "clauses" => clauses(alloc, text),
        "target" => target(alloc, text),
        _ => String::from_str(alloc, USAGE),
    }
}

fn filter_answer(
    alloc: Global,
    bytes: &[u8],
    properties: Option<&[u8]>,
) -> Result<String, OutOfMemory> {
    match str::from_utf8(bytes) {
        Ok(text) => filter(alloc, text, properties),
        Err(_) => String::from_str(alloc, NO_UTF8),
    }
}
