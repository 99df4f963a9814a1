//! The texts that a line gives to a reader.

use prop_map::OutOfMemory;
use serde_json::Value;
use std::alloc::Global;

/// The bytes of the first text, and what stands behind it and one blank; none where no text stands there.
pub(crate) fn next_text(alloc: Global, rest: &str) -> Result<Option<(Vec<u8>, &str)>, OutOfMemory> {
    if let Some(digits) = rest.strip_prefix("bytes ") {
        let (digits, behind) = digits.split_once(' ').unwrap_or((digits, ""));
        return Ok(
            hex::decode(alloc, digits.as_bytes())
                .ok()
                .map(|bytes| (bytes, behind)),
        );
    }
    let Some((quoted, behind)) = cut_quoted(rest) else {
        return Ok(None);
    };
    match Value::from_str(alloc, quoted) {
        Ok(Value::String(text)) => Ok(Some((text.into_bytes(), behind))),
        _ => Ok(None),
    }
}

// A text in quotes with its quotes, and what stands behind it and one blank.
fn cut_quoted(rest: &str) -> Option<(&str, &str)> {
    let end = quoted_length(rest)?;
    let quoted = rest.get(..end)?;
    let behind = rest.get(end..)?;
    if behind.is_empty() {
        return Some((quoted, ""));
    }
    Some((quoted, behind.strip_prefix(' ')?))
}

// How many bytes a text in quotes takes that stands first.
fn quoted_length(rest: &str) -> Option<usize> {
    let mut is_escaped = false;
    for (at, byte) in rest.as_bytes().iter().enumerate() {
        if at == 0 {
            if *byte != b'"' {
                return None;
            }
        } else if is_escaped {
            is_escaped = false;
        } else if *byte == b'"' {
            return Some(at + 1);
        } else {
            is_escaped = *byte == b'\\';
        }
    }
    None
}
