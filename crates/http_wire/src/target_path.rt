//! The path of a request target.
ghost use Rattle.std.specs.Prelude.{◌≡◌, ℕ, List, IfOk, MatchOption, option_copied, string_bytes};
ghost use Rattle.std.specs.List.{list_all, list_any};
ghost use Rattle.http_wire.specs.TargetPath.{before_query, from_slash, sent_path, is_dots, IsPath};
ghost use Rattle.http_wire.specs.Pieces.{pieces_by};
ghost use Rattle.httparse.specs.Grammar.{is_uri_byte};

use crate::pieces::Pieces;
use httparse::is_uri_token;
use percent_encoding::{DecodeError, percent_decode};
use prop_map::OutOfMemory;
use std::alloc::{AllocError, Global};

fn before_query(target: &[u8]) -> &[u8]
    ensures { result.now ≡ before_query target.now }
{
    match target.iter().position(|b| *b == b'?') {
        Some(at) => &target[..at],
        None => target,
    }
}

fn from_slash(bytes: &[u8]) -> &[u8]
    ensures { result.now ≡ from_slash bytes.now }
{
    match bytes.iter().position(|b| *b == b'/') {
        Some(at) => &bytes[at..],
        None => &[],
    }
}

/// The path as it was sent.
fn sent_path(target: &[u8]) -> Option<&[u8]>
    ensures { option_copied result ≡ sent_path target.now }
{
    let all = before_query(target);
    if all.starts_with(b"/") {
        return Some(all);
    }
    let rest = all.strip_prefix(b"http://")?;
    match from_slash(rest) {
        [] => Some(b"/"),
        path => Some(path),
    }
}

fn has_dots(path: &[u8]) -> bool
    ensures { result ≡ list_any is_dots (pieces_by 47 path.now) }
{
    Pieces::new(path, b'/').any(|piece| piece == b".".as_slice() || piece == b"..".as_slice())
}

fn is_target(bytes: &[u8]) -> bool
    ensures { result ≡ list_all is_uri_byte bytes.now }
{
    bytes.iter().all(|byte| is_uri_token(*byte))
}

/// The path of a request target, decoded once: of a target that is a path, with or without a query, or of the `http://`
/// form (RFC 9112, sections 3.2.1 and 3.2.2). None exactly where the target has no path that a server may take: it is
/// empty or of another form, it has a byte that may not stand in the target of a head, or its path is no UTF-8 or has
/// a segment `.` or `..`. The head of a request and a line of the shell have this one rule.
///
/// # Errors
/// Only want of memory.
pub fn read_path(alloc: Global, target: &str) -> Result<Option<String>, OutOfMemory>
    ensures { IfOk result (λ found. MatchOption found ((path : List ℕ) → ¬ (IsPath target.now path)) (λ path. IsPath target.now (string_bytes path))) }
{
    if !is_target(target.as_bytes()) {
        return Ok(None);
    }
    let Some(sent) = sent_path(target.as_bytes()) else {
        return Ok(None);
    };
    match percent_decode(sent).decode_utf8(alloc) {
        Ok(text) => {
            let path = text.into_owned(alloc)?;
            if has_dots(path.as_bytes()) {
                Ok(None)
            } else {
                Ok(Some(path))
            }
        }
        Err(DecodeError::Utf8(_)) => Ok(None),
        Err(DecodeError::OutOfMemory) => Err(AllocError),
    }
}
