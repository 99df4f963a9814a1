//! What a whole head asks for.
ghost use Rattle.std.specs.Prelude.{◌≡◌, ◌≤◌, length, map, All, IfOk, codes};
ghost use Rattle.httparse.specs.Grammar.{RequestHead};
ghost use Rattle.httparse.specs.Spans.{IsWithin, IsHeaderWithin, header_bytes};
ghost use Rattle.http_wire.specs.HeadMeaning.{lacks_host, plan_of_lines, ends_connection, coded_by, Shows, AnswersHead};
ghost use Rattle.http_wire.specs.FieldValues.{values_named};

use crate::field_values::{count_named, first_named, has_item_named, is_same_word};
use crate::messages::{Framing, Head, HeadRead};
use crate::method_token::read_method;
use crate::target_path::read_path;
use fault_count::decimal;
use http_header::{CONNECTION, CONTENT_LENGTH, HOST, TRANSFER_ENCODING};
use httparse::spans::{HeaderSpan, RequestSpans};
use prop_map::{OutOfMemory, Str};
use std::alloc::Global;
use std::str;

// What the fields say of the body.
#[derive(Clone, Copy, Debug, PartialEq, Eq)]
pub(crate) enum Plan {
    Known(Framing),
    Bad,
    Other,
}

// HTTP/1.1 wants one Host.
fn lacks_host(version: u8, bytes: &[u8], fields: &[HeaderSpan]) -> bool
    requires { All (IsHeaderWithin (length bytes.now)) fields.now }
    ensures { result ≡ lacks_host version (map (header_bytes bytes.now) fields.now) }
{
    version == 1 && count_named(bytes, fields, &HOST) != 1
}

fn ends_connection(version: u8, bytes: &[u8], fields: &[HeaderSpan]) -> bool
    requires { All (IsHeaderWithin (length bytes.now)) fields.now }
    ensures { result ≡ ends_connection version (map (header_bytes bytes.now) fields.now) }
{
    version == 0 || has_item_named(bytes, fields, &CONNECTION, b"close")
}

// How the body comes where no Content-Length is given.
fn coded_plan(bytes: &[u8], fields: &[HeaderSpan]) -> Plan
    requires { All (IsHeaderWithin (length bytes.now)) fields.now }
    ensures { result ≡ coded_by (values_named (codes "transfer-encoding") (map (header_bytes bytes.now) fields.now)) }
{
    match first_named(bytes, fields, &TRANSFER_ENCODING) {
        None => Plan::Known(Framing::Sized(0)),
        Some(coding) => {
            if count_named(bytes, fields, &TRANSFER_ENCODING) == 1
                && is_same_word(coding, b"chunked")
            {
                Plan::Known(Framing::Chunked)
            } else {
                Plan::Other
            }
        }
    }
}

fn plan_of(bytes: &[u8], fields: &[HeaderSpan]) -> Plan
    requires { All (IsHeaderWithin (length bytes.now)) fields.now }
    ensures { result ≡ plan_of_lines (map (header_bytes bytes.now) fields.now) }
{
    let Some(value) = first_named(bytes, fields, &CONTENT_LENGTH) else {
        return coded_plan(bytes, fields);
    };
    if count_named(bytes, fields, &CONTENT_LENGTH) != 1 {
        return Plan::Bad;
    }
    match decimal(value) {
        Some(size) if count_named(bytes, fields, &TRANSFER_ENCODING) == 0 => {
            Plan::Known(Framing::Sized(size))
        }
        _ => Plan::Bad,
    }
}

/// What the head with these parts asks for.
pub(crate) fn head_answer(
    alloc: Global,
    bytes: &[u8],
    parts: &RequestSpans,
    fields: &[HeaderSpan],
) -> Result<HeadRead, OutOfMemory>
    requires method { IsWithin (length bytes.now) parts.now.method }
    requires path { IsWithin (length bytes.now) parts.now.path }
    requires fields { All (IsHeaderWithin (length bytes.now)) fields.now }
    ensures { IfOk result (λ r. (h : RequestHead) → Shows bytes.now parts.now fields.now h → AnswersHead parts.now.len h r) }
{
    let Ok(target) = str::from_utf8(parts.path.of(bytes)) else {
        return Ok(HeadRead::Bad);
    };
    let path = read_path(alloc, target)?;
    if lacks_host(parts.version, bytes, fields) {
        return Ok(HeadRead::Bad);
    }
    let Some(path) = path else {
        return Ok(HeadRead::Bad);
    };
    let framing = match plan_of(bytes, fields) {
        Plan::Bad => return Ok(HeadRead::Bad),
        Plan::Other => return Ok(HeadRead::NotImplemented),
        Plan::Known(framing) => framing,
    };
    let method = parts.method.of(bytes);
    let head_only = method == b"HEAD".as_slice();
    let Some(method) = read_method(alloc, method)? else {
        return Ok(HeadRead::Bad);
    };
    Ok(HeadRead::Whole(Head {
        method,
        target: Str::of(String::from_str(alloc, target)?),
        path: Str::of(path),
        head_only,
        last: ends_connection(parts.version, bytes, fields),
        length: parts.len,
        framing,
    }))
}
