//! What each reader answers, as a line.

use bundle_doc::read_bundle;
use bundle_headers::{Clauses, Manifest};
use http_wire::{Framing, Head, HeadRead, read_head, read_method, read_path};
use ldap_filter::Filter;
use osgi_version::{Bound, Version, VersionRange};
use prop_map::{OutOfMemory, Properties};
use serde_json::Value;
use std::alloc::Global;

pub(crate) fn filter(
    alloc: Global,
    text: &str,
    properties: Option<&[u8]>,
) -> Result<String, OutOfMemory> {
    let filter = match Filter::parse(alloc, text) {
        Ok(filter) => filter,
        Err(fault) => return format!(in alloc; "{fault:?}"),
    };
    let Some(bytes) = properties else {
        return String::from_str(alloc, "read");
    };
    let Ok(json) = Value::from_slice(alloc, bytes) else {
        return String::from_str(alloc, "no line: the properties are no JSON");
    };
    match Properties::from_json(alloc, &json) {
        Ok(properties) => format!(in alloc; "{}", filter.matches(&properties)),
        Err(fault) => format!(in alloc; "{fault:?}"),
    }
}

pub(crate) fn version(alloc: Global, text: &str) -> Result<String, OutOfMemory> {
    match Version::parse(alloc, text) {
        Ok(version) => version.text(alloc),
        Err(fault) => format!(in alloc; "{fault:?}"),
    }
}

pub(crate) fn range(alloc: Global, text: &str) -> Result<String, OutOfMemory> {
    match VersionRange::parse(alloc, text) {
        Ok(range) => range_text(alloc, &range),
        Err(fault) => format!(in alloc; "{fault:?}"),
    }
}

fn range_text(alloc: Global, range: &VersionRange) -> Result<String, OutOfMemory> {
    let floor = range.floor.version.text(alloc)?;
    match &range.ceiling {
        None => Ok(floor),
        Some(ceiling) => {
            let behind = ceiling.version.text(alloc)?;
            let (opened, closed) = brackets(&range.floor, ceiling);
            format!(in alloc; "{opened}{floor},{behind}{closed}")
        }
    }
}

fn brackets(floor: &Bound, ceiling: &Bound) -> (char, char) {
    let opened = if floor.inclusive { '[' } else { '(' };
    let closed = if ceiling.inclusive { ']' } else { ')' };
    (opened, closed)
}

pub(crate) fn manifest(alloc: Global, bytes: &[u8]) -> Result<String, OutOfMemory> {
    match Manifest::parse(alloc, bytes) {
        Ok(manifest) => format!(in alloc; "{manifest:?}"),
        Err(fault) => format!(in alloc; "{fault:?}"),
    }
}

pub(crate) fn clauses(alloc: Global, text: &str) -> Result<String, OutOfMemory> {
    match Clauses::parse(alloc, text) {
        Ok(clauses) => format!(in alloc; "{clauses:?}"),
        Err(fault) => format!(in alloc; "{fault:?}"),
    }
}

pub(crate) fn document(alloc: Global, bytes: &[u8]) -> Result<String, OutOfMemory> {
    match read_bundle(alloc, bytes) {
        Ok(document) => format!(in alloc; "{document:?}"),
        Err(fault) => format!(in alloc; "{fault:?}"),
    }
}

pub(crate) fn head(alloc: Global, bytes: &[u8]) -> Result<String, OutOfMemory> {
    match read_head(alloc, bytes)? {
        HeadRead::More => String::from_str(alloc, "More"),
        HeadRead::Bad => String::from_str(alloc, "Bad"),
        HeadRead::TooLarge => String::from_str(alloc, "TooLarge"),
        HeadRead::NotImplemented => String::from_str(alloc, "NotImplemented"),
        HeadRead::Whole(head) => head_text(alloc, &head),
    }
}

fn head_text(alloc: Global, head: &Head) -> Result<String, OutOfMemory> {
    let method = head.method.as_str();
    let (target, path, length) = (&head.target, &head.path, head.length);
    let mut text = format!(in alloc; "Whole {method} {target:?} {path:?} {length} ")?;
    match head.framing {
        Framing::Sized(size) => text.push_str(format!(in alloc; "sized {size}")?.as_str())?,
        Framing::Chunked => text.push_str("chunked")?,
    }
    if head.head_only {
        text.push_str(" head-only")?;
    }
    if head.last {
        text.push_str(" last")?;
    }
    Ok(text)
}

pub(crate) fn method(alloc: Global, bytes: &[u8]) -> Result<String, OutOfMemory> {
    match read_method(alloc, bytes)? {
        Some(method) => String::from_str(alloc, method.as_str()),
        None => String::from_str(alloc, "none"),
    }
}

pub(crate) fn target(alloc: Global, text: &str) -> Result<String, OutOfMemory> {
    match read_path(alloc, text)? {
        Some(path) => format!(in alloc; "{path:?}"),
        None => String::from_str(alloc, "none"),
    }
}
