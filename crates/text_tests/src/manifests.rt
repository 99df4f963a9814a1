use crate::shown::{is_printed, is_shown};
use bundle_headers::{Clauses, HeaderFault, Manifest, text_without_blanks};
use prop_map::Copies;
use std::alloc::Global;

fn copy_gives(alloc: Global, manifest: &Manifest, name: &str, wanted: &str) -> bool {
    match manifest.copy(alloc) {
        Ok(copy) => match copy.get(name) {
            Some(value) => value == wanted,
            None => false,
        },
        Err(_) => false,
    }
}

// Whether a copy of the manifest of a text has a header.
fn gives(alloc: Global, text: &[u8], name: &str, wanted: &str) -> bool {
    match Manifest::parse(alloc, text) {
        Ok(manifest) => copy_gives(alloc, &manifest, name, wanted),
        Err(_) => false,
    }
}

#[test]
fn a_manifest_is_read_copied_and_asked(rt: HostRuntime) {
    assert!(rt;
        gives(rt.alloc(), b"A: b\r\n c\r\n", "a", "bc") && text_without_blanks(" a b ") == "a b"
    );
}

fn copy_is_shown(alloc: Global, clauses: &Clauses, wanted: &str) -> bool {
    match clauses.copy(alloc) {
        Ok(copy) => is_shown(alloc, &copy, wanted),
        Err(_) => false,
    }
}

// Whether a copy of the clauses of a text is shown so.
fn are_read(alloc: Global, text: &str, wanted: &str) -> bool {
    match Clauses::parse(alloc, text) {
        Ok(clauses) => copy_is_shown(alloc, &clauses, wanted),
        Err(_) => false,
    }
}

#[test]
fn clauses_are_read_and_copied(rt: HostRuntime) {
    let wanted =
        "Clauses { list: [Clause { paths: [\"a\"], attributes: [(\"v\", \"1,2\")], directives: [(\"d\", \"x\")] }, \
        Clause { paths: [\"b\"], attributes: [], directives: [] }] }";
    assert!(rt; are_read(rt.alloc(), "a;v=\"1,2\";d:=x,b", wanted));
}

fn are_printed(alloc: Global, rows: &[(HeaderFault, &str)]) -> bool {
    for (fault, wanted) in rows {
        if !is_printed(alloc, fault, wanted) {
            return false;
        }
    }
    true
}

const FAULTS: &[(HeaderFault, &str)] = &[
    (
        HeaderFault::BadHeader { line: 1 },
        "line 1 begins no header",
    ),
    (
        HeaderFault::NotUtf8 { at: 3 },
        "byte 3 belongs to no character",
    ),
    (
        HeaderFault::DuplicateHeader { line: 2 },
        "line 2 repeats a header",
    ),
    (
        HeaderFault::BadClause { at: 2 },
        "no list of clauses, from byte 2",
    ),
    (HeaderFault::MissingName, "no symbolic name"),
    (HeaderFault::BadManifestVersion, "no manifest of version 2"),
    (HeaderFault::BadVersion { at: 0 }, "no version, from byte 0"),
    (HeaderFault::OutOfMemory, "out of memory"),
];

#[test]
fn faults_of_headers_are_printed(rt: HostRuntime) {
    assert!(rt; are_printed(rt.alloc(), FAULTS));
}
