//! The most bytes that a line may have.

use crate::readings::{Reading, holds};
use std::alloc::{AllocError, Global};

fn add(bytes: &mut Vec<u8>, front: &[u8], count: usize, end: &[u8]) -> Result<(), AllocError> {
    bytes.extend_from_slice(front)?;
    bytes.resize(bytes.len().saturating_add(count), b'x')?;
    bytes.extend_from_slice(end)
}

// So many bytes `x` between two texts.
fn between(alloc: Global, front: &[u8], count: usize, end: &[u8]) -> Result<Vec<u8>, AllocError> {
    let mut bytes = Vec::new(alloc);
    add(&mut bytes, front, count, end)?;
    Ok(bytes)
}

// Whether lines with a file `f` of these bytes are handed on so.
fn hands(alloc: Global, lines: &[u8], file: &[u8], handed: &[u8]) -> bool {
    let reading = Reading {
        lines,
        files: &[("f", file)],
        failing: &[],
        reads: 1_000_000,
        handed,
        faults: 0,
    };
    holds(alloc, &reading)
}

const LINE: &[u8] = b"install @f\n";

fn hands_bytes(alloc: Global, file: &[u8], count: usize) -> bool {
    match between(alloc, b"install ", count, b"\n") {
        Ok(handed) => hands(alloc, LINE, file, handed.as_slice()),
        Err(_) => false,
    }
}

// Whether a line whose file has so many bytes is handed on with them, or else as it is.
fn takes(alloc: Global, count: usize, is_taken: bool) -> bool {
    match between(alloc, b"", count, b"") {
        Ok(file) => {
            if is_taken {
                hands_bytes(alloc, file.as_slice(), count)
            } else {
                hands(alloc, LINE, file.as_slice(), LINE)
            }
        }
        Err(_) => false,
    }
}

#[test]
fn a_line_has_1048576_bytes_at_most(rt: HostRuntime) {
    assert!(rt; takes(rt.alloc(), 1_048_568, true) && takes(rt.alloc(), 1_048_569, false));
}

fn hands_behind(alloc: Global, lines: &[u8]) -> bool {
    match between(alloc, b"", 1_200_000, b"\nupdate 1 {}\n") {
        Ok(handed) => hands(alloc, lines, b"{}", handed.as_slice()),
        Err(_) => false,
    }
}

fn stays_as_it_is(alloc: Global) -> bool {
    match between(alloc, b"", 1_200_000, b"\nupdate 1 @f\n") {
        Ok(lines) => hands_behind(alloc, lines.as_slice()),
        Err(_) => false,
    }
}

#[test]
fn a_line_that_is_too_long_already_is_handed_on_as_it_is(rt: HostRuntime) {
    assert!(rt; stays_as_it_is(rt.alloc()));
}
