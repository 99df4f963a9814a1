//! Patterns and how they fit.

use wb_pattern::{BadPattern, Pattern, Place, is_at_or_below, place};

fn fits(pattern: &Pattern<'_>, path: &str, wanted: Place) -> bool {
    match place(pattern, path) {
        Some(found) => found == wanted,
        None => false,
    }
}

fn fits_above(text: &str, path: &str) -> bool {
    match Pattern::parse(text) {
        Ok(pattern) => fits(
            &pattern,
            path,
            Place {
                class: 2,
                length: 2,
            },
        ),
        Err(_) => false,
    }
}

#[test]
fn a_longer_path_above_fits_better(rt: HostRuntime) {
    assert!(rt; fits_above("/a/*", "/a/b"));
}

fn fits_by_its_end(bytes: &[u8], path: &str) -> bool {
    match Pattern::spelled(bytes) {
        Some(pattern) => fits(
            &pattern,
            path,
            Place {
                class: 3,
                length: 0,
            },
        ),
        None => false,
    }
}

#[test]
fn an_extension_is_spelled_by_bytes(rt: HostRuntime) {
    assert!(rt; fits_by_its_end(b"*.x", "/a/b.x"));
}

#[test]
fn a_star_inside_is_no_pattern(rt: HostRuntime) {
    assert!(rt; matches!(Pattern::parse("/a*b"), Err(BadPattern)));
}

#[test]
fn a_path_lies_below_another_at_a_slash(rt: HostRuntime) {
    assert!(rt; is_at_or_below(b"/a", b"/a/b") && !is_at_or_below(b"/a", b"/ab"));
}
