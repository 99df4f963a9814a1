//! Runs of which nobody is told.

use crate::platforms::{Deed, LIMITS, holds};
use crate::runs::{Front, Script, Wanted};
use crate::samples::{BOTH, PROVIDER};
use demonstration_kinds::Demonstration;
use scr_world::Limits;
use std::alloc::Global;

// Whether a consumer and its provider are started so where these reads and writes fail.
fn starts(alloc: Global, reads: &[u64], writes: &[u64], code: u8, front: Front) -> bool {
    let script = Script {
        words: &["script"],
        lines: BOTH,
        replies: b"ok bundle 1\nok bundle 2\nok\nok\n",
        reads,
        writes,
        is_told: false,
        wanted: Wanted::Code(code),
        front,
    };
    holds(alloc, Demonstration, LIMITS, &Deed::Run(&script))
}

#[test]
fn a_script_runs_to_its_end(rt: HostRuntime) {
    assert!(rt; starts(rt.alloc(), &[], &[], 0, Front::Bytes(30)));
}

// Whether each of these reads ends the run where it fails.
fn each_read_ends(alloc: Global, calls: u64) -> bool {
    for call in 0..calls {
        if !starts(alloc, &[call], &[], 2, Front::Some) {
            return false;
        }
    }
    true
}

#[test]
fn each_read_fails_in_turn(rt: HostRuntime) {
    assert!(rt; each_read_ends(rt.alloc(), 7));
}

// How many bytes are written before the write of each number.
const BEFORE: [(u64, usize); 8] = [
    (0, 0),
    (1, 5),
    (2, 10),
    (3, 12),
    (4, 17),
    (5, 22),
    (6, 24),
    (7, 27),
];

// Whether each write ends the run where it fails, behind so many bytes.
fn each_write_ends(alloc: Global, before: &[(u64, usize)]) -> bool {
    for (call, count) in before {
        if !starts(alloc, &[], &[*call], 3, Front::Bytes(*count)) {
            return false;
        }
    }
    true
}

#[test]
fn each_write_fails_in_turn(rt: HostRuntime) {
    assert!(rt; each_write_ends(rt.alloc(), &BEFORE));
}

const SHORT: Limits = Limits {
    journal: 3,
    turns: 100,
};

const FULL: Script<'_> = Script {
    words: &["script"],
    lines: PROVIDER,
    replies: b"ok bundle 1\nok\nok\n",
    reads: &[],
    writes: &[],
    is_told: false,
    wanted: Wanted::Code(5),
    front: Front::Bytes(18),
};

#[test]
fn a_full_journal_ends_a_script(rt: HostRuntime) {
    assert!(rt; holds(rt.alloc(), Demonstration, SHORT, &Deed::Run(&FULL)));
}
