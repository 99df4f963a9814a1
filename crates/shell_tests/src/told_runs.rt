//! Runs that echo their lines, that are strict, and of which someone is told.

use crate::platforms::{Deed, LIMITS, holds};
use crate::runs::{Front, Heard, Script, Wanted};
use demonstration_kinds::Demonstration;
use std::alloc::Global;

const LINES: &str = "# a\nbundles\n\nstart 9\nstart 8\n";

const ECHOED: &[u8] =
    b"> # a\n> bundles\nok 0\n> \n> start 9\nrefused NoBundle 9\n> start 8\nrefused NoBundle 8\n";

const ECHO: &[&str] = &["script", "--echo"];

// Whether this is told of a run of these words, and as much is written, where these reads and writes fail.
fn tells(
    alloc: Global,
    words: &[&str],
    reads: &[u64],
    writes: &[u64],
    wanted: Wanted,
    front: Front,
) -> bool {
    let script = Script {
        words,
        lines: LINES,
        replies: ECHOED,
        reads,
        writes,
        is_told: true,
        wanted,
        front,
    };
    holds(alloc, Demonstration, LIMITS, &Deed::Run(&script))
}

#[test]
fn lines_are_echoed(rt: HostRuntime) {
    let heard = Heard {
        refusals: 2,
        refused: 5,
        answers: 1,
        answered: 2,
        ended: 6,
        code: 0,
    };
    assert!(rt;
        tells(
            rt.alloc(),
            ECHO,
            &[],
            &[],
            Wanted::Heard(heard),
            Front::Bytes(82)
        )
    );
}

#[test]
fn a_strict_run_ends_behind_a_refusal(rt: HostRuntime) {
    let heard = Heard {
        refusals: 1,
        refused: 4,
        answers: 1,
        answered: 2,
        ended: 4,
        code: 10,
    };
    let words = ["script", "--strict", "--echo"];
    assert!(rt;
        tells(
            rt.alloc(),
            &words,
            &[],
            &[],
            Wanted::Heard(heard),
            Front::Bytes(53)
        )
    );
}

#[test]
fn a_line_that_is_not_refused_is_told_once(rt: HostRuntime) {
    let heard = Heard {
        refusals: 0,
        refused: 0,
        answers: 1,
        answered: 3,
        ended: 4,
        code: 0,
    };
    let script = Script {
        words: &["script"],
        lines: "# a\n\nbundles\n",
        replies: b"ok 0\n",
        reads: &[],
        writes: &[],
        is_told: true,
        wanted: Wanted::Heard(heard),
        front: Front::Bytes(5),
    };
    assert!(rt; holds(rt.alloc(), Demonstration, LIMITS, &Deed::Run(&script)));
}

// Whether each of these reads ends the run where it fails.
fn each_read_ends(alloc: Global, calls: u64) -> bool {
    for call in 0..calls {
        if !tells(alloc, ECHO, &[call], &[], Wanted::Code(2), Front::Some) {
            return false;
        }
    }
    true
}

#[test]
fn each_read_fails_with_echo(rt: HostRuntime) {
    assert!(rt; each_read_ends(rt.alloc(), 2));
}

// Whether each of these writes ends the run where it fails.
fn each_write_ends(alloc: Global, calls: u64) -> bool {
    for call in 0..calls {
        if !tells(alloc, ECHO, &[], &[call], Wanted::Code(3), Front::Some) {
            return false;
        }
    }
    true
}

#[test]
fn each_write_fails_with_echo(rt: HostRuntime) {
    assert!(rt; each_write_ends(rt.alloc(), 18));
}

#[test]
fn words_that_are_no_form_tell_their_end(rt: HostRuntime) {
    let heard = Heard {
        refusals: 0,
        refused: 0,
        answers: 0,
        answered: 0,
        ended: 0,
        code: 1,
    };
    let words = ["load", "7", "2"];
    assert!(rt;
        tells(
            rt.alloc(),
            &words,
            &[],
            &[],
            Wanted::Heard(heard),
            Front::Bytes(0)
        )
    );
}
