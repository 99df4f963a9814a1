//! Loads.
ghost use Rattle.script_shell.specs.Forms.{IsLoad};

use crate::ends::sink;
use crate::platforms::{Deed, holds};
use demonstration_kinds::Demonstration;
use kind_trait::Kinds;
use scr_world::Limits;
use script_shell::{LoadNumbers, Platform, Status, run_load};
use std::alloc::Global;

const ROOM: Limits = Limits {
    journal: 1_000,
    turns: 1_000,
};

const LOAD: LoadNumbers = LoadNumbers {
    seed: 7,
    bundles: 2,
    commands: 0,
};

/// Which writes of a load fail, how it ends, and what is written.
#[derive(Clone, Copy)]
pub(crate) struct Loading<'l> {
    failing: &'l [u64],
    status: Status,
    text: &'l [u8],
}

// Whether the load ends so.
pub(crate) fn loads<K: Kinds + Drop>(
    alloc: Global,
    platform: &mut Platform<K>,
    wanted: &Loading<'_>,
) -> bool {
    let mut output = sink(alloc, 7, wanted.failing);
    let status = run_load(alloc, platform, LOAD, &mut output);
    status == wanted.status && output.written() == wanted.text
}

// The same on a new platform.
fn ends(alloc: Global, failing: &[u64], status: Status, text: &[u8]) -> bool {
    let wanted = Loading {
        failing,
        status,
        text,
    };
    holds(alloc, Demonstration, ROOM, &Deed::Load(&wanted))
}

#[test]
fn a_load_tells_what_it_came_to(rt: HostRuntime) {
    let text = b"commands 4 ok 4 refused 0\nrecords 14\nturns 5\nsatisfied 2 active 2\n";
    assert!(rt; ends(rt.alloc(), &[], Status::Done, text));
}

#[test]
fn a_load_writes_a_front_of_its_counts(rt: HostRuntime) {
    assert!(rt; ends(rt.alloc(), &[1], Status::WriteFault, b"command"));
}
