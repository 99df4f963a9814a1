//! Turns of a platform on which a consumer and its provider are started.

use crate::ends::{sink, source};
use crate::platforms::{Deed, LIMITS, holds};
use crate::samples::BOTH;
use callback_orders::Outcome;
use demonstration_kinds::Demonstration;
use kind_trait::Kinds;
use platform_hall::{FinishFault, Platform, note_rest, note_turns_end};
use script_shell::{Status, run_script};
use std::alloc::Global;
use std::fmt::Display;

// Starts the consumer and the provider, and runs no turn.
fn starts_both<K: Kinds + Drop>(alloc: Global, platform: &mut Platform<K>) -> bool {
    let mut input = source(alloc, BOTH, &[]);
    let mut output = sink(alloc, 40, &[]);
    run_script(
        alloc,
        platform,
        &["script", "--manual"],
        &mut input,
        &mut output,
    ) == Status::Done
}

// The first due turn, which begins.
fn begun<K: Kinds + Drop>(alloc: Global, platform: &mut Platform<K>) -> Option<u64> {
    match platform.begin(alloc) {
        Ok(turn) => turn,
        Err(_) => None,
    }
}

// How a turn ends.
fn finished<K: Kinds + Drop>(
    alloc: Global,
    platform: &mut Platform<K>,
    turn: u64,
) -> Option<Outcome> {
    match platform.finish(alloc, turn) {
        Ok(outcome) => Some(outcome),
        Err(_) => None,
    }
}

// Whether the first turn runs by hand to its end.
pub(crate) fn turns_by_hand<K: Kinds + Drop>(alloc: Global, platform: &mut Platform<K>) -> bool {
    starts_both(alloc, platform)
        && begun(alloc, platform) == Some(1)
        && finished(alloc, platform, 1) == Some(Outcome::Done)
}

// Whether so many turns run.
fn runs_turns<K: Kinds + Drop>(alloc: Global, platform: &mut Platform<K>, turns: u64) -> bool {
    match platform.settle(alloc) {
        Ok(count) => count == turns,
        Err(_) => false,
    }
}

// Whether so many turns run behind one by hand, and how long the journal is then.
pub(crate) fn settles_behind_a_turn<K: Kinds + Drop>(
    alloc: Global,
    platform: &mut Platform<K>,
    turns: u64,
    journal: u64,
) -> bool {
    turns_by_hand(alloc, platform)
        && runs_turns(alloc, platform, turns)
        && platform.core().journal().length() == journal
}

// Whether so many turns run.
pub(crate) fn settles<K: Kinds + Drop>(
    alloc: Global,
    platform: &mut Platform<K>,
    turns: u64,
) -> bool {
    starts_both(alloc, platform) && runs_turns(alloc, platform, turns)
}

// Ends what is under way of the first turns, as far as there is memory.
fn end_turns<K: Kinds + Drop>(alloc: Global, platform: &mut Platform<K>) {
    for turn in 1..8 {
        let _outcome = finished(alloc, platform, turn);
    }
}

// Whether turns run until none is due. Where memory is wanting, a turn that is left is ended first.
fn settles_at_last<K: Kinds + Drop>(alloc: Global, platform: &mut Platform<K>) -> bool {
    if platform.settle(alloc).is_ok() {
        return true;
    }
    end_turns(alloc, platform);
    platform.settle(alloc).is_ok()
}

// Whether none of the first turns is under way.
fn has_ended_turns<K: Kinds + Drop>(alloc: Global, platform: &mut Platform<K>) -> bool {
    for turn in 1..8 {
        match platform.finish(alloc, turn) {
            Err(FinishFault::NoTurn) => {}
            _ => return false,
        }
    }
    true
}

// Whether what was started, if it was, is settled at last, and no turn is left under way.
pub(crate) fn leaves_no_turn<K: Kinds + Drop>(alloc: Global, platform: &mut Platform<K>) -> bool {
    !starts_both(alloc, platform)
        || (settles_at_last(alloc, platform) && has_ended_turns(alloc, platform))
}

#[test]
fn a_turn_runs_by_hand(rt: HostRuntime) {
    assert!(rt; holds(rt.alloc(), Demonstration, LIMITS, &Deed::Turn));
}

#[test]
fn a_settling_goes_on_from_a_turn_by_hand(rt: HostRuntime) {
    let deed = Deed::TurnAndSettling {
        turns: 4,
        journal: 14,
    };
    assert!(rt; holds(rt.alloc(), Demonstration, LIMITS, &deed));
    note_turns_end();
    note_rest();
}

// Whether it is printed so.
pub(crate) fn is_printed<T: Display>(alloc: Global, printed: &T, wanted: &str) -> bool {
    match format!(in alloc; "{printed}") {
        Ok(text) => text.as_str() == wanted,
        Err(_) => false,
    }
}

#[test]
fn a_fault_is_printed(rt: HostRuntime) {
    assert!(rt;
        is_printed(
            rt.alloc(),
            &FinishFault::NoTurn,
            "no such turn is under way"
        )
    );
}
