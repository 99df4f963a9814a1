//! Turns that are taken and ended, and drains that are posted.

use crate::samples::{LIMITS, on_core, runs_both};
use callback_orders::Outcome;
use journal_core::GateKey;
use scr_core::{Command, Core, Taken};
use std::alloc::Global;

// Takes the first due turn and ends it so. It answers its number, nothing where no turn is due.
fn run_turn(alloc: Global, core: &mut Core, outcome: Outcome) -> Option<u64> {
    match core.take_turn(alloc) {
        Ok(Taken::Turn(turn, work)) => match core.done(alloc, turn, outcome) {
            Ok(_) => Some(work.number),
            Err(_) => None,
        },
        _ => None,
    }
}

// Whether a turn is due, and ends so.
pub(crate) fn runs_turn(alloc: Global, core: &mut Core, outcome: Outcome) -> bool {
    run_turn(alloc, core, outcome).is_some()
}

// Whether the turn of this number is due, and is done.
fn does_turn(alloc: Global, core: &mut Core, number: u64) -> bool {
    match run_turn(alloc, core, Outcome::Done) {
        Some(turn) => turn == number,
        None => false,
    }
}

// Runs the consumer and the provider, and the five turns that are due then.
pub(crate) fn settles_both(alloc: Global, core: &mut Core) -> bool {
    if !runs_both(alloc, core) {
        return false;
    }
    for number in 1..6u64 {
        if !does_turn(alloc, core, number) {
            return false;
        }
    }
    true
}

fn is_settled(alloc: Global, core: &Core) -> bool {
    match core.due(alloc) {
        Ok(due) => !due,
        Err(_) => false,
    }
}

fn settles(alloc: Global, core: &mut Core) -> bool {
    settles_both(alloc, core) && is_settled(alloc, core)
}

#[test]
fn five_turns_settle_a_consumer_and_its_provider(rt: HostRuntime) {
    assert!(rt; on_core(rt.alloc(), LIMITS, settles));
}

// The turn that was taken has the number 1, and its work is told.
fn tells_its_work(alloc: Global, core: &mut Core) -> bool {
    match core.take_turn(alloc) {
        Ok(Taken::Turn(turn, work)) => {
            turn.number() == 1 && core.turn_work(alloc, 1) == Ok(Some(work))
        }
        _ => false,
    }
}

fn tells_work(alloc: Global, core: &mut Core) -> bool {
    runs_both(alloc, core) && tells_its_work(alloc, core)
}

#[test]
fn a_turn_under_way_has_its_work(rt: HostRuntime) {
    assert!(rt; on_core(rt.alloc(), LIMITS, tells_work));
}

// Whether the stop of the provider shuts so many gates.
fn shuts(alloc: Global, core: &mut Core, gates: usize) -> bool {
    match core.command(alloc, Command::Stop { bundle: 2 }) {
        Ok(accepted) => accepted.shut.as_slice().len() == gates,
        Err(_) => false,
    }
}

// Posts the first drain that is awaited. It answers its gate, nothing where none is.
fn drain(alloc: Global, core: &mut Core) -> Option<GateKey> {
    match core.next_drain() {
        Some(key) => match core.drained(alloc, key) {
            Ok(()) => Some(key),
            Err(_) => None,
        },
        None => None,
    }
}

// Whether two gates, which aren't the same, are drained.
fn drains_two(alloc: Global, core: &mut Core) -> bool {
    match (drain(alloc, core), drain(alloc, core)) {
        (Some(first), Some(second)) => first != second,
        _ => false,
    }
}

fn drains(alloc: Global, core: &mut Core) -> bool {
    settles_both(alloc, core)
        && shuts(alloc, core, 2)
        && drains_two(alloc, core)
        && core.next_drain().is_none()
}

#[test]
fn two_shut_gates_are_drained(rt: HostRuntime) {
    assert!(rt; on_core(rt.alloc(), LIMITS, drains));
}
