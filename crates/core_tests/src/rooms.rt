//! A journal that is too full for the turn that is due.

use crate::samples::{on_core, runs};
use crate::turns::runs_turn;
use callback_orders::Outcome;
use scr_core::{Core, CoreFault, Limits};
use std::alloc::Global;

// A bundle whose component is activated at once.
const IMMEDIATE: &str = r#"{"location":"i","components":{"i":{"implementationClass":"I"}}}"#;

// Behind the four entries of an install, a start and a Create an Activate needs three.
const ONE_SHORT: Limits = Limits {
    journal: 6,
    turns: 100,
};

const JUST_ENOUGH: Limits = Limits {
    journal: 7,
    turns: 100,
};

// An Activate is due.
fn comes_to_activate(alloc: Global, core: &mut Core) -> bool {
    runs(alloc, core, IMMEDIATE, 1) && runs_turn(alloc, core, Outcome::Done)
}

fn finds_no_room(alloc: Global, core: &mut Core) -> bool {
    match core.take_turn(alloc) {
        Ok(_) => false,
        Err(fault) => fault == CoreFault::JournalFull,
    }
}

fn is_refused(alloc: Global, core: &mut Core) -> bool {
    comes_to_activate(alloc, core) && finds_no_room(alloc, core)
}

#[test]
fn an_activate_without_room_for_its_drain_is_refused(rt: HostRuntime) {
    assert!(rt; on_core(rt.alloc(), ONE_SHORT, is_refused));
}

fn begins(alloc: Global, core: &mut Core) -> bool {
    comes_to_activate(alloc, core) && core.take_turn(alloc).is_ok()
}

#[test]
fn an_activate_with_room_for_its_drain_begins(rt: HostRuntime) {
    assert!(rt; on_core(rt.alloc(), JUST_ENOUGH, begins));
}
