//! What an activation that failed leaves behind.

use crate::samples::{LIMITS, on_core, runs_both};
use crate::turns::runs_turn;
use callback_orders::Outcome;
use scr_core::{Command, Core, CoreFault};
use std::alloc::Global;

// Why bundle 2 doesn't get the provider's service: the instance of which it is told, and whether that found no memory.
fn refusal_of_get(alloc: Global, core: &mut Core) -> Option<(u64, bool)> {
    let (bundle, service) = (2, 1);
    match core.command(alloc, Command::Get { bundle, service }) {
        Err(CoreFault::ActivationFailed { instance }) => Some((instance, false)),
        Err(CoreFault::ActivationNoMemory { instance }) => Some((instance, true)),
        _ => None,
    }
}

// Whether the activation of the provider's instance ends so.
fn ends_activation(alloc: Global, core: &mut Core, outcome: Outcome) -> bool {
    runs_both(alloc, core)
        && runs_turn(alloc, core, Outcome::Done)
        && runs_turn(alloc, core, Outcome::Done)
        && runs_turn(alloc, core, outcome)
}

fn tells_refused(alloc: Global, core: &mut Core) -> bool {
    ends_activation(alloc, core, Outcome::Refused)
        && refusal_of_get(alloc, core) == Some((2, false))
}

#[test]
fn a_refused_activation_is_told(rt: HostRuntime) {
    assert!(rt; on_core(rt.alloc(), LIMITS, tells_refused));
}

fn tells_no_memory(alloc: Global, core: &mut Core) -> bool {
    ends_activation(alloc, core, Outcome::NoMemory)
        && refusal_of_get(alloc, core) == Some((2, true))
}

#[test]
fn an_activation_without_memory_is_told(rt: HostRuntime) {
    assert!(rt; on_core(rt.alloc(), LIMITS, tells_no_memory));
}
