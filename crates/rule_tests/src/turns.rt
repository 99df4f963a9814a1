//! Turns one by one and until nothing is due.
ghost use Rattle.std.specs.Prelude.{◌≡◌, IfOk};

use crate::MemoryDesk;
use crate::nested_calls::is_printed;
use crate::samples::site;
use callback_orders::{Callback, Outcome};
use demonstration_kinds::Demonstration;
use prop_map::{OutOfMemory, Str};
use std::alloc::Global;
use std::collections::VecDeque;
use turn_runner::{DeskFault, SettleFault, TurnWork, run_turn, settle};

// A turn of instance 1, which refuses its Activate.
fn work(alloc: Global, number: u64, callback: Callback) -> Result<TurnWork, OutOfMemory>
    ensures { IfOk result (λ work. work.callback ≡ callback) }
{
    let name = Str::spell(alloc, "echo")?;
    match site(alloc, "demo.Echo", "refuse", "activate") {
        Ok(site) => Ok(TurnWork {
            number,
            callback,
            instance: 1,
            name,
            site,
        }),
        Err(error) => Err(error),
    }
}

fn comes(
    alloc: Global,
    turns: &mut VecDeque<TurnWork>,
    number: u64,
    callback: Callback,
) -> Result<(), OutOfMemory> {
    let work = work(alloc, number, callback)?;
    turns.push_back(work)?;
    Ok(())
}

// Two turns run, the second of which is refused.
fn run_until_nothing_is_due(alloc: Global, turns: VecDeque<TurnWork>) -> bool {
    let mut desk = MemoryDesk::new(alloc, turns, 4);
    let ran: Result<u64, SettleFault> = settle(alloc, &mut desk, &Demonstration, 4);
    let is_refused = match desk.ended().last() {
        Some(last) => last.outcome == Outcome::Refused,
        None => false,
    };
    ran == Ok(2) && is_refused
}

fn come(alloc: Global, turns: &mut VecDeque<TurnWork>) -> bool {
    comes(alloc, turns, 1, Callback::Create).is_ok()
        && comes(alloc, turns, 2, Callback::Activate).is_ok()
}

fn two_run(alloc: Global) -> bool {
    let mut turns = VecDeque::new(alloc);
    if !come(alloc, &mut turns) {
        return false;
    }
    run_until_nothing_is_due(alloc, turns)
}

#[test]
fn turns_run_until_nothing_is_due(rt: HostRuntime) {
    assert!(rt; two_run(rt.alloc()));
}

fn makes_an_object(alloc: Global) -> bool {
    match work(alloc, 1, Callback::Create) {
        Ok(create) => run_turn(alloc, &Demonstration, None, &create)
            .made
            .is_some(),
        Err(_) => false,
    }
}

#[test]
fn a_create_makes_an_object(rt: HostRuntime) {
    assert!(rt; makes_an_object(rt.alloc()));
}

#[test]
fn faults_are_printed(rt: HostRuntime) {
    let alloc = rt.alloc();
    assert!(rt;
        is_printed(alloc, &DeskFault::JournalFull, "the journal is full")
            && is_printed(alloc, &SettleFault::Unsettled, "a turn is still due")
    );
}
