//! What an instance's callbacks so far say of it (OSGi Compendium 8, section 112.5 "Component Life Cycle").
ghost use Rattle.callback_orders.specs.Lives.{phase_after, phase_by, phase_of, held_after, held_by, held_for, is_living};
ghost use Rattle.callback_orders.specs.Sequences.{is_outstanding};
ghost use Rattle.std.specs.Prelude.{◌≡◌, ◌==◌, ℕ, List, IfOk, filter, not};
ghost use Rattle.std.specs.List.{list_any};

use crate::{Callback, Called, Outcome, Phase};
use prop_map::{OutOfMemory, Str};
use std::alloc::Global;

fn phase_by(called: &Called, phase: Phase) -> Phase
    ensures { result ≡ phase_by called.now.callback called.now.outcome phase }
{
    match (&called.callback, called.outcome) {
        (Callback::Activate, Some(Outcome::Done)) => Phase::Active,
        (Callback::Activate | Callback::Deactivate, Some(_)) => Phase::Left,
        _ => phase,
    }
}

/// How far an instance is by its callbacks so far, the first one first: it is in the making until an Activate has ended. It is
/// active from the end of one that was done to the end of Deactivate. It takes no memory.
pub fn phase_of(calls: &[Called]) -> Phase
    ensures { result ≡ phase_of calls.now }
{
    let mut phase = Phase::Making;
    for called in calls {
        phase = phase_by(called, phase);
    }
    phase
}

fn let_go(held: &mut Vec<u64>, service: u64)
    ensures { held.new.items ≡ filter (λ s. not (s == service)) held.old.items }
{
    held.retain(|other| *other != service);
}

fn hold(held: &mut Vec<u64>, name: &Str, called: &Called) -> Result<(), OutOfMemory>
    ensures { IfOk result (λ _. held.new.items ≡ held_by name.now called.now.callback called.now.outcome held.old.items) }
{
    match (&called.callback, called.outcome) {
        (Callback::Bind { reference, service }, _) if reference == name => held.push(*service)?,
        (Callback::Unbind { reference, service }, Some(_)) if reference == name => {
            let_go(held, *service);
        }
        _ => {}
    }
    Ok(())
}

/// The services that an instance holds for the reference of a name by its callbacks so far, in the order of their Binds. A
/// service is held from the beginning of its Bind to the end of its Unbind.
///
/// # Errors
/// Only want of memory.
pub fn held_for(alloc: Global, name: &Str, calls: &[Called]) -> Result<Vec<u64>, OutOfMemory>
    ensures { IfOk result (λ held. held.items ≡ held_for name.now calls.now) }
{
    let mut held = Vec::new(alloc);
    for called in calls {
        hold(&mut held, name, called)?;
    }
    Ok(held)
}

fn is_held_after(called: &Called, name: &Str, sought: u64, was_held: bool) -> bool
    ensures { (held : List ℕ) → was_held ≡ list_any (λ s. s == sought) held → result ≡ list_any (λ s. s == sought) (held_by name.now called.now.callback called.now.outcome held) }
{
    match (&called.callback, called.outcome) {
        (Callback::Bind { reference, service }, _) if reference == name => {
            was_held || *service == sought
        }
        (Callback::Unbind { reference, service }, Some(_)) if reference == name => {
            was_held && *service != sought
        }
        _ => was_held,
    }
}

/// Whether an instance holds a service for the reference of a name by its callbacks so far: it is one of
/// [`held_for`](held_for). It takes no memory.
pub fn is_held(calls: &[Called], name: &Str, service: u64) -> bool
    ensures { result ≡ list_any (λ s. s == service) (held_for name.now calls.now) }
{
    let mut is_held = false;
    for called in calls {
        is_held = is_held_after(called, name, service, is_held);
    }
    is_held
}

/// Whether a callback of an instance has begun and not ended: the last one has no outcome. It takes no memory.
#[tactic(auto, using(crate::proofs::LastLemmas::outstanding_last))]
pub fn is_outstanding(calls: &[Called]) -> bool
    ensures { result ≡ is_outstanding calls.now }
{
    match calls.last() {
        Some(called) => called.outcome.is_none(),
        None => false,
    }
}

/// Whether an instance goes on after its callbacks so far: no Destroy of it has ended, and no Create of it failed. It takes no
/// memory.
pub fn is_living(calls: &[Called]) -> bool
    ensures { result ≡ is_living calls.now }
{
    calls.iter().all(|called| match (&called.callback, called.outcome) {
        (Callback::Create, Some(Outcome::Refused | Outcome::NoMemory)) => false,
        (Callback::Destroy, Some(_)) => false,
        _ => true,
    })
}
