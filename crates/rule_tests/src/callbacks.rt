//! The callbacks of one instance so far.

use callback_orders::{
    Callback, Called, Outcome, Phase, Word, held_for, is_held, is_living, is_outstanding, phase_of,
};
use prop_map::{Copies, Str};
use std::alloc::Global;

fn is_held_alone(alloc: Global, log: &Str, calls: &[Called]) -> bool {
    match held_for(alloc, log, calls) {
        Ok(held) => held.as_slice() == [4u64].as_slice() && is_held(calls, log, 4),
        Err(_) => false,
    }
}

fn copy_is_same(alloc: Global, word: &Word) -> bool {
    match word.copy(alloc) {
        Ok(copy) => copy.calls() == word.calls(),
        Err(_) => false,
    }
}

// Service 4 is held once it is bound to this reference.
fn holds_from_its_bind_on(alloc: Global, log: &Str, reference: Str) -> bool {
    let mut word = match Word::new(alloc) {
        Ok(word) => word,
        Err(_) => return false,
    };
    match word.push(Callback::Create) {
        Ok(()) => word.end(Outcome::Done),
        Err(_) => return false,
    }
    let bind = Callback::Bind {
        reference,
        service: 4,
    };
    word.push(bind).is_ok() && is_held_alone(alloc, log, word.calls()) && copy_is_same(alloc, &word)
}

fn holds_for(alloc: Global, log: &Str) -> bool {
    match log.copy(alloc) {
        Ok(reference) => holds_from_its_bind_on(alloc, log, reference),
        Err(_) => false,
    }
}

fn holds_for_log(alloc: Global) -> bool {
    match Str::spell(alloc, "log") {
        Ok(log) => holds_for(alloc, &log),
        Err(_) => false,
    }
}

#[test]
fn a_service_is_held_from_its_bind_on(rt: HostRuntime) {
    assert!(rt; holds_for_log(rt.alloc()));
}

// Whether no callback is under way, and the object is still to be made.
fn is_to_be_made(calls: &[Called]) -> bool {
    !is_outstanding(calls) && is_living(calls) && phase_of(calls) == Phase::Making
}

fn is_taken_back(alloc: Global) -> bool {
    let mut word = match Word::new(alloc) {
        Ok(word) => word,
        Err(_) => return false,
    };
    match word.push(Callback::Create) {
        Ok(()) => {}
        Err(_) => return false,
    }
    if !word.is_outstanding() {
        return false;
    }
    word.take_back();
    is_to_be_made(word.calls())
}

#[test]
fn a_begun_callback_is_taken_back(rt: HostRuntime) {
    Word::note_grammar();
    Word::note_due();
    assert!(rt; is_taken_back(rt.alloc()));
}
