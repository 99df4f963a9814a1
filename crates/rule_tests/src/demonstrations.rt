//! The component code of the demonstration.

use crate::samples::site;
use demonstration_kinds::Demonstration;
use kind_trait::{KindFault, Kinds, NestedReply, Next, Site};
use prop_map::{Copies, Str};
use std::alloc::Global;

// What is answered once a nested call got this reply.
fn resumed<K: Kinds>(
    alloc: Global,
    kinds: &K,
    work: K::Work,
    reply: &NestedReply,
) -> Result<Option<Str>, KindFault> {
    match kinds.resume(alloc, work, reply)? {
        Next::Answer { text } => Ok(Some(text)),
        Next::Call { .. } => Ok(None),
    }
}

// What an object answers to `hi` where its nested call gets this reply.
fn answered<K: Kinds>(
    alloc: Global,
    kinds: &K,
    object: &K::Object,
    site: &Site,
    reply: &NestedReply,
) -> Result<Option<Str>, KindFault> {
    match kinds.start(alloc, object, site, "hi")? {
        Next::Answer { text } => Ok(Some(text)),
        Next::Call { work, .. } => resumed(alloc, kinds, work, reply),
    }
}

// The same of an instance.
fn answer<K: Kinds>(
    alloc: Global,
    kinds: &K,
    site: &Site,
    reply: &NestedReply,
) -> Result<Option<Str>, KindFault> {
    let object = kinds.create(alloc, site)?;
    answered(alloc, kinds, &object, site, reply)
}

fn answers(alloc: Global, site: &Site, reply: &NestedReply, wanted: &str) -> bool {
    match answer(alloc, &Demonstration, site, reply) {
        Ok(Some(text)) => text.as_str() == wanted,
        _ => false,
    }
}

fn copy_answers(alloc: Global, site: &Site, reply: Str, wanted: &str) -> bool {
    match site.copy(alloc) {
        Ok(copy) => answers(alloc, &copy, &NestedReply::Text(reply), wanted),
        Err(_) => false,
    }
}

fn relay_answers(alloc: Global, reply: Str, wanted: &str) -> bool {
    match site(alloc, "demo.Relay", "text", "other") {
        Ok(relay) => copy_answers(alloc, &relay, reply, wanted),
        Err(_) => false,
    }
}

fn relay_answers_to(alloc: Global, reply: &str, wanted: &str) -> bool {
    match Str::spell(alloc, reply) {
        Ok(reply) => relay_answers(alloc, reply, wanted),
        Err(_) => false,
    }
}

#[test]
fn a_relay_brackets_what_it_got(rt: HostRuntime) {
    assert!(rt; relay_answers_to(rt.alloc(), "ho", "<ho>"));
}

fn refuses_create(alloc: Global) -> bool {
    match site(alloc, "demo.Text", "refuse", "create") {
        Ok(site) => Demonstration.create(alloc, &site) == Err(KindFault::Refused),
        Err(_) => false,
    }
}

#[test]
fn an_instance_refuses_the_callback_of_its_word(rt: HostRuntime) {
    assert!(rt; refuses_create(rt.alloc()));
}
