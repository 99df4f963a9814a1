//! Contexts and their order.

use crate::samples::{context, service};
use prop_map::OutOfMemory;
use std::alloc::Global;
use wb_context::{
    Context, ContextFault, contexts_in_order, covers, in_order, read_context, rest_in,
};

fn has_no_name(alloc: Global) -> bool {
    match service(alloc, 1, &[]) {
        Ok(row) => match read_context(alloc, &row) {
            Err(ContextFault::BadContextName) => true,
            _ => false,
        },
        Err(_) => false,
    }
}

#[test]
fn a_context_without_a_name_is_refused(rt: HostRuntime) {
    assert!(rt; has_no_name(rt.alloc()));
}

fn read(alloc: Global, id: u64, name: &str, path: &str) -> Result<Context, ContextFault> {
    let row = context(alloc, id, name, path)?;
    read_context(alloc, &row)
}

fn add(
    alloc: Global,
    contexts: &mut Vec<Context>,
    id: u64,
    name: &str,
    path: &str,
) -> Result<(), ContextFault> {
    let context = read(alloc, id, name, path)?;
    contexts.push(context)?;
    Ok(())
}

fn two_contexts(alloc: Global) -> Result<Vec<Context>, ContextFault> {
    let mut contexts = Vec::new(alloc);
    add(alloc, &mut contexts, 1, "ca", "/a")?;
    add(alloc, &mut contexts, 2, "cb", "/a/b")?;
    Ok(contexts)
}

// Whether the contexts are of these services.
fn are(contexts: &[Context], services: &[u64]) -> bool {
    contexts.len() == services.len()
        && contexts
            .iter()
            .zip(services)
            .all(|(context, service)| context.service == *service)
}

fn are_ordered(ordered: Result<Vec<Context>, OutOfMemory>, services: &[u64]) -> bool {
    match ordered {
        Ok(contexts) => are(contexts.as_slice(), services),
        Err(_) => false,
    }
}

fn all_are_ordered(alloc: Global) -> bool {
    match two_contexts(alloc) {
        Ok(contexts) => are_ordered(contexts_in_order(alloc, contexts), &[2, 1, 0]),
        Err(_) => false,
    }
}

#[test]
fn the_longest_path_comes_first(rt: HostRuntime) {
    assert!(rt; all_are_ordered(rt.alloc()));
}

fn some_are_ordered(alloc: Global) -> bool {
    match two_contexts(alloc) {
        Ok(contexts) => are_ordered(in_order(alloc, contexts, "/a/c"), &[1, 0]),
        Err(_) => false,
    }
}

#[test]
fn a_path_lies_in_some_contexts(rt: HostRuntime) {
    assert!(rt; some_are_ordered(rt.alloc()));
}

#[test]
fn what_is_left_of_a_path_begins_with_a_slash(rt: HostRuntime) {
    assert!(rt;
        covers(b"/a", b"/a/b")
            && rest_in(b"/a", b"/a/b") == b"/b".as_slice()
            && rest_in(b"/a", b"/a") == b"/".as_slice()
    );
}
