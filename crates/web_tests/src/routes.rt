//! Routes: the choice of a servlet, the patterns in effect and what isn't.

use crate::samples::{better, context, service, servlet, two_texts, with_value};
use prop_map::OutOfMemory;
use service_registry::ServiceRow;
use std::alloc::Global;
use wb_routes::{RouteCause, Routes};

const PATTERN: &str = "osgi.http.whiteboard.servlet.pattern";

const SELECT: &str = "osgi.http.whiteboard.context.select";

fn add(
    servlets: &mut Vec<ServiceRow>,
    servlet: Result<ServiceRow, OutOfMemory>,
) -> Result<(), OutOfMemory> {
    servlets.push(servlet?)?;
    Ok(())
}

fn add_patterns(
    alloc: Global,
    servlets: &mut Vec<ServiceRow>,
    patterns: &[&str],
) -> Result<(), OutOfMemory> {
    let mut id = 2u64;
    for pattern in patterns {
        add(servlets, servlet(alloc, id, pattern))?;
        id = id.saturating_add(1);
    }
    Ok(())
}

// A servlet in the context `ca`.
fn selecting(alloc: Global, id: u64, pattern: &str) -> Result<ServiceRow, OutOfMemory> {
    let select = (SELECT, "(osgi.http.whiteboard.context.name=ca)");
    service(alloc, id, &[(PATTERN, pattern), select])
}

// Servlets 2 to 8: the last one in the context `ca`, the others in `default`.
fn servlets(alloc: Global) -> Result<Vec<ServiceRow>, OutOfMemory> {
    let mut servlets = Vec::new(alloc);
    add_patterns(
        alloc,
        &mut servlets,
        &["/a", "/a/*", "/a/b/*", "*.x", "/", ""],
    )?;
    add(&mut servlets, selecting(alloc, 8, "/c"))?;
    Ok(servlets)
}

fn chooses(routes: &Routes, path: &str, servlet: u64) -> bool {
    match routes.choose(path) {
        Some(chosen) => chosen == servlet,
        None => false,
    }
}

fn choose_all(routes: &Routes, choices: &[(&str, u64)]) -> bool {
    for (path, servlet) in choices {
        if !chooses(routes, path, *servlet) {
            return false;
        }
    }
    true
}

fn are_chosen(
    alloc: Global,
    contexts: &[ServiceRow],
    servlets: &[ServiceRow],
    choices: &[(&str, u64)],
) -> bool {
    match Routes::of(alloc, contexts, servlets) {
        Ok(routes) => choose_all(&routes, choices),
        Err(_) => false,
    }
}

fn are_chosen_in(alloc: Global, contexts: &[ServiceRow], choices: &[(&str, u64)]) -> bool {
    match servlets(alloc) {
        Ok(servlets) => are_chosen(alloc, contexts, servlets.as_slice(), choices),
        Err(_) => false,
    }
}

fn are_chosen_in_ca(alloc: Global, choices: &[(&str, u64)]) -> bool {
    match context(alloc, 1, "ca", "/a") {
        Ok(context) => are_chosen_in(alloc, &[context], choices),
        Err(_) => false,
    }
}

const CHOICES: &[(&str, u64)] = &[
    ("/a", 2),
    ("/a/c", 8),
    ("/a/d", 3),
    ("/a/b", 4),
    ("/a/b/c.x", 4),
    ("/c.x", 5),
    ("/zzz", 6),
    ("/", 7),
];

#[test]
fn each_path_has_its_servlet(rt: HostRuntime) {
    assert!(rt; are_chosen_in_ca(rt.alloc(), CHOICES));
}

// The same servlets and a better one.
fn with_better(alloc: Global) -> Result<Vec<ServiceRow>, OutOfMemory> {
    let mut servlets = servlets(alloc)?;
    add(&mut servlets, better(alloc, 9, PATTERN, "/a", 1))?;
    Ok(servlets)
}

fn better_is_chosen(alloc: Global) -> bool {
    match with_better(alloc) {
        Ok(servlets) => are_chosen(alloc, &[], servlets.as_slice(), &[("/a", 9)]),
        Err(_) => false,
    }
}

#[test]
fn a_better_servlet_takes_the_path(rt: HostRuntime) {
    assert!(rt; better_is_chosen(rt.alloc()));
}

// A servlet with two patterns, the second of which is none.
fn two_patterns(alloc: Global) -> Result<ServiceRow, OutOfMemory> {
    let texts = two_texts(alloc, "/d", "x")?;
    with_value(alloc, 2, PATTERN, texts)
}

fn two_servlets(alloc: Global) -> Result<[ServiceRow; 2], OutOfMemory> {
    let first = servlet(alloc, 1, "/d")?;
    match two_patterns(alloc) {
        Ok(second) => Ok([first, second]),
        Err(error) => Err(error),
    }
}

// Whether the first servlet alone is in effect.
fn first_is_in_effect(routes: &Routes) -> bool {
    match routes.rows() {
        [row] => row.path.as_str() == "/" && row.pattern.as_str() == "/d" && row.service == 1,
        _ => false,
    }
}

// Whether the second one is shadowed, and has a bad pattern.
fn second_fails(routes: &Routes) -> bool {
    match routes.failures() {
        [shadowed, bad] => {
            shadowed.service == 2
                && shadowed.pattern.as_str() == "/d"
                && shadowed.cause == RouteCause::Shadowed
                && bad.service == 2
                && bad.pattern.as_str() == "x"
                && bad.cause == RouteCause::BadPattern
        }
        _ => false,
    }
}

fn are_listed(alloc: Global, servlets: &[ServiceRow], in_effect: bool) -> bool {
    match Routes::of(alloc, &[], servlets) {
        Ok(routes) => {
            if in_effect {
                first_is_in_effect(&routes)
            } else {
                second_fails(&routes)
            }
        }
        Err(_) => false,
    }
}

fn two_are_listed(alloc: Global, in_effect: bool) -> bool {
    match two_servlets(alloc) {
        Ok(servlets) => are_listed(alloc, &servlets, in_effect),
        Err(_) => false,
    }
}

#[test]
fn what_is_in_effect_is_listed(rt: HostRuntime) {
    assert!(rt; two_are_listed(rt.alloc(), true));
}

#[test]
fn what_is_not_in_effect_is_listed(rt: HostRuntime) {
    assert!(rt; two_are_listed(rt.alloc(), false));
}
