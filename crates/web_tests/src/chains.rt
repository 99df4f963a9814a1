//! Chains of filters, and error pages.

use crate::samples::{better, context, service, servlet, two_texts, with_value};
use prop_map::{OutOfMemory, Value};
use service_registry::ServiceRow;
use std::alloc::Global;
use wb_filters::Chains;

const FILTER: &str = "osgi.http.whiteboard.filter.pattern";

const ERROR_PAGE: &str = "osgi.http.whiteboard.servlet.errorPage";

fn servlets(alloc: Global) -> Result<[ServiceRow; 2], OutOfMemory> {
    let first = servlet(alloc, 1, "/s")?;
    match servlet(alloc, 2, "/t") {
        Ok(second) => Ok([first, second]),
        Err(error) => Err(error),
    }
}

fn filters(alloc: Global) -> Result<[ServiceRow; 2], OutOfMemory> {
    let first = service(alloc, 3, &[(FILTER, "/*")])?;
    match better(alloc, 4, FILTER, "/t", 1) {
        Ok(second) => Ok([first, second]),
        Err(error) => Err(error),
    }
}

fn chains_over(
    alloc: Global,
    contexts: &[ServiceRow],
    servlets: &[ServiceRow],
    pages: &[ServiceRow],
) -> Result<Chains, OutOfMemory> {
    let filters = filters(alloc)?;
    Chains::of(alloc, contexts, servlets, &filters, pages)
}

// Chains of two servlets and two filters, over these contexts and with these pages.
fn chains(
    alloc: Global,
    contexts: &[ServiceRow],
    pages: &[ServiceRow],
) -> Result<Chains, OutOfMemory> {
    let servlets = servlets(alloc)?;
    chains_over(alloc, contexts, &servlets, pages)
}

/// What is asked of chains.
#[derive(Clone, Copy)]
enum Asked<'p> {
    /// The servlet of a path.
    Servlet(&'p str),
    /// The first filter of a path.
    First(&'p str),
    /// The filter of a path behind another.
    Behind(&'p str, u64),
    /// The page of a status.
    Page(u16),
}

fn answer(chains: &Chains, asked: &Asked<'_>) -> Option<u64> {
    match asked {
        Asked::Servlet(path) => chains.servlet(path),
        Asked::First(path) => chains.filter(path, None),
        Asked::Behind(path, before) => chains.filter(path, Some(*before)),
        Asked::Page(status) => chains.page("/u", *status),
    }
}

// Whether the services that are told of are these, 0 where none is.
fn tell(chains: &Chains, rows: &[(Asked<'_>, u64)]) -> bool {
    for (asked, wanted) in rows {
        if answer(chains, asked).unwrap_or(0) != *wanted {
            return false;
        }
    }
    true
}

fn holds(
    alloc: Global,
    contexts: &[ServiceRow],
    pages: &[ServiceRow],
    rows: &[(Asked<'_>, u64)],
) -> bool {
    match chains(alloc, contexts, pages) {
        Ok(chains) => tell(&chains, rows),
        Err(_) => false,
    }
}

const BY_PATH: &[(Asked<'_>, u64)] = &[
    (Asked::Servlet("/s"), 1),
    (Asked::First("/s"), 3),
    (Asked::Servlet("/t"), 2),
    (Asked::First("/t"), 4),
    (Asked::Servlet("/u"), 0),
    (Asked::First("/u"), 0),
];

#[test]
fn the_better_filter_comes_first(rt: HostRuntime) {
    assert!(rt; holds(rt.alloc(), &[], &[], BY_PATH));
}

const BEHIND: &[(Asked<'_>, u64)] = &[
    (Asked::Behind("/t", 4), 3),
    (Asked::Behind("/t", 3), 0),
    (Asked::Behind("/s", 4), 0),
];

#[test]
fn each_filter_has_one_behind_it(rt: HostRuntime) {
    assert!(rt; holds(rt.alloc(), &[], &[], BEHIND));
}

// A page that names two statuses.
fn page(alloc: Global, id: u64, first: &str, second: &str) -> Result<ServiceRow, OutOfMemory> {
    let texts = two_texts(alloc, first, second)?;
    with_value(alloc, id, ERROR_PAGE, texts)
}

fn page_tells(alloc: Global, rows: &[(Asked<'_>, u64)]) -> bool {
    match page(alloc, 5, "404", "5xx") {
        Ok(page) => holds(alloc, &[], &[page], rows),
        Err(_) => false,
    }
}

const BY_STATUS: &[(Asked<'_>, u64)] = &[
    (Asked::Page(404), 5),
    (Asked::Page(503), 5),
    (Asked::Page(403), 0),
];

#[test]
fn a_page_tells_of_its_statuses(rt: HostRuntime) {
    assert!(rt; page_tells(rt.alloc(), BY_STATUS));
}

// A page by its status and a better one.
fn two_pages(alloc: Global) -> Result<[ServiceRow; 2], OutOfMemory> {
    let first = page(alloc, 5, "404", "5xx")?;
    match better(alloc, 6, ERROR_PAGE, "4xx", 9) {
        Ok(second) => Ok([first, second]),
        Err(error) => Err(error),
    }
}

fn two_pages_tell(alloc: Global, rows: &[(Asked<'_>, u64)]) -> bool {
    match two_pages(alloc) {
        Ok(pages) => holds(alloc, &[], &pages, rows),
        Err(_) => false,
    }
}

const BY_BETTER: &[(Asked<'_>, u64)] = &[(Asked::Page(404), 5), (Asked::Page(403), 6)];

#[test]
fn a_page_by_its_status_goes_before_a_better_one(rt: HostRuntime) {
    assert!(rt; two_pages_tell(rt.alloc(), BY_BETTER));
}

// Pages of what is no status.
fn no_pages(alloc: Global) -> Result<[ServiceRow; 2], OutOfMemory> {
    let first = page(alloc, 5, "000", "1000")?;
    match with_value(alloc, 6, ERROR_PAGE, Value::Whole(404)) {
        Ok(second) => Ok([first, second]),
        Err(error) => Err(error),
    }
}

fn no_pages_tell(alloc: Global, rows: &[(Asked<'_>, u64)]) -> bool {
    match no_pages(alloc) {
        Ok(pages) => holds(alloc, &[], &pages, rows),
        Err(_) => false,
    }
}

const BY_NONE: &[(Asked<'_>, u64)] = &[
    (Asked::Page(0), 0),
    (Asked::Page(404), 0),
    (Asked::Page(1000), 0),
];

#[test]
fn no_page_tells_of_what_is_no_status(rt: HostRuntime) {
    assert!(rt; no_pages_tell(rt.alloc(), BY_NONE));
}

fn other_context_has_none(alloc: Global, rows: &[(Asked<'_>, u64)]) -> bool {
    match context(alloc, 7, "ca", "/s") {
        Ok(context) => holds(alloc, &[context], &[], rows),
        Err(_) => false,
    }
}

const IN_ANOTHER: &[(Asked<'_>, u64)] = &[(Asked::Servlet("/s"), 1), (Asked::First("/s"), 3)];

#[test]
fn no_filter_is_of_another_context(rt: HostRuntime) {
    assert!(rt; other_context_has_none(rt.alloc(), IN_ANOTHER));
}
