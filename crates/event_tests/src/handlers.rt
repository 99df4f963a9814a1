//! The handlers of an event.

use crate::samples::{event, service, text, texts};
use event_admin::{Event, Topic};
use event_handlers::{Handlers, handlers_of};
use prop_map::{OutOfMemory, Value};
use service_registry::ServiceRow;
use std::alloc::Global;

// A handler with these topics and such a filter.
fn filtered(
    alloc: Global,
    id: u64,
    ranking: i64,
    topics: &str,
    filter: Value,
) -> Result<ServiceRow, OutOfMemory> {
    let topics = text(alloc, topics)?;
    let mut row = service(alloc, id, ranking, "event.topics", topics)?;
    row.properties.set(alloc, "event.filter", filter)?;
    Ok(row)
}

// A handler with these topics and this filter.
fn filtered_by(
    alloc: Global,
    id: u64,
    ranking: i64,
    topics: &str,
    filter: &str,
) -> Result<ServiceRow, OutOfMemory> {
    let filter = text(alloc, filter)?;
    filtered(alloc, id, ranking, topics, filter)
}

fn plain(alloc: Global, topics: &str) -> Result<ServiceRow, OutOfMemory> {
    let topics = text(alloc, topics)?;
    service(alloc, 1, 0, "event.topics", topics)
}

fn two_handlers(alloc: Global) -> Result<[ServiceRow; 2], OutOfMemory> {
    let plain = plain(alloc, "a/*")?;
    match filtered_by(alloc, 2, 1, "a/b", "(v>=2)") {
        Ok(filtered) => Ok([plain, filtered]),
        Err(error) => Err(error),
    }
}

fn are_handlers(alloc: Global, rows: &[ServiceRow], event: &Event, expected: &[u64]) -> bool {
    match handlers_of(alloc, rows, event) {
        Ok(numbers) => numbers.as_slice() == expected,
        Err(_) => false,
    }
}

fn are_of_event(alloc: Global, handlers: &Handlers, event: &Event, expected: &[u64]) -> bool {
    match handlers.of_event(alloc, event) {
        Ok(numbers) => numbers.as_slice() == expected,
        Err(_) => false,
    }
}

fn are_read_handlers(alloc: Global, rows: &[ServiceRow], event: &Event, expected: &[u64]) -> bool {
    match Handlers::of(alloc, rows) {
        Ok(handlers) => are_of_event(alloc, &handlers, event, expected),
        Err(_) => false,
    }
}

fn handled(
    alloc: Global,
    rows: &[ServiceRow],
    topic: &Topic<'_>,
    v: i64,
    expected: &[u64],
) -> bool {
    match event(alloc, topic, v) {
        Ok(event) => {
            are_handlers(alloc, rows, &event, expected)
                && are_read_handlers(alloc, rows, &event, expected)
        }
        Err(_) => false,
    }
}

// Whether these services handle an event, by their rows and by what was read of them.
fn handled_by(alloc: Global, rows: &[ServiceRow], topic: &str, v: i64, expected: &[u64]) -> bool {
    match Topic::parse(topic) {
        Ok(topic) => handled(alloc, rows, &topic, v, expected),
        Err(_) => false,
    }
}

fn one_handles(alloc: Global, row: Result<ServiceRow, OutOfMemory>, topic: &str) -> bool {
    match row {
        Ok(row) => handled_by(alloc, &[row], topic, 1, &[1]),
        Err(_) => false,
    }
}

fn two_handle(alloc: Global) -> bool {
    match two_handlers(alloc) {
        Ok(rows) => {
            handled_by(alloc, &rows, "a/b", 1, &[1])
                && handled_by(alloc, &rows, "a/b", 3, &[2, 1])
                && handled_by(alloc, &rows, "a", 3, &[])
                && handled_by(alloc, &rows, "ab", 3, &[])
        }
        Err(_) => false,
    }
}

#[test]
fn the_better_handler_comes_first(rt: HostRuntime) {
    assert!(rt; two_handle(rt.alloc()));
}

// One with several topics, of which one is none.
fn of_several(alloc: Global) -> Result<ServiceRow, OutOfMemory> {
    let topics = texts(alloc, &["c", "a//b", "a/b"])?;
    service(alloc, 1, 0, "event.topics", topics)
}

#[test]
fn one_of_several_topics_is_enough(rt: HostRuntime) {
    assert!(rt; one_handles(rt.alloc(), of_several(rt.alloc()), "a/b"));
}

#[test]
fn a_filter_sees_the_topic(rt: HostRuntime) {
    let row = filtered_by(rt.alloc(), 1, 0, "*", "(event.topics=a/b)");
    assert!(rt; one_handles(rt.alloc(), row, "a/b"));
}

fn number_covers_nothing(alloc: Global) -> bool {
    match service(alloc, 1, 0, "event.topics", Value::Whole(1)) {
        Ok(row) => handled_by(alloc, &[row], "a", 1, &[]),
        Err(_) => false,
    }
}

#[test]
fn topics_that_are_no_text_cover_nothing(rt: HostRuntime) {
    assert!(rt; number_covers_nothing(rt.alloc()));
}

// Two whose filters are none, and a third.
fn bad_filters(alloc: Global) -> Result<[ServiceRow; 3], OutOfMemory> {
    let bad = filtered_by(alloc, 1, 0, "*", "(v>=2")?;
    let number = filtered(alloc, 2, 0, "*", Value::Whole(2))?;
    match filtered_by(alloc, 3, 0, "*", "(v>=2)") {
        Ok(good) => Ok([bad, number, good]),
        Err(error) => Err(error),
    }
}

fn third_handles(alloc: Global) -> bool {
    match bad_filters(alloc) {
        Ok(rows) => handled_by(alloc, &rows, "a", 2, &[3]),
        Err(_) => false,
    }
}

#[test]
fn a_filter_that_is_none_keeps_its_handler_out(rt: HostRuntime) {
    assert!(rt; third_handles(rt.alloc()));
}
