//! Topics, patterns, filters and statuses beyond all measure.

use crate::samples::{event, service, text};
use event_admin::{Topic, TopicPattern};
use event_handlers::handlers_of;
use prop_map::{List, OutOfMemory, Str, Value};
use service_registry::ServiceRow;
use std::alloc::Global;

// A text that repeats a part so often, with an end.
fn repeated(alloc: Global, part: &str, times: u64, end: &str) -> Result<String, OutOfMemory> {
    let mut text = String::new(alloc);
    for _ in 0..times {
        text.push_str(part)?;
    }
    text.push_str(end)?;
    Ok(text)
}

fn covers_itself(text: &str) -> bool {
    match TopicPattern::parse(text) {
        Ok(pattern) => match Topic::parse(text) {
            Ok(topic) => pattern.covers(&topic),
            Err(_) => false,
        },
        Err(_) => false,
    }
}

fn mebibyte_covers_itself(alloc: Global) -> bool {
    match repeated(alloc, "aaa/", 262_144, "a") {
        Ok(text) => covers_itself(text.as_str()),
        Err(_) => false,
    }
}

#[test]
fn a_topic_of_a_mebibyte_is_read(rt: HostRuntime) {
    assert!(rt; mebibyte_covers_itself(rt.alloc()));
}

fn is_no_topic(text: &str, place: usize) -> bool {
    match Topic::parse(text) {
        Ok(_) => false,
        Err(bad) => bad.at == place,
    }
}

fn is_no_pattern(text: &str, place: usize) -> bool {
    match TopicPattern::parse(text) {
        Ok(_) => false,
        Err(bad) => bad.at == place,
    }
}

fn mebibyte_is_no_topic(alloc: Global) -> bool {
    match repeated(alloc, "aaa/", 262_144, "é") {
        Ok(text) => {
            is_no_topic(text.as_str(), 1_048_576) && is_no_pattern(text.as_str(), 1_048_576)
        }
        Err(_) => false,
    }
}

#[test]
fn a_text_of_a_mebibyte_is_no_topic_at_its_end(rt: HostRuntime) {
    assert!(rt; mebibyte_is_no_topic(rt.alloc()));
}

fn add(alloc: Global, patterns: &mut Vec<Str>, pattern: &str) -> Result<(), OutOfMemory> {
    let pattern = Str::spell(alloc, pattern)?;
    patterns.push(pattern)?;
    Ok(())
}

// A hundred thousand patterns that cover nothing but their own topic, and one more.
fn many_patterns(alloc: Global) -> Result<Value, OutOfMemory> {
    let mut patterns = Vec::new(alloc);
    for _ in 0..100_000 {
        add(alloc, &mut patterns, "a/c")?;
    }
    add(alloc, &mut patterns, "a/*")?;
    Ok(Value::Texts(List::of(patterns)))
}

// A handler with these topics.
fn with_topics(
    alloc: Global,
    topics: Result<Value, OutOfMemory>,
) -> Result<ServiceRow, OutOfMemory> {
    service(alloc, 1, 0, "event.topics", topics?)
}

// Whether an event of the topic, with 0 at `v`, has these handlers.
fn are_handlers(alloc: Global, rows: &[ServiceRow], topic: &Topic<'_>, expected: &[u64]) -> bool {
    match event(alloc, topic, 0) {
        Ok(event) => match handlers_of(alloc, rows, &event) {
            Ok(numbers) => numbers.as_slice() == expected,
            Err(_) => false,
        },
        Err(_) => false,
    }
}

fn are_handlers_of(alloc: Global, row: ServiceRow, topic: &str, expected: &[u64]) -> bool {
    match Topic::parse(topic) {
        Ok(topic) => are_handlers(alloc, &[row], &topic, expected),
        Err(_) => false,
    }
}

fn one_of_many_covers(alloc: Global) -> bool {
    match with_topics(alloc, many_patterns(alloc)) {
        Ok(row) => are_handlers_of(alloc, row, "a/b", &[1]),
        Err(_) => false,
    }
}

#[test]
fn one_of_a_hundred_thousand_patterns_is_found(rt: HostRuntime) {
    assert!(rt; one_of_many_covers(rt.alloc()));
}

// A comparison inside so many `&` of one filter each.
fn comparison_inside(alloc: Global, outer: u64) -> Result<String, OutOfMemory> {
    let mut filter = repeated(alloc, "(&", outer, "(v=0)")?;
    for _ in 0..outer {
        filter.push_str(")")?;
    }
    Ok(filter)
}

// A handler whose filter is that.
fn filtered_inside(alloc: Global, outer: u64) -> Result<ServiceRow, OutOfMemory> {
    let filter = comparison_inside(alloc, outer)?;
    let mut row = with_topics(alloc, text(alloc, "*"))?;
    row.properties
        .set(alloc, "event.filter", Value::Text(Str::of(filter)))?;
    Ok(row)
}

fn handles_inside(alloc: Global, outer: u64, expected: &[u64]) -> bool {
    match filtered_inside(alloc, outer) {
        Ok(row) => are_handlers_of(alloc, row, "a", expected),
        Err(_) => false,
    }
}

#[test]
fn a_filter_of_65_levels_keeps_its_handler_out(rt: HostRuntime) {
    assert!(rt; handles_inside(rt.alloc(), 63, &[1]) && handles_inside(rt.alloc(), 64, &[]));
}
