//! Topics, patterns of topics, and events.

use crate::samples::event;
use event_admin::{BadTopic, Event, Topic, TopicPattern};
use prop_map::Value;
use std::alloc::Global;

fn is_no_topic(text: &str, place: usize) -> bool {
    match Topic::parse(text) {
        Ok(_) => false,
        Err(bad) => bad.at == place,
    }
}

fn are_no_topics(rows: &[(&str, usize)]) -> bool {
    for (text, place) in rows {
        if !is_no_topic(text, *place) {
            return false;
        }
    }
    true
}

const NO_TOPICS: &[(&str, usize)] = &[
    ("a//b", 2),
    ("", 0),
    ("/a", 0),
    ("a/", 2),
    ("a b", 1),
    ("a/é", 2),
];

#[test]
fn a_fault_tells_where_a_text_ceases_to_be_a_topic(rt: HostRuntime) {
    assert!(rt; are_no_topics(NO_TOPICS));
}

fn is_no_pattern(text: &str, place: usize) -> bool {
    match TopicPattern::parse(text) {
        Ok(_) => false,
        Err(bad) => bad.at == place,
    }
}

fn are_no_patterns(rows: &[(&str, usize)]) -> bool {
    for (text, place) in rows {
        if !is_no_pattern(text, *place) {
            return false;
        }
    }
    true
}

const NO_PATTERNS: &[(&str, usize)] = &[
    ("a/*/b", 3),
    ("*a", 1),
    ("a*", 1),
    ("", 0),
    ("/*", 0),
    ("é", 0),
];

#[test]
fn a_fault_tells_where_a_text_ceases_to_be_a_pattern(rt: HostRuntime) {
    assert!(rt; are_no_patterns(NO_PATTERNS));
}

// Whether the one is a pattern, the other a topic, and it is so that the one covers the other.
fn covers(pattern: &str, topic: &str, covered: bool) -> bool {
    match TopicPattern::parse(pattern) {
        Ok(pattern) => match Topic::parse(topic) {
            Ok(topic) => pattern.covers(&topic) == covered,
            Err(_) => false,
        },
        Err(_) => false,
    }
}

fn cover(rows: &[(&str, &str, bool)]) -> bool {
    for (pattern, topic, covered) in rows {
        if !covers(pattern, topic, *covered) {
            return false;
        }
    }
    true
}

// A pattern, a topic, and whether the one covers the other.
const COVERED: &[(&str, &str, bool)] = &[
    ("*", "a", true),
    ("a/b", "a/b", true),
    ("a/b", "a/c", false),
    ("a", "a/b", false),
    ("a/*", "a/b", true),
    ("a/*", "a/b/c", true),
    ("a/*", "a", false),
    ("a/*", "ab", false),
];

#[test]
fn patterns_cover_topics(rt: HostRuntime) {
    assert!(rt; cover(COVERED));
}

fn is_printed(alloc: Global, fault: &BadTopic, wanted: &str) -> bool {
    match format!(in alloc; "{fault}") {
        Ok(text) => text.as_str() == wanted,
        Err(_) => false,
    }
}

#[test]
fn a_fault_is_printed_with_its_place(rt: HostRuntime) {
    assert!(rt; is_printed(rt.alloc(), &BadTopic { at: 2 }, "no topic from byte 2 on"));
}

fn has_three(event: &Event, topic: &str) -> bool {
    let is_three = match event.properties().get("v") {
        Some(Value::Whole(v)) => *v == 3,
        _ => false,
    };
    is_three && event.topic().as_str() == topic
}

fn event_has_three(alloc: Global, text: &str) -> bool {
    match Topic::parse(text) {
        Ok(topic) => match event(alloc, &topic, 3) {
            Ok(event) => has_three(&event, text),
            Err(_) => false,
        },
        Err(_) => false,
    }
}

#[test]
fn an_event_has_its_topic_and_properties(rt: HostRuntime) {
    assert!(rt; event_has_three(rt.alloc(), "a/b"));
}
