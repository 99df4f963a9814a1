//! A map by text, and its copies.

use prop_map::{Copies, Str};
use shared_map::SharedMap;
use std::alloc::Global;

fn is_set(alloc: Global, map: &mut SharedMap<i64>, key: String, value: i64) -> bool {
    map.set(alloc, Str::of(key), value).is_ok()
}

fn sets(alloc: Global, map: &mut SharedMap<i64>, key: &str, value: i64) -> bool {
    match String::from_str(alloc, key) {
        Ok(key) => is_set(alloc, map, key, value),
        Err(_) => false,
    }
}

fn sets_digits(alloc: Global, map: &mut SharedMap<i64>, number: i64) -> bool {
    match format!(in alloc; "{number}") {
        Ok(digits) => is_set(alloc, map, digits, number),
        Err(_) => false,
    }
}

// Sets each number from 0 on below a limit, under its decimal digits.
fn fill(alloc: Global, map: &mut SharedMap<i64>, limit: i64) -> bool {
    for number in 0..limit {
        if !sets_digits(alloc, map, number) {
            return false;
        }
    }
    true
}

fn has(map: &SharedMap<i64>, key: &str, value: i64) -> bool {
    match map.value(key) {
        Some(found) => *found == value,
        None => false,
    }
}

fn has_last_values(alloc: Global) -> bool {
    let mut map = SharedMap::new(alloc);
    fill(alloc, &mut map, 40)
        && has(&map, "7", 7)
        && sets(alloc, &mut map, "7", 70)
        && has(&map, "7", 70)
        && has(&map, "0", 0)
        && has(&map, "39", 39)
        && map.value("40").is_none()
}

#[test]
fn each_key_has_its_last_value(rt: HostRuntime) {
    assert!(rt; has_last_values(rt.alloc()));
}

// Whether a map changes, and not the one of which it is a copy.
fn copy_changes(alloc: Global, before: &SharedMap<i64>, after: &mut SharedMap<i64>) -> bool {
    sets(alloc, after, "3", 30)
        && sets(alloc, after, "5", 5)
        && has(before, "3", 3)
        && before.value("5").is_none()
        && has(after, "3", 30)
        && has(after, "5", 5)
        && has(after, "1", 1)
}

fn changes_alone(alloc: Global, before: &SharedMap<i64>) -> bool {
    match before.copy(alloc) {
        Ok(mut after) => copy_changes(alloc, before, &mut after),
        Err(_) => false,
    }
}

fn copy_keeps_values(alloc: Global) -> bool {
    let mut before = SharedMap::new(alloc);
    fill(alloc, &mut before, 5) && changes_alone(alloc, &before)
}

#[test]
fn a_copy_keeps_its_values(rt: HostRuntime) {
    assert!(rt; copy_keeps_values(rt.alloc()));
}
