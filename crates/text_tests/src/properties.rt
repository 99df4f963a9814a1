use crate::shown::is_printed;
use prop_map::{
    Cardinality, Copies, List, OutOfMemory, Policy, PolicyOption, PropFault, Properties, Str, Value,
};
use std::alloc::Global;

fn copy_is_same<T: Copies + PartialEq + Drop>(alloc: Global, value: &T) -> bool {
    match value.copy(alloc) {
        Ok(copy) => copy == *value,
        Err(_) => false,
    }
}

fn list_with(alloc: Global, text: Str) -> Option<List<Str>> {
    let mut texts = List::of(Vec::new(alloc));
    match texts.push(text) {
        Ok(()) => Some(texts),
        Err(_) => None,
    }
}

// A list of one text.
fn list_of(alloc: Global, text: &str) -> Option<List<Str>> {
    match Str::spell(alloc, text) {
        Ok(text) => list_with(alloc, text),
        Err(_) => None,
    }
}

fn list_equals_its_copy(alloc: Global) -> bool {
    match list_of(alloc, "first") {
        Some(texts) => copy_is_same(alloc, &texts),
        None => false,
    }
}

fn some_equals_its_copy(alloc: Global) -> bool {
    match Str::spell(alloc, "log") {
        Ok(text) => copy_is_same(alloc, &Some(text)),
        Err(_) => false,
    }
}

#[test]
fn a_list_of_texts_equals_its_copy(rt: HostRuntime) {
    let alloc = rt.alloc();
    assert!(rt; list_equals_its_copy(alloc) && some_equals_its_copy(alloc));
}

fn shows_itself(alloc: Global, text: &str) -> bool {
    match Str::spell(alloc, text) {
        Ok(shown) => is_printed(alloc, &shown, text),
        Err(_) => false,
    }
}

#[test]
fn a_text_shows_itself(rt: HostRuntime) {
    assert!(rt; shows_itself(rt.alloc(), "a b"));
}

#[test]
fn words_are_told_apart(rt: HostRuntime) {
    assert!(rt;
        Cardinality::One != Cardinality::OneOrMore
            && Policy::Static != Policy::Dynamic
            && PolicyOption::Reluctant != PolicyOption::Greedy
    );
}

fn properties(alloc: Global, text: &str) -> Result<Properties, PropFault> {
    match serde_json::Value::from_str(alloc, text) {
        Ok(json) => Properties::from_json(alloc, &json),
        Err(_) => Err(PropFault::OutOfMemory),
    }
}

fn one_at_a(alloc: Global) -> Result<Properties, OutOfMemory> {
    let mut properties = Properties::new(alloc);
    properties.set(alloc, "a", Value::Whole(1))?;
    Ok(properties)
}

// Whether a map over another hides its value of a key that differs by case alone.
fn gives_way(alloc: Global, under: &Properties, over: &Properties) -> bool {
    match under.merge(alloc, over) {
        Ok(both) => both.is_same(over) && is_whole(&both, "a", 3),
        Err(_) => false,
    }
}

fn is_whole(properties: &Properties, key: &str, wanted: i64) -> bool {
    match properties.get(key) {
        Some(Value::Whole(value)) => *value == wanted,
        _ => false,
    }
}

fn one_gives_way(alloc: Global, over: &Properties) -> bool {
    match one_at_a(alloc) {
        Ok(under) => gives_way(alloc, &under, over),
        Err(_) => false,
    }
}

fn gives_way_to(alloc: Global, over: &str) -> bool {
    match properties(alloc, over) {
        Ok(over) => one_gives_way(alloc, &over),
        Err(_) => false,
    }
}

#[test]
fn a_map_gives_way_to_the_one_over_it(rt: HostRuntime) {
    assert!(rt; gives_way_to(rt.alloc(), "{\"A\":3}"));
}

fn contains_all(text: &str, parts: &[&str]) -> bool {
    for part in parts {
        if !text.contains(part) {
            return false;
        }
    }
    true
}

// Whether three properties are shown, these among them.
fn are_shown(alloc: Global, map: &Properties, parts: &[&str]) -> bool {
    match format!(in alloc; "{map:?}") {
        Ok(shown) => map.as_slice().len() == 3 && contains_all(shown.as_str(), parts),
        Err(_) => false,
    }
}

fn gives(alloc: Global, text: &str, parts: &[&str]) -> bool {
    match properties(alloc, text) {
        Ok(map) => are_shown(alloc, &map, parts),
        Err(_) => false,
    }
}

#[test]
fn an_object_gives_properties(rt: HostRuntime) {
    let parts = ["Flags([true])", "Texts([])", "Wholes([-1])"];
    assert!(rt;
        gives(
            rt.alloc(),
            "{\"n\":null,\"f\":[true],\"w\":[-1],\"e\":[]}",
            &parts
        )
    );
}

fn float_is_told(alloc: Global, key: &str, wanted: &str) -> bool {
    match Str::spell(alloc, key) {
        Ok(key) => is_printed(alloc, &PropFault::FloatValue { key }, wanted),
        Err(_) => false,
    }
}

#[test]
fn a_fault_is_told(rt: HostRuntime) {
    assert!(rt;
        float_is_told(
            rt.alloc(),
            "a",
            "the number at a is no whole number in 64 bits"
        )
    );
}
