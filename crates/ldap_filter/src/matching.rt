//! When a value compares with that of a filter (OSGi Core 8, section 3.2.7 "Filter Syntax").
ghost use Rattle.ldap_filter.specs.Matching.{trimmed, whole_of, squeezed, begins, some_rest, ends_with_parts, consists_of, text_compares, whole_compares, number_compares, whole_matches, flag_matches, value_compares, value_has_parts};
ghost use Rattle.std.specs.Cmp.Lexicographic.{slice_cmp};
ghost use Rattle.std.specs.Ordering.{nat_cmp};
ghost use Rattle.ldap_filter.specs.Searching.{behind_first, found_in_order};
ghost use Rattle.std.specs.List.{list_any};
ghost use Rattle.std.specs.Option.{option_copied};
ghost use Rattle.std.specs.Char.{to_ascii_lowercase};
ghost use Rattle.std.specs.Prelude.{◌≡◌, codes, map};
ghost use Rattle.std.specs.Str.{bytes_eq};

use crate::Comparison;
use memchr::memmem;
use prop_map::{Str, Value};
use std::cmp::Ordering;

// The order of two texts without ASCII white space and case.
fn squeezed_order(a: &str, b: &str) -> Ordering
    ensures { result ≡ slice_cmp nat_cmp (squeezed a.now) (squeezed b.now) }
{
    let bytes = a
        .bytes()
        .filter(|byte| !byte.is_ascii_whitespace())
        .map(|byte| byte.to_ascii_lowercase());
    bytes.cmp(
        b.bytes()
            .filter(|byte| !byte.is_ascii_whitespace())
            .map(|byte| byte.to_ascii_lowercase()),
    )
}

fn text_compares(comparison: Comparison, value: &str, text: &str) -> bool
    ensures { result ≡ text_compares comparison value.now text.now }
{
    match comparison {
        Comparison::Equal => text == value,
        Comparison::Like => squeezed_order(text, value).is_eq(),
        Comparison::AtLeast => text >= value,
        Comparison::AtMost => text <= value,
    }
}

fn trimmed(text: &str) -> &str
    ensures { result.now ≡ trimmed text.now }
{
    text.trim_ascii()
}

fn whole_of(text: &str) -> Option<i64>
    ensures { result ≡ whole_of text.now }
{
    text.parse::<i64>().ok()
}

fn whole_compares(comparison: Comparison, value: i64, number: i64) -> bool
    ensures { result ≡ whole_compares comparison value number }
{
    match comparison {
        Comparison::Equal | Comparison::Like => number == value,
        Comparison::AtLeast => number >= value,
        Comparison::AtMost => number <= value,
    }
}

fn whole_matches(comparison: Comparison, value: &str, number: i64) -> bool
    ensures { result ≡ whole_matches comparison value.now number }
{
    match whole_of(trimmed(value)) {
        Some(value) => whole_compares(comparison, value, number),
        None => false,
    }
}

fn is_true(text: &str) -> bool
    ensures { result ≡ bytes_eq (map to_ascii_lowercase (trimmed text.now)) (codes "true") }
{
    trimmed(text).eq_ignore_ascii_case("true")
}

fn flag_matches(value: &str, flag: bool) -> bool
    ensures { result ≡ flag_matches value.now flag }
{
    is_true(value) == flag
}

// What is left of a text behind the first place where a part stands in it.
fn behind_first<'t>(text: &'t [u8], part: &[u8]) -> Option<&'t [u8]>
    ensures { option_copied result ≡ behind_first part.now text.now }
{
    match memmem::find(text, part) {
        Some(place) => {
            let (_, behind) = text.split_at(place + part.len());
            Some(behind)
        }
        None => None,
    }
}

fn ends_with(text: &[u8], part: &[u8]) -> bool
    ensures { result ≡ some_rest (λ rest. bytes_eq rest part.now) text.now }
{
    let mut rest = text;
    'rests: loop {
        if rest == part {
            return true;
        }
        match rest.split_first() {
            Some((_, tail)) => rest = tail,
            None => return false,
        }
    }
}

fn find_in_order(first: &Str, others: &[Str], text: &[u8]) -> bool
    ensures { result ≡ found_in_order first.now others.now text.now }
{
    let mut part = first;
    let mut rest = text;
    for next in others {
        match behind_first(rest, part.as_str().as_bytes()) {
            Some(behind) => rest = behind,
            None => return false,
        }
        part = next;
    }
    ends_with(rest, part.as_str().as_bytes())
}

#[tactic(auto, using(crate::proofs::Greedy::found_is))]
fn ends_with_parts(first: &Str, others: &[Str], text: &[u8]) -> bool
    ensures { result ≡ ends_with_parts first.now others.now text.now }
{
    find_in_order(first, others, text)
}

/// Whether a text is made of the parts in order, with any bytes between them. Where there is one part it is the text. It takes
/// no memory.
pub fn consists_of(parts: &[Str], text: &[u8]) -> bool
    ensures { result ≡ consists_of parts.now text.now }
{
    match parts {
        [] => false,
        [part] => text == part.as_str().as_bytes(),
        [part, next, others @ ..] => {
            let part = part.as_str().as_bytes();
            if !text.starts_with(part) {
                return false;
            }
            let (_, rest) = text.split_at(part.len());
            ends_with_parts(next, others, rest)
        }
    }
}

fn text_has_parts(parts: &[Str], text: &str) -> bool
    ensures { result ≡ consists_of parts.now text.now }
{
    consists_of(parts, text.as_bytes())
}

fn some_text(comparison: Comparison, value: &str, texts: &[Str]) -> bool
    ensures { result ≡ list_any (text_compares comparison value.now) texts.now }
{
    texts
        .iter()
        .any(|text| text_compares(comparison, value, text.as_str()))
}

fn some_whole(comparison: Comparison, value: &str, numbers: &[i64]) -> bool
    ensures { result ≡ list_any (whole_matches comparison value.now) numbers.now }
{
    numbers
        .iter()
        .any(|number| whole_matches(comparison, value, *number))
}

fn some_flag(value: &str, flags: &[bool]) -> bool
    ensures { result ≡ list_any (flag_matches value.now) flags.now }
{
    flags.iter().any(|flag| flag_matches(value, *flag))
}

fn some_text_has_parts(parts: &[Str], texts: &[Str]) -> bool
    ensures { result ≡ list_any (consists_of parts.now) texts.now }
{
    texts
        .iter()
        .any(|text| text_has_parts(parts, text.as_str()))
}

/// Whether a value compares so with a filter's: a list where one item does. It takes no memory.
pub fn value_compares(comparison: Comparison, value: &str, property: &Value) -> bool
    ensures { result ≡ value_compares comparison value.now property.now }
{
    match property {
        Value::Text(text) => text_compares(comparison, value, text.as_str()),
        Value::Whole(number) => whole_matches(comparison, value, *number),
        Value::Flag(flag) => flag_matches(value, *flag),
        Value::Texts(texts) => some_text(comparison, value, texts.as_slice()),
        Value::Wholes(numbers) => some_whole(comparison, value, numbers.as_slice()),
        Value::Flags(flags) => some_flag(value, flags.as_slice()),
    }
}

/// Whether a value has the parts in order, the first at its beginning and the last at its end. It takes no memory.
pub fn value_has_parts(parts: &[Str], property: &Value) -> bool
    ensures { result ≡ value_has_parts parts.now property.now }
{
    match property {
        Value::Text(text) => text_has_parts(parts, text.as_str()),
        Value::Texts(texts) => some_text_has_parts(parts, texts.as_slice()),
        Value::Whole(_) | Value::Flag(_) | Value::Wholes(_) | Value::Flags(_) => false,
    }
}
