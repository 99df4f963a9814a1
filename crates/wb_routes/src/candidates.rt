//! Which pattern of a table takes a path.
ghost use Rattle.std.specs.Option.{option_copied};
ghost use Rattle.std.specs.Prelude.{◌≡◌, ◌≤◌, length};
ghost use Rattle.wb_pattern.specs.Places.{is_at_slash};
ghost use Rattle.wb_routes.specs.Candidates.{equal_text, extension_of, texts_above, texts_at, with_star};
ghost use Rattle.wb_routes.specs.Choices.{first_owner, owner_if, owner_in, taker, taker_behind, taker_by_end, taker_in};
ghost use Rattle.wb_routes.specs.Tables.{Ascends};

use crate::RouteRow;
use crate::table::{Table, owner_in};
use wb_context::{covers, rest_in};
use wb_pattern::Pattern;

/// The servlet of a context that takes a request's path, if it lies there and one does. It takes no memory.
pub(crate) fn taker_in(table: &Table, path: &[u8]) -> Option<u64>
    requires { Ascends table.now.rows }
    ensures { result ≡ taker_in table.now.context (owner_in table.now.rows) path.now }
{
    let context_path = table.context.path.as_str().as_bytes();
    if covers(context_path, path) {
        taker(table.rows.as_slice(), rest_in(context_path, path))
    } else {
        None
    }
}

fn taker(rows: &[RouteRow], rest: &[u8]) -> Option<u64>
    requires { Ascends rows.now }
    ensures { result ≡ taker (owner_in rows.now) rest.now }
{
    match equal_owner(rows, rest) {
        Some(service) => Some(service),
        None => taker_behind(rows, rest),
    }
}

// Where no pattern is equal to the rest.
fn taker_behind(rows: &[RouteRow], rest: &[u8]) -> Option<u64>
    requires { Ascends rows.now }
    ensures { result ≡ taker_behind (owner_in rows.now) rest.now }
{
    match owner_above(rows, rest) {
        Some(service) => Some(service),
        None => taker_by_end(rows, rest),
    }
}

// Where none is above it either.
fn taker_by_end(rows: &[RouteRow], rest: &[u8]) -> Option<u64>
    requires { Ascends rows.now }
    ensures { result ≡ taker_by_end (owner_in rows.now) rest.now }
{
    match extension_owner(rows, rest) {
        Some(service) => Some(service),
        None => owner_in(rows, b"/", b""),
    }
}

fn equal_owner(rows: &[RouteRow], rest: &[u8]) -> Option<u64>
    requires { Ascends rows.now }
    ensures { result ≡ owner_if (owner_in rows.now) (equal_text rest.now) }
{
    match Pattern::spelled(rest) {
        Some(Pattern::Exact(path)) => owner_in(rows, path, b""),
        Some(Pattern::Fallback) => owner_in(rows, b"", b""),
        _ => None,
    }
}

// The owner of the longest path above the rest, or at it.
#[tactic(auto, using(crate::proofs::StepLemmas::found_step, crate::proofs::StepLemmas::missed_step))]
fn owner_above(rows: &[RouteRow], rest: &[u8]) -> Option<u64>
    requires { Ascends rows.now }
    ensures { result ≡ first_owner (owner_in rows.now) (texts_above rest.now) }
{
    let mut end = rest.len();
    while end > 0 {
        if let Some(service) = owner_at(rows, rest, end) {
            return Some(service);
        }
        end -= 1;
    }
    owner_at(rows, rest, 0)
}

// The owner of the path that is the rest's front of this length, if the rest ends there or goes on with a slash.
#[tactic(auto, using(crate::proofs::StepLemmas::one_owner))]
fn owner_at(rows: &[RouteRow], rest: &[u8], end: usize) -> Option<u64>
    requires within { end ≤ length rest.now }
    requires order { Ascends rows.now }
    ensures { result ≡ first_owner (owner_in rows.now) (texts_at rest.now end) }
{
    if is_at_slash(&rest[end..]) {
        owner_in(rows, &rest[..end], b"/*")
    } else {
        None
    }
}

fn is_at_slash(rest: &[u8]) -> bool
    ensures { result ≡ is_at_slash rest.now }
{
    match rest {
        [] => true,
        [next, ..] => *next == b'/',
    }
}

fn extension_owner(rows: &[RouteRow], rest: &[u8]) -> Option<u64>
    requires { Ascends rows.now }
    ensures { result ≡ owner_if (owner_in rows.now) (with_star (extension_of rest.now)) }
{
    match extension_of(rest) {
        Some(extension) => owner_in(rows, b"*.", extension),
        None => None,
    }
}

#[tactic(auto, using(crate::proofs::StepLemmas::at_dot, crate::proofs::StepLemmas::at_other, crate::proofs::StepLemmas::at_slash))]
fn extension_of(path: &[u8]) -> Option<&[u8]>
    ensures { option_copied result ≡ extension_of path.now }
{
    let mut end = path.len();
    while end > 0 {
        end -= 1;
        match path[end] {
            b'.' => return Some(&path[end + 1..]),
            b'/' => return None,
            _ => {}
        }
    }
    None
}
