//! The rows of listeners, found by their numbers, and told one after another.
ghost use Rattle.service_listeners.specs.Listening.{with_changes};
ghost use Rattle.service_listeners.specs.Numbers.{AreNumbered, AreRising, IsGiven, has_number};
ghost use Rattle.service_listeners.specs.Undoing.{untold, with_row, with_rows};
ghost use Rattle.service_listeners.specs.declared.listener.Listener.{Listener};
ghost use Rattle.row_places.specs.RowPlaces.{IsOnlyPlace, IsPlaceOrGap};
ghost use Rattle.std.specs.Option.{option_copied};
ghost use Rattle.std.specs.Ordering.{nat_cmp};
ghost use Rattle.std.specs.Prelude.{◌≡◌, ◌<◌, ◌≤◌, ◌==◌, ◌+◌, ◌++◌, ℕ, [], ◌∷◌, drop, filter, insert, length, map, not, take, vec_capacity, vec_len, MatchResult, OnErr, OnOk};

use crate::Listener;
use crate::telling::{tell_one, untell_one};
use prop_map::OutOfMemory;
use row_places::RowRoom;
use service_registry::ServiceRow;
use std::alloc::Global;

/// The place of the listener of a number.
pub(crate) fn place_of(rows: &[Listener], number: u64) -> Option<usize>
    requires { AreRising rows.now }
    ensures { IsOnlyPlace (has_number number) result rows.now }
{
    rows.binary_search_by(|listener| listener.number.cmp(&number))
        .ok()
}

// The place of the listener of a number, or the gap where it would stand.
fn place_or_gap(rows: &[Listener], number: u64) -> Result<usize, usize>
    requires { AreRising rows.now }
    ensures place { IsPlaceOrGap (λ (l : Listener). nat_cmp l.number number) result rows.now }
    ensures within { MatchResult result (λ place. place < length rows.now) (λ gap. gap ≤ length rows.now) }
{
    rows.binary_search_by(|listener| listener.number.cmp(&number))
}

/// Puts a listener in the place of the one of its number, or where it belongs, for which there is room.
pub(crate) fn put_into(rows: &mut Vec<Listener>, listener: Listener, room: RowRoom<Listener>)
    requires order { AreRising rows.old.items }
    requires room { length rows.old.items < room }
    ensures now { rows.new.items ≡ with_row listener rows.old.items }
    ensures numbered { (numbered : ℕ) → IsGiven numbered listener → AreNumbered numbered rows.old.items → AreNumbered numbered rows.new.items }
{
    match place_or_gap(rows.as_slice(), listener.number) {
        Ok(place) => rows[place] = listener,
        Err(gap) => room.insert(rows, gap, listener),
    }
}

// Puts a listener in the place of the one of its number, or where it belongs, for which the list has room.
fn put(rows: &mut Vec<Listener>, listener: Listener)
    requires order { AreRising rows.old.items }
    requires room { vec_len rows.old < vec_capacity rows.old }
    ensures now { rows.new.items ≡ with_row listener rows.old.items }
    ensures rising { AreRising rows.new.items }
    ensures room { vec_capacity rows.old ≤ vec_capacity rows.new }
    ensures more { vec_len rows.new ≤ vec_len rows.old + 1 }
{
    match place_or_gap(rows.as_slice(), listener.number) {
        Ok(place) => rows[place] = listener,
        Err(gap) => insert(rows, gap, listener),
    }
}

// Puts a listener at a place, for which the list has room.
fn insert(rows: &mut Vec<Listener>, place: usize, listener: Listener)
    requires within { place ≤ vec_len rows.old }
    requires room { vec_len rows.old < vec_capacity rows.old }
    ensures now { rows.new.items ≡ insert rows.old.items place listener }
    ensures room { vec_capacity rows.old ≤ vec_capacity rows.new }
    ensures more { vec_len rows.new ≤ vec_len rows.old + 1 }
{
    let _inserted = rows.insert(place, listener);
}

/// Puts each of some listeners at its place among others, which have room for them.
pub(crate) fn put_each(rows: &mut Vec<Listener>, listeners: &mut Vec<Listener>)
    requires order { AreRising rows.old.items }
    requires room { vec_len rows.old + vec_len listeners.old ≤ vec_capacity rows.old }
    ensures { rows.new.items ≡ with_rows listeners.old.items rows.old.items }
{
    while let Some(listener) = listeners.pop() {
        put(rows, listener);
    }
}

/// Moves the listeners of a bundle behind others, which have room for them.
pub(crate) fn move_those_of(rows: &mut Vec<Listener>, bundle: u64, moved: &mut Vec<Listener>)
    requires { vec_len moved.old + vec_len rows.old ≤ vec_capacity moved.old }
    ensures left { rows.new.items ≡ filter (λ (l : Listener). not (l.bundle == bundle)) rows.old.items }
    ensures moved { moved.new.items ≡ moved.old.items ++ filter (λ (l : Listener). l.bundle == bundle) rows.old.items }
    ensures room { vec_capacity moved.new ≡ vec_capacity moved.old }
    ensures fits { vec_len moved.new + vec_len rows.new ≤ vec_capacity moved.new }
{
    let mut at = 0;
    while at < rows.len() {
        if rows[at].bundle == bundle {
            moved.push_reserved(rows.remove(at));
        } else {
            at += 1;
        }
    }
}

/// Tells the listeners from a place on of a change: all, or, where there is no memory, none.
pub(crate) fn tell_from(
    rows: &mut [Listener],
    at: usize,
    alloc: Global,
    before: Option<&ServiceRow>,
    after: Option<&ServiceRow>,
) -> Result<(), OutOfMemory>
    requires { at ≤ length rows.old }
    ensures ok { OnOk result (rows.new ≡ take at rows.old ++ map (with_changes ((option_copied before.entry, option_copied after.entry) ∷ [])) (drop at rows.old)) }
    ensures err { OnErr result (rows.new ≡ rows.old) }
{
    if at == rows.len() {
        return Ok(());
    }
    tell_one(&mut rows[at], before, after)?;
    match tell_from(rows, at + 1, alloc, before, after) {
        Ok(()) => Ok(()),
        Err(fault) => {
            untell_one(&mut rows[at], alloc, before, after);
            Err(fault)
        }
    }
}

/// Takes back what the listeners from a place on were told last, which was of this change. It takes no memory.
pub(crate) fn untell_from(
    rows: &mut [Listener],
    at: usize,
    alloc: Global,
    before: Option<&ServiceRow>,
    after: Option<&ServiceRow>,
)
    requires { at ≤ length rows.old }
    ensures { rows.new ≡ take at rows.old ++ map (untold (option_copied before.entry, option_copied after.entry)) (drop at rows.old) }
{
    if at == rows.len() {
        return;
    }
    untell_one(&mut rows[at], alloc, before, after);
    untell_from(rows, at + 1, alloc, before, after);
}

/// Leaves out the listeners of a bundle.
pub(crate) fn keep_others(rows: &mut Vec<Listener>, bundle: u64)
    ensures { rows.new.items ≡ filter (λ (l : Listener). not (l.bundle == bundle)) rows.old.items }
{
    rows.retain(|listener| listener.bundle != bundle);
}
