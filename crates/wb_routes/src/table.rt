//! The patterns of one context.
ghost use Rattle.std.specs.Cmp.Lexicographic.{slice_cmp};
ghost use Rattle.std.specs.Ordering.{nat_cmp};
ghost use Rattle.std.specs.Prelude.{◌≡◌, ◌++◌, slice_get};
ghost use Rattle.std.specs.Str.{bytes_eq};
ghost use Rattle.wb_routes.specs.Choices.{owner_in};
ghost use Rattle.wb_routes.specs.Tables.{Ascends, place_of, service_at};

use crate::RouteRow;
use prop_map::List;
use std::cmp::Ordering;
use wb_context::Context;

/// The patterns of a context, each with its best servlet, in byte order.
#[derive(Drop)]
pub(crate) struct Table {
    pub(crate) context: Context,
    pub(crate) rows: List<RouteRow>,
}

/// The service to which the pattern belongs whose text is a front and then an end, found by halving. It takes no memory.
pub(crate) fn owner_in(rows: &[RouteRow], front: &[u8], end: &[u8]) -> Option<u64>
    requires { Ascends rows.now }
    ensures { result ≡ owner_in rows.now (front.now ++ end.now) }
{
    service_at(rows, place_of(rows, front, end), front, end)
}

fn place_of(rows: &[RouteRow], front: &[u8], end: &[u8]) -> usize
    requires { Ascends rows.now }
    ensures { result ≡ place_of (front.now ++ end.now) rows.now }
{
    rows.partition_point(|row| text_order(row.pattern.as_str().as_bytes(), front, end).is_lt())
}

fn service_at(rows: &[RouteRow], place: usize, front: &[u8], end: &[u8]) -> Option<u64>
    ensures { result ≡ service_at (front.now ++ end.now) (slice_get rows.now place) }
{
    match rows.get(place) {
        Some(row) => {
            if is_text(row.pattern.as_str().as_bytes(), front, end) {
                Some(row.service)
            } else {
                None
            }
        }
        None => None,
    }
}

// Whether a text is a front and then an end.
fn is_text(text: &[u8], front: &[u8], end: &[u8]) -> bool
    ensures { result ≡ bytes_eq text.now (front.now ++ end.now) }
{
    text_order(text, front, end).is_eq()
}

// How a text compares with a front and then an end.
#[tactic(auto, using(crate::proofs::TableLemmas::joined))]
fn text_order(text: &[u8], front: &[u8], end: &[u8]) -> Ordering
    ensures { result ≡ slice_cmp nat_cmp text.now (front.now ++ end.now) }
{
    let (head, rest) = text.split_at(text.len().min(front.len()));
    head.cmp(front).then(rest.cmp(end))
}
