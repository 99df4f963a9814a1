//! The filters of a path, one after the other.
ghost use Rattle.std.specs.List.{list_any};
ghost use Rattle.std.specs.Option.{option_copied};
ghost use Rattle.std.specs.Prelude.{◌≡◌, Some, filter};
ghost use Rattle.wb_context.specs.ContextOrder.{rest_in};
ghost use Rattle.wb_filters.specs.Chains.{behind, chain_at, first, has_place, is_on_way, next_in, services};
ghost use Rattle.wb_filters.specs.Inside.{is_it};

use crate::board_service::BoardService;
use crate::fitting::fits;
use prop_map::Str;
use wb_context::{Context, rest_in};
use wb_pattern::Pattern;

/// The first filter of a path's chain in the context where its servlet takes it, or the one behind another. It takes no
/// memory.
#[tactic(auto, using(crate::proofs::FilterLemmas::none_next))]
pub(crate) fn next_at(
    filters: &[BoardService],
    home: Option<&Context>,
    path: &str,
    after: Option<u64>,
) -> Option<u64>
    ensures { result ≡ next_in (chain_at (option_copied home.entry) filters.now path.now) after }
{
    match home {
        Some(context) => next_in(filters, context, path, after),
        None => None,
    }
}

fn next_in(
    filters: &[BoardService],
    context: &Context,
    path: &str,
    after: Option<u64>,
) -> Option<u64>
    ensures { result ≡ next_in (chain_at (Some context.now) filters.now path.now) after }
{
    let rest = rest_of(context, path);
    next_of(filters, context, rest, after)
}

fn rest_of<'p>(context: &Context, path: &'p str) -> &'p [u8]
    ensures { result.now ≡ rest_in context.now.path path.now }
{
    rest_in(context.path.as_str().as_bytes(), path.as_bytes())
}

fn next_of(
    filters: &[BoardService],
    context: &Context,
    rest: &[u8],
    after: Option<u64>,
) -> Option<u64>
    ensures { result ≡ next_in (services (filter (is_on_way context.now rest.now) filters.now)) after }
{
    match after {
        None => first(filters, context, rest),
        Some(number) => behind(filters, context, rest, number),
    }
}

#[tactic(auto, using(crate::proofs::FilterLemmas::first_here, crate::proofs::FilterLemmas::first_later))]
fn first(filters: &[BoardService], context: &Context, rest: &[u8]) -> Option<u64>
    ensures { result ≡ first (services (filter (is_on_way context.now rest.now) filters.now)) }
{
    for filter in filters {
        if is_on_way(filter, context, rest) {
            return Some(filter.service);
        }
    }
    None
}

#[tactic(auto, using(crate::proofs::FilterLemmas::behind_here, crate::proofs::FilterLemmas::behind_later))]
fn behind(filters: &[BoardService], context: &Context, rest: &[u8], number: u64) -> Option<u64>
    ensures { result ≡ behind number (services (filter (is_on_way context.now rest.now) filters.now)) }
{
    for (place, filter) in filters.iter().enumerate() {
        if is_it(filter, context, rest, number) {
            return first(&filters[place + 1..], context, rest);
        }
    }
    None
}

// Whether it is the one of a number, and on the way.
fn is_it(filter: &BoardService, context: &Context, rest: &[u8], number: u64) -> bool
    ensures { result ≡ is_it context.now rest.now number filter.now }
{
    filter.service == number && is_on_way(filter, context, rest)
}

fn is_on_way(filter: &BoardService, context: &Context, rest: &[u8]) -> bool
    ensures { result ≡ is_on_way context.now rest.now filter.now }
{
    filter.select.selects(context) && has_place(filter.texts.as_slice(), rest)
}

fn has_place(texts: &[Str], rest: &[u8]) -> bool
    ensures { result ≡ list_any (has_place rest.now) texts.now }
{
    for text in texts {
        if is_placed(text.as_str().as_bytes(), rest) {
            return true;
        }
    }
    false
}

fn is_placed(text: &[u8], rest: &[u8]) -> bool
    ensures { result ≡ has_place rest.now text.now }
{
    match Pattern::spelled(text) {
        Some(pattern) => fits(&pattern, rest),
        None => false,
    }
}
