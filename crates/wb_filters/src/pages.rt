//! The page of a status.
ghost use Rattle.std.specs.Option.{option_copied};
ghost use Rattle.std.specs.Prelude.{◌≡◌, Some};
ghost use Rattle.text_index.specs.Texts.{has_text};
ghost use Rattle.wb_filters.specs.Pages.{best_named, by_class, by_status, class_text, digit, is_named, is_within, page_at, status_text};

use crate::board_service::BoardService;
use prop_map::Str;
use wb_context::Context;

/// The page of a status in a context: the best one by the status, else the best by its class. It takes no memory.
pub(crate) fn page_at(pages: &[BoardService], over: Option<&Context>, status: u16) -> Option<u64>
    ensures { result ≡ page_at (option_copied over.entry) pages.now status }
{
    match over {
        Some(context) => page_in(pages, context, status),
        None => None,
    }
}

fn page_in(pages: &[BoardService], context: &Context, status: u16) -> Option<u64>
    ensures { result ≡ page_at (Some context.now) pages.now status }
{
    match by_status(pages, context, status) {
        Some(page) => Some(page),
        None => by_class(pages, context, status),
    }
}

fn by_status(pages: &[BoardService], context: &Context, status: u16) -> Option<u64>
    ensures { result ≡ by_status context.now pages.now status }
{
    if is_within(100, 999, status) {
        best_named(pages, context, &status_text(status))
    } else {
        None
    }
}

fn by_class(pages: &[BoardService], context: &Context, status: u16) -> Option<u64>
    ensures { result ≡ by_class context.now pages.now status }
{
    if is_within(400, 599, status) {
        best_named(pages, context, &class_text(status))
    } else {
        None
    }
}

fn is_within(low: u16, high: u16, n: u16) -> bool
    ensures { result ≡ is_within low high n }
{
    low <= n && n <= high
}

fn status_text(status: u16) -> [u8; 3]
    ensures { result ≡ status_text status }
{
    [digit(status / 100), digit(status / 10), digit(status)]
}

fn class_text(status: u16) -> [u8; 3]
    ensures { result ≡ class_text status }
{
    [digit(status / 100), b'x', b'x']
}

fn digit(n: u16) -> u8
    ensures { result ≡ digit n }
{
    b'0' + (n % 10) as u8
}

#[tactic(auto, using(crate::proofs::FirstLemmas::named_here, crate::proofs::FirstLemmas::named_later))]
fn best_named(pages: &[BoardService], context: &Context, text: &[u8]) -> Option<u64>
    ensures { result ≡ best_named text.now context.now pages.now }
{
    for page in pages {
        if is_named(page, context, text) {
            return Some(page.service);
        }
    }
    None
}

fn is_named(page: &BoardService, context: &Context, text: &[u8]) -> bool
    ensures { result ≡ is_named text.now context.now page.now }
{
    page.select.selects(context) && has_text(page.texts.as_slice(), text)
}

fn has_text(texts: &[Str], text: &[u8]) -> bool
    ensures { result ≡ has_text texts.now text.now }
{
    for one in texts {
        if one.as_str().as_bytes() == text {
            return true;
        }
    }
    false
}
