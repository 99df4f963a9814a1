//! The fields of a head, by their spans.
ghost use Rattle.std.specs.Prelude.{◌≡◌, length, map, All, codes, reverse, option_copied, slice_get};
ghost use Rattle.httparse.specs.Grammar.{skip_ows, trim_ows};
ghost use Rattle.httparse.specs.Spans.{IsHeaderWithin, header_bytes};
ghost use Rattle.http_wire.specs.FieldValues.{is_same_word, values_named, has_item, has_item_named};

use crate::pieces::Pieces;
use http_header::HeaderName;
use httparse::is_space_or_tab;
use httparse::spans::HeaderSpan;

fn trim_start(mut s: &[u8]) -> &[u8]
    ensures { result.now ≡ skip_ows s.now }
{
    while let [first, rest @ ..] = s
        && is_space_or_tab(*first)
    {
        s = rest;
    }
    s
}

fn trim_end(mut s: &[u8]) -> &[u8]
    ensures { result.now ≡ reverse (skip_ows (reverse s.now)) }
{
    while let [rest @ .., last] = s
        && is_space_or_tab(*last)
    {
        s = rest;
    }
    s
}

fn trim_ows(s: &[u8]) -> &[u8]
    ensures { result.now ≡ trim_ows s.now }
{
    trim_end(trim_start(s))
}

pub(crate) fn is_same_word(a: &[u8], b: &[u8]) -> bool
    ensures { result ≡ is_same_word a.now b.now }
{
    a.eq_ignore_ascii_case(b)
}

fn has_item(value: &[u8], word: &[u8]) -> bool
    ensures { result ≡ has_item word.now value.now }
{
    Pieces::new(value, b',').any(|piece| is_same_word(trim_ows(piece), word))
}

/// How many fields have the name.
pub(crate) fn count_named(bytes: &[u8], fields: &[HeaderSpan], name: &HeaderName) -> usize
    requires { All (IsHeaderWithin (length bytes.now)) fields.now }
    ensures { result ≡ length (values_named name.now (map (header_bytes bytes.now) fields.now)) }
{
    let mut count = 0;
    for field in fields {
        if is_same_word(field.name.of(bytes), name.as_bytes()) {
            count += 1;
        }
    }
    count
}

/// The value of the first field that has the name.
pub(crate) fn first_named<'b>(
    bytes: &'b [u8],
    fields: &[HeaderSpan],
    name: &HeaderName,
) -> Option<&'b [u8]>
    requires { All (IsHeaderWithin (length bytes.now)) fields.now }
    ensures { option_copied result ≡ slice_get (values_named name.now (map (header_bytes bytes.now) fields.now)) 0 }
{
    for field in fields {
        if is_same_word(field.name.of(bytes), name.as_bytes()) {
            return Some(field.value.of(bytes));
        }
    }
    None
}

/// Whether a field with the name has the word among its items.
pub(crate) fn has_item_named(
    bytes: &[u8],
    fields: &[HeaderSpan],
    name: &HeaderName,
    word: &[u8],
) -> bool
    requires { All (IsHeaderWithin (length bytes.now)) fields.now }
    ensures { result ≡ has_item_named name.now word.now (map (header_bytes bytes.now) fields.now) }
{
    for field in fields {
        if is_same_word(field.name.of(bytes), name.as_bytes())
            && has_item(field.value.of(bytes), word)
        {
            return true;
        }
    }
    false
}
