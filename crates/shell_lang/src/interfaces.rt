//! A word of interfaces with commas between them.
ghost use Rattle.std.specs.Prelude.{◌≡◌, ◌<◌, ◌==◌, ◌∷◌, [], IfOk, MatchOption, length, map};
ghost use Rattle.std.specs.List.{after_first, before_first, list_all, position_or_len};
ghost use Rattle.bundle_doc.specs.Names.{parted};
ghost use Rattle.shell_lang.specs.Interfaces.{are_interfaces, interfaces_at, is_filled};

use crate::arguments::owned;
use crate::words::Misfit;
use component_dto::first_repeated;
use prop_map::{List, OutOfMemory, Str};
use std::alloc::Global;

// The interfaces that the word at a place names: none is empty, and none is there twice. It compares each with no more of them
// than the logarithm of their number.
pub(crate) fn interfaces_at(
    alloc: Global,
    at: usize,
    word: &str,
) -> Result<Result<List<Str>, Misfit>, OutOfMemory>
    ensures { IfOk result (λ found. found ≡ interfaces_at at word.now) }
{
    let names = parted(alloc, word)?;
    if !are_interfaces(alloc, names.as_slice())? {
        return Ok(Err(Misfit { at }));
    }
    Ok(Ok(all_owned(alloc, names.as_slice())?))
}

// The parts of a word between its commas.
fn parted<'t>(alloc: Global, word: &'t str) -> Result<Vec<&'t str>, OutOfMemory>
    ensures { IfOk result (λ parts. map (λ p. p.now) parts.items ≡ parted 44 word.now) }
{
    let mut parts = Vec::new(alloc);
    let mut rest = word;
    while let Some((part, behind)) = next_part(rest) {
        parts.push(part)?;
        rest = behind;
    }
    parts.push(rest)?;
    Ok(parts)
}

// The first of several parts, and the text of the others.
fn next_part(text: &str) -> Option<(&str, &str)>
    ensures { MatchOption result (parted 44 text.now ≡ text.now ∷ [])
        (λ x. (parted 44 text.now ≡ x.0.now ∷ parted 44 x.1.now) × (length x.1.now < length text.now)) }
{
    cut_at_comma(text)
}

// What stands before and behind the first comma.
fn cut_at_comma(text: &str) -> Option<(&str, &str)>
    ensures { MatchOption result (position_or_len (λ b. b == 44) text.now ≡ length text.now)
        (λ x. (x.0.now ≡ before_first (λ b. b == 44) text.now) × (x.1.now ≡ after_first (λ b. b == 44) text.now) × (position_or_len (λ b. b == 44) text.now < length text.now)) }
{
    text.split_once(',')
}

fn are_interfaces(alloc: Global, names: &[&str]) -> Result<bool, OutOfMemory>
    ensures { IfOk result (λ good. good ≡ are_interfaces (map (λ n. n.now) names.now)) }
{
    if !are_filled(names) {
        return Ok(false);
    }
    let repeated = first_repeated(alloc, names)?;
    Ok(repeated.is_none())
}

fn are_filled(names: &[&str]) -> bool
    ensures { result ≡ list_all is_filled (map (λ n. n.now) names.now) }
{
    for name in names {
        if name.is_empty() {
            return false;
        }
    }
    true
}

fn all_owned(alloc: Global, names: &[&str]) -> Result<List<Str>, OutOfMemory>
    ensures { IfOk result (λ texts. texts ≡ map (λ n. n.now) names.now) }
{
    let mut texts = Vec::new(alloc);
    for name in names {
        texts.push(owned(alloc, name)?)?;
    }
    Ok(List::of(texts))
}
