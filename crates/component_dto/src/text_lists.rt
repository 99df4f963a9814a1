//! Lists of texts.
ghost use Rattle.std.specs.Prelude.{◌≡◌, IfOk, map, option_map};
ghost use Rattle.component_dto.specs.TextLists.{each_once, first_repeated};

use prop_map::{List, OutOfMemory, Str};
use std::alloc::Global;
use text_index::TextSet;

/// The texts, each once, at its first place. It compares each with no more of them than the logarithm of their number.
///
/// # Errors
/// Only want of memory.
pub fn each_once(alloc: Global, texts: List<Str>) -> Result<List<Str>, OutOfMemory>
    ensures { IfOk result (λ found. found ≡ each_once texts) }
{
    let mut seen = TextSet::new(alloc);
    let mut found = Vec::new(alloc);
    for text in texts.items() {
        if seen.insert(alloc, text.as_str().as_bytes())? {
            found.push(text)?;
        }
    }
    Ok(List::of(found))
}

/// The first text of a list that stands in it before already. It compares each with no more of them than the logarithm of
/// their number.
///
/// # Errors
/// Only want of memory.
pub fn first_repeated<'t>(alloc: Global, texts: &[&'t str]) -> Result<Option<&'t str>, OutOfMemory>
    ensures { IfOk result (λ found. option_map (λ t. t.now) found ≡ first_repeated (map (λ t. t.now) texts.now)) }
{
    let mut seen = TextSet::new(alloc);
    for text in texts {
        if !seen.insert(alloc, text.as_bytes())? {
            return Ok(Some(text));
        }
    }
    Ok(None)
}
