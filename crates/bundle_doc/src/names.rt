//! The names of entries in a manifest, which may have a star in their last part.
ghost use Rattle.std.specs.Prelude.{◌≡◌, ◌&&◌, ◌<◌, ◌==◌, ◌∷◌, [], IfOk, MatchOption, drop, length, map};
ghost use Rattle.std.specs.List.{after_first, before_first, position_or_len};
ghost use Rattle.bundle_headers.specs.Blanks.{without_blanks};
ghost use Rattle.ldap_filter.specs.Matching.{begins};
ghost use Rattle.bundle_doc.specs.Names.{folder, has_byte, is_pattern, items_of, last_part, parted, rest_matches};

use bundle_headers::text_without_blanks;
use ldap_filter::consists_of;
use prop_map::{List, OutOfMemory, Str};
use std::alloc::Global;

/// The items of a list with commas, without the blanks round them.
pub(crate) fn items_of(alloc: Global, text: &str) -> Result<List<Str>, OutOfMemory>
    ensures { IfOk result (λ items. items ≡ items_of text.now) }
{
    let parts = parted(alloc, text, ',')?;
    all_trimmed(alloc, parts.as_slice())
}

fn all_trimmed(alloc: Global, parts: &[Str]) -> Result<List<Str>, OutOfMemory>
    ensures { IfOk result (λ items. items ≡ map without_blanks parts.now) }
{
    let mut items = Vec::new(alloc);
    for part in parts {
        items.push(Str::spell(alloc, text_without_blanks(part.as_str()))?)?;
    }
    Ok(List::of(items))
}

/// The parts of a text between all places of an ASCII character.
pub(crate) fn parted(alloc: Global, text: &str, separator: char) -> Result<List<Str>, OutOfMemory>
    requires { separator < 128 }
    ensures { IfOk result (λ parts. parts ≡ parted separator text.now) }
{
    let mut parts = Vec::new(alloc);
    let mut rest = text;
    while let Some((part, behind)) = next_part(rest, separator) {
        parts.push(Str::spell(alloc, part)?)?;
        rest = behind;
    }
    parts.push(Str::spell(alloc, rest)?)?;
    Ok(List::of(parts))
}

// What stands before and behind the first place of an ASCII character.
fn cut_at<'t>(text: &'t str, separator: char) -> Option<(&'t str, &'t str)>
    requires { separator < 128 }
    ensures { MatchOption result (position_or_len (λ b. b == separator) text.now ≡ length text.now)
        (λ x. (x.0.now ≡ before_first (λ b. b == separator) text.now) × (x.1.now ≡ after_first (λ b. b == separator) text.now) × (position_or_len (λ b. b == separator) text.now < length text.now)) }
{
    text.split_once(separator)
}

// The first of several parts, and the text of the others.
fn next_part<'t>(text: &'t str, separator: char) -> Option<(&'t str, &'t str)>
    requires { separator < 128 }
    ensures { MatchOption result (parted separator text.now ≡ text.now ∷ [])
        (λ x. (parted separator text.now ≡ x.0.now ∷ parted separator x.1.now) × (length x.1.now < length text.now)) }
{
    cut_at(text, separator)
}

// What stands before and behind the first slash.
fn next_folder(text: &str) -> Option<(&str, &str)>
    ensures { MatchOption result (last_part text.now ≡ text.now)
        (λ x. (last_part text.now ≡ last_part x.1.now) × (length x.1.now < length text.now)) }
{
    cut_at(text, '/')
}

/// What stands behind the last slash: all, where there is none.
pub(crate) fn last_part(name: &str) -> &str
    ensures { result.now ≡ last_part name.now }
{
    let mut rest = name;
    while let Some((_, behind)) = next_folder(rest) {
        rest = behind;
    }
    rest
}

/// The last slash and what stands before it.
#[tactic(auto, using(crate::proofs::NameLemmas::last_shorter))]
pub(crate) fn folder(name: &str) -> &[u8]
    ensures { result.now ≡ folder name.now }
{
    let length = name.len().saturating_sub(last_part(name).len());
    let (folder, _) = name.as_bytes().split_at(length);
    folder
}

fn has_byte(byte: u8, text: &[u8]) -> bool
    ensures { result ≡ has_byte byte text.now }
{
    text.iter().any(|other| *other == byte)
}

/// Whether the name has a star in its last part.
pub(crate) fn is_pattern(name: &str) -> bool
    ensures { result ≡ is_pattern name.now }
{
    has_byte(b'*', last_part(name).as_bytes())
}

/// Whether an entry lies in a folder, and its last part is made of these parts with some text between them.
pub(crate) fn matches(folder: &[u8], parts: &[Str], entry: &str) -> bool
    ensures { result ≡ (begins entry.now folder.now && rest_matches parts.now (drop (length folder.now) entry.now)) }
{
    let entry = entry.as_bytes();
    if !entry.starts_with(folder) {
        return false;
    }
    let (_, rest) = entry.split_at(folder.len());
    !has_byte(b'/', rest) && consists_of(parts, rest)
}
