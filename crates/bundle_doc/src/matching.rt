//! Which entries a name with stars takes.
ghost use Rattle.std.specs.Prelude.{◌≡◌, ◌&&◌, ◌++◌, [], IfOk, drop, filter, length, map, option_copied, reverse, slice_get, unwrap_or};
ghost use Rattle.ldap_filter.specs.Matching.{begins};
ghost use Rattle.bundle_doc.specs.Names.{matches, rest_matches};
ghost use Rattle.bundle_doc.specs.Inside.{first_of, last_of, passes, places_of};

use crate::entries_by_end::{End, EntriesByEnd, read_from};
use crate::names::{folder, last_part, matches, parted};
use prop_map::{OutOfMemory, Str};
use std::alloc::Global;

/// The places of the entries that a name with stars takes, the lowest first.
pub(crate) fn matching_places(
    alloc: Global,
    entries: &EntriesByEnd,
    name: &str,
) -> Result<Vec<usize>, OutOfMemory>
    ensures { IfOk result (λ places. places.items ≡ places_of (matches name.now) 0 entries.now) }
{
    let folder = folder(name);
    let parts = parted(alloc, last_part(name), '*')?;
    let front = front_of(alloc, folder, parts.as_slice())?;
    let back = back_of(alloc, parts.as_slice())?;
    let keys = entries.keys_for(&front, &back);
    let mut places = places_among(alloc, entries, keys, folder, parts.as_slice())?;
    places.sort_unstable();
    Ok(places)
}

// What stands before the first star.
fn front_of(alloc: Global, folder: &[u8], parts: &[Str]) -> Result<Vec<u8>, OutOfMemory>
    ensures { IfOk result (λ front. front.items ≡ folder.now ++ first_of parts.now) }
{
    let mut front = Vec::from_slice(alloc, folder)?;
    front.extend_from_slice(bytes_of(parts.first()))?;
    Ok(front)
}

// What stands behind the last star, from its back.
fn back_of(alloc: Global, parts: &[Str]) -> Result<Vec<u8>, OutOfMemory>
    ensures { IfOk result (λ back. back.items ≡ reverse (last_of parts.now)) }
{
    read_from(alloc, End::Back, bytes_of(parts.last()))
}

fn bytes_of(part: Option<&Str>) -> &[u8]
    ensures { result.now ≡ unwrap_or (option_copied part.entry) [] }
{
    match part {
        Some(part) => part.as_str().as_bytes(),
        None => &[],
    }
}

fn places_among(
    alloc: Global,
    entries: &EntriesByEnd,
    keys: &[(Vec<u8>, usize)],
    folder: &[u8],
    parts: &[Str],
) -> Result<Vec<usize>, OutOfMemory>
    ensures { IfOk result (λ places. places.items ≡ filter (λ p. passes (λ e. begins e folder.now && rest_matches parts.now (drop (length folder.now) e)) (slice_get entries.now p)) (map (λ k. k.1) keys.now)) }
{
    keys.iter()
        .map(|key| key.1)
        .filter(|place| matches_at(entries, *place, folder, parts))
        .collect(alloc)
}

fn matches_at(entries: &EntriesByEnd, place: usize, folder: &[u8], parts: &[Str]) -> bool
    ensures { result ≡ passes (λ e. begins e folder.now && rest_matches parts.now (drop (length folder.now) e)) (slice_get entries.now place) }
{
    match entries.get(place) {
        Some(entry) => matches(folder, parts, entry.as_str()),
        None => false,
    }
}
