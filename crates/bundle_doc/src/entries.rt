//! Which entries of a document are its descriptions.
ghost use Rattle.std.specs.Prelude.{◌≡◌, [], IfOk, filter, map, option_map, slice_get};
ghost use Rattle.std.specs.List.{filter_map};
ghost use Rattle.serde_json.specs.View.{members_view, view};
ghost use Rattle.prop_map.specs.JsonProperties.{keys_of};
ghost use Rattle.prop_map.specs.Words.{after};
ghost use Rattle.bundle_doc.specs.Documents.{entries_of};
ghost use Rattle.bundle_doc.specs.Entries.{described_entries, taken, taken_behind, with_new};
ghost use Rattle.bundle_doc.specs.Faults.{Reads};
ghost use Rattle.bundle_doc.specs.Names.{matches};

use crate::DocFault;
use crate::entries_by_end::EntriesByEnd;
use crate::headers::Listed;
use crate::matching::matching_places;
use crate::names::is_pattern;
use crate::text_list::TextList;
use component_dto::each_once;
use prop_map::{Copies, List, OutOfMemory, Str};
use serde_json::{Map, Value};
use std::alloc::Global;

/// The names of the entries, in byte order.
pub(crate) fn entries_of(
    alloc: Global,
    components: Option<&Value>,
) -> Result<List<Str>, OutOfMemory>
    ensures { IfOk result (λ names. names ≡ entries_of (option_map (λ v. view v.now) components.entry)) }
{
    match components {
        Some(value) => match value.as_object() {
            Some(members) => keys(alloc, members),
            None => Ok(List::of(Vec::new(alloc))),
        },
        None => Ok(List::of(Vec::new(alloc))),
    }
}

fn keys(alloc: Global, members: &Map<String, Value>) -> Result<List<Str>, OutOfMemory>
    ensures { IfOk result (λ keys. keys ≡ keys_of (members_view members.now.entries)) }
{
    let pairs = pairs_of(alloc, members)?;
    keys_among(alloc, pairs.as_slice())
}

fn pairs_of<'v>(
    alloc: Global,
    members: &'v Map<String, Value>,
) -> Result<Vec<(&'v String, &'v Value)>, OutOfMemory>
    ensures { IfOk result (λ v. map (λ e. (e.0.now, e.1.now)) v.items ≡ members.now.entries) }
{
    members.iter().collect(alloc)
}

fn keys_among(alloc: Global, pairs: &[(&String, &Value)]) -> Result<List<Str>, OutOfMemory>
    ensures { IfOk result (λ keys. keys ≡ keys_of (members_view (map (λ e. (e.0.now, e.1.now)) pairs.now))) }
{
    let mut keys = Vec::new(alloc);
    for (key, _) in pairs {
        keys.push(Str::spell(alloc, key.as_str())?)?;
    }
    Ok(List::of(keys))
}

/// The names of the entries that are descriptions, in their order.
///
/// # Errors
/// `MissingEntry` of the first name without a star that is none of the entries.
pub(crate) fn described_entries(
    alloc: Global,
    entries: List<Str>,
    listed: Listed,
) -> Result<List<Str>, DocFault>
    ensures { Reads result (described_entries entries listed) }
{
    match listed {
        Listed::Every => Ok(entries),
        Listed::Named(names) => taken(alloc, entries, names),
    }
}

// A name that comes again takes nothing new, so each is looked at once.
fn taken(alloc: Global, entries: List<Str>, names: List<Str>) -> Result<List<Str>, DocFault>
    ensures { Reads result (taken_behind entries [] names) }
{
    let entries = EntriesByEnd::of(alloc, entries)?;
    let names = each_once(alloc, names)?;
    taken_once(alloc, &entries, names.as_slice())
}

fn taken_once(alloc: Global, entries: &EntriesByEnd, names: &[Str]) -> Result<List<Str>, DocFault>
    ensures { Reads result (taken_behind entries.now [] names.now) }
{
    let mut found = TextList::new(alloc);
    for name in names {
        found = with_name(alloc, entries, found, name)?;
    }
    Ok(found.list())
}

// With the entries that one more name takes.
fn with_name(
    alloc: Global,
    entries: &EntriesByEnd,
    found: TextList,
    name: &Str,
) -> Result<TextList, DocFault>
    ensures { Reads result (after (taken entries.now name.now) (λ new. Ok (with_new found new))) }
{
    if is_pattern(name.as_str()) {
        return Ok(with_matching(alloc, entries, found, name)?);
    }
    if !entries.has(name) {
        return Err(DocFault::MissingEntry {
            name: name.copy(alloc)?,
        });
    }
    Ok(found.with(alloc, name)?)
}

fn with_matching(
    alloc: Global,
    entries: &EntriesByEnd,
    found: TextList,
    name: &Str,
) -> Result<TextList, OutOfMemory>
    ensures { IfOk result (λ now. now ≡ with_new found (filter (matches name.now) entries.now)) }
{
    let places = matching_places(alloc, entries, name.as_str())?;
    with_entries_at(alloc, entries, found, &places)
}

fn with_entries_at(
    alloc: Global,
    entries: &EntriesByEnd,
    found: TextList,
    places: &[usize],
) -> Result<TextList, OutOfMemory>
    ensures { IfOk result (λ now. now ≡ with_new found (filter_map (slice_get entries.now) places.now)) }
{
    let mut found = found;
    for place in places {
        if let Some(entry) = entries.get(*place) {
            found = found.with(alloc, entry)?;
        }
    }
    Ok(found)
}
