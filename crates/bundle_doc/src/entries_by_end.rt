//! The entries of a document, which are found by what they begin and what they end with.
ghost use Rattle.std.specs.Prelude.{◌≡◌, ℕ, Bool, List as Items, true, IfOk, filter, map, option_copied, slice_get};
ghost use Rattle.std.specs.List.Sorted.{IsSorted};
ghost use Rattle.std.specs.Cmp.Lexicographic.{slice_cmp};
ghost use Rattle.std.specs.Ordering.{is_lt, nat_cmp};
ghost use Rattle.ldap_filter.specs.Matching.{begins};
ghost use Rattle.component_dto.specs.TextLists.{has_text};
ghost use Rattle.bundle_doc.specs.Inside.{HasAll, IsOrder, placed, read_from};
ghost use Rattle.bundle_doc.specs.declared.entries_by_end.End.TheVariants.{Back, Front};

use crate::text_list::TextList;
use prop_map::{List, OutOfMemory, Str};
use std::alloc::Global;
use std::marker::Model;

/// The end from which a text is read.
#[derive(Clone, Copy)]
pub(crate) enum End {
    Front,
    Back,
}

/// Entries in an order, and as they are read from either end, in byte order: so those that begin alike stand together, and
/// those that end alike. Contracts see the entries in their order.
#[derive(Drop)]
pub(crate) struct EntriesByEnd {
    texts: TextList,
    from_front: Vec<(Vec<u8>, usize)>,
    from_back: Vec<(Vec<u8>, usize)>,
}

impl Model for EntriesByEnd {
    ghost use Rattle.std.specs.Prelude.{List, ℕ};
    ghost use Rattle.bundle_doc.specs.Inside.{IsOrder};
    ghost use Rattle.bundle_doc.specs.declared.entries_by_end.End.TheVariants.{Back, Front};

    ghost Value = { List (List ℕ) };

    ghost view = { λ e. e.texts };

    ghost invariant = { λ e. IsOrder (λ k. (k.0.items, k.1)) Front e.texts e.from_front.items × IsOrder (λ k. (k.0.items, k.1)) Back e.texts e.from_back.items };
}

impl EntriesByEnd {
    pub(crate) fn of(alloc: Global, entries: List<Str>) -> Result<EntriesByEnd, OutOfMemory>
        ensures { IfOk result (λ all. all ≡ entries) }
    {
        let from_front = keys_in_order(alloc, End::Front, entries.as_slice())?;
        let from_back = keys_in_order(alloc, End::Back, entries.as_slice())?;
        let texts = TextList::of(alloc, entries)?;
        Ok(EntriesByEnd {
            texts,
            from_front,
            from_back,
        })
    }

    pub(crate) fn has(&self, entry: &Str) -> bool
        ensures { result ≡ has_text self.now entry.now }
    {
        self.texts.has(entry)
    }

    pub(crate) fn get(&self, place: usize) -> Option<&Str>
        ensures { option_copied result ≡ slice_get self.now place }
    {
        self.texts.as_slice().get(place)
    }

    /// Some keys with the places of all entries that pass a test, if what passes begins with one text and ends with
    /// another that is given from its back.
    pub(crate) fn keys_for(&self, front: &[u8], back: &[u8]) -> &[(Vec<u8>, usize)]
        ensures { (test : Items ℕ → Bool) → ((text : Items ℕ) → test text ≡ true → begins (read_from Front text) front.now ≡ true) → ((text : Items ℕ) → test text ≡ true → begins (read_from Back text) back.now ≡ true) → HasAll (λ k. (k.0.items, k.1)) test self.now result.now }
    {
        let with_front = keys_beginning(&self.from_front, front);
        let with_back = keys_beginning(&self.from_back, back);
        if with_front.len() < with_back.len() {
            with_front
        } else {
            with_back
        }
    }
}

// Texts as they are read from one end, each with its place, in byte order.
fn keys_in_order(
    alloc: Global,
    end: End,
    texts: &[Str],
) -> Result<Vec<(Vec<u8>, usize)>, OutOfMemory>
    ensures { IfOk result (λ keys. IsOrder (λ k. (k.0.items, k.1)) end texts.now keys.items) }
{
    let mut keys = keys_of(alloc, end, texts)?;
    keys.sort_unstable();
    Ok(keys)
}

fn keys_of(alloc: Global, end: End, texts: &[Str]) -> Result<Vec<(Vec<u8>, usize)>, OutOfMemory>
    ensures { IfOk result (λ keys. map (λ k. (k.0.items, k.1)) keys.items ≡ placed end 0 texts.now) }
{
    let mut keys = Vec::new(alloc);
    for text in texts {
        let place = keys.len();
        keys.push((read_from(alloc, end, text.as_str().as_bytes())?, place))?;
    }
    Ok(keys)
}

/// A text as it is read from one end.
pub(crate) fn read_from(alloc: Global, end: End, text: &[u8]) -> Result<Vec<u8>, OutOfMemory>
    ensures { IfOk result (λ read. read.items ≡ read_from end text.now) }
{
    let mut read = Vec::from_slice(alloc, text)?;
    match end {
        End::Front => Ok(read),
        End::Back => {
            read.reverse();
            Ok(read)
        }
    }
}

// Those of some keys in byte order that begin with a text: they stand together.
fn keys_beginning<'k>(keys: &'k [(Vec<u8>, usize)], start: &[u8]) -> &'k [(Vec<u8>, usize)]
    requires { IsSorted (λ a b. slice_cmp nat_cmp a.0.items b.0.items) keys.now }
    ensures { result.now ≡ filter (λ k. begins k.0.items start.now) keys.now }
{
    let below = keys.partition_point(|key| is_below(&key.0, start));
    let (_, behind) = keys.split_at(below);
    let count = behind.partition_point(|key| key.0.as_slice().starts_with(start));
    let (beginning, _) = behind.split_at(count);
    beginning
}

fn is_below(one: &[u8], other: &[u8]) -> bool
    ensures { result ≡ is_lt (slice_cmp nat_cmp one.now other.now) }
{
    one.cmp(other).is_lt()
}
