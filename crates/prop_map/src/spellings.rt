//! How the keys of a JSON object are spelled that are one without ASCII case.
ghost use Rattle.prop_map.specs.JsonProperties.{given_keys, is_another, is_repeated};
ghost use Rattle.prop_map.specs.Keys.{folded};
ghost use Rattle.prop_map.specs.Spellings.{AreOf, Notes, differs_from, has_another};
ghost use Rattle.serde_json.specs.View.{members_view};
ghost use Rattle.std.specs.Option.{option_copied};
ghost use Rattle.std.specs.Prelude.{◌≡◌, ◌||◌, not, ℕ, List, Some, IfOk, OnOk, map, string_bytes};
ghost use Rattle.std.specs.Str.{bytes_eq};

use crate::OutOfMemory;
use serde_json::Value as Json;
use std::alloc::Global;
use std::collections::BTreeMap;

/// How a key is spelled so far.
#[derive(Clone, Copy, Drop)]
pub(crate) enum Spelling<'k> {
    /// In one way.
    Alone(&'k str),
    /// In several ways.
    Several,
}

/// A key with each ASCII capital as its small letter.
pub(crate) fn folded(alloc: Global, key: &str) -> Result<String, OutOfMemory>
    ensures { IfOk result (λ text. string_bytes text ≡ folded key.now) }
{
    key.to_ascii_lowercase(alloc)
}

// How a key is spelled where it was spelled so before, if it was.
#[tactic(auto, using(crate::proofs::SpellingLemmas::several, crate::proofs::SpellingLemmas::twice))]
fn with_spelling<'k>(before: Option<&Spelling<'k>>, key: &'k str) -> Spelling<'k>
    ensures { (other : List ℕ) →
        differs_from other (Some result) ≡ (differs_from other (option_copied before.entry) || not (bytes_eq key.now other)) }
{
    match before {
        None => Spelling::Alone(key),
        Some(Spelling::Several) => Spelling::Several,
        Some(Spelling::Alone(first)) => {
            if *first == key {
                Spelling::Alone(key)
            } else {
                Spelling::Several
            }
        }
    }
}

// Notes how one more key is spelled.
fn note<'k>(
    alloc: Global,
    spellings: &mut BTreeMap<String, Spelling<'k>>,
    key: &'k str,
) -> Result<(), OutOfMemory>
    ensures { OnOk result (Notes spellings.old key.now spellings.new) }
{
    let fold = folded(alloc, key)?;
    let spelling = with_spelling(spellings.get(&fold), key);
    spellings.insert(fold, spelling)?;
    Ok(())
}

/// The spellings of the keys that an object gives.
pub(crate) fn spellings_of<'k>(
    alloc: Global,
    entries: &[(&'k String, &'k Json)],
) -> Result<BTreeMap<String, Spelling<'k>>, OutOfMemory>
    ensures { IfOk result (λ spellings. AreOf (given_keys (members_view (map (λ e. (e.0.now, e.1.now)) entries.now))) spellings) }
{
    let mut spellings = BTreeMap::new(alloc);
    for (key, json) in entries {
        if !json.is_null() {
            note(alloc, &mut spellings, key.as_str())?;
        }
    }
    Ok(spellings)
}

/// Whether the spellings have another one of the key.
pub(crate) fn has_another(
    alloc: Global,
    spellings: &BTreeMap<String, Spelling<'_>>,
    key: &str,
) -> Result<bool, OutOfMemory>
    ensures { IfOk result (λ found. found ≡ has_another spellings.now key.now) }
{
    let fold = folded(alloc, key)?;
    match spellings.get(&fold) {
        None => Ok(false),
        Some(Spelling::Several) => Ok(true),
        Some(Spelling::Alone(spelling)) => Ok(*spelling != key),
    }
}
