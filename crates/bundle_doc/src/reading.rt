//! A document read from bytes.
ghost use Rattle.std.specs.Prelude.{◌≡◌, IfOk, map, option_map};
ghost use Rattle.serde_json.specs.View.{view};
ghost use Rattle.component_dto.specs.Descriptions.{description_of};
ghost use Rattle.bundle_doc.specs.Documents.{bundle_of, described, document_of, each_of, in_entry, names_of, told_apart};
ghost use Rattle.bundle_doc.specs.Faults.{Reads};

use crate::entries::{described_entries, entries_of};
use crate::fields::{check_object, needed_text_at, text_at};
use crate::headers::headers_of;
use crate::{BundleDoc, DocFault};
use component_dto::{Description, DescriptionFault, first_repeated, given, read_description};
use prop_map::{Copies, List, OutOfMemory, Str};
use serde_json::{Category, Value};
use std::alloc::Global;

/// Reads a bundle's document from the bytes of a JSON text: its `location`, its `manifest` and its `components`, an object
/// from entry names to descriptions. A field that is null counts as missing.
///
/// Without a manifest the name is the location, the version 0.0.0, and the descriptions are all entries in byte order of
/// their names. With one the name is the first path of Bundle-SymbolicName, the version that of Bundle-Version, and the
/// descriptions are the entries that Service-Component names, in its order, each once; a star in the last part of a name
/// stands for any text without a slash, and such a name takes the entries that match in byte order, perhaps none.
///
/// # Errors
/// The first fault, in this order. `NotJson` exactly where the bytes are no JSON text in UTF-8; `WrongType` of `document`
/// where the JSON is no object; `MissingField` and `WrongType` of the three fields in the order above; `Header`: the
/// manifest's first fault by line, then `BadManifestVersion` where Bundle-ManifestVersion isn't 2, `MissingName` where
/// Bundle-SymbolicName is missing or no list of clauses, `BadVersion`; `MissingEntry` of the first name without a star that
/// is no entry; `InEntry`, the fault of the first description that has one; `SameComponent` where a component has the name
/// of one before it. `OutOfMemory` may come at any place.
pub fn read_bundle(alloc: Global, bytes: &[u8]) -> Result<BundleDoc, DocFault>
    ensures { Reads result (bundle_of bytes.now) }
{
    match Value::from_slice(alloc, bytes) {
        Ok(json) => document(alloc, &json),
        Err(error) => {
            if error.classify() == Category::Memory {
                Err(DocFault::OutOfMemory)
            } else {
                Err(DocFault::NotJson)
            }
        }
    }
}

fn document(alloc: Global, json: &Value) -> Result<BundleDoc, DocFault>
    ensures { Reads result (document_of (view json.now)) }
{
    if !json.is_object() {
        return Err(DocFault::WrongType {
            field: Str::spell(alloc, "document")?,
        });
    }
    let location = needed_text_at(alloc, json, "location")?;
    let manifest = text_at(alloc, json, "manifest")?;
    let components = given(json, "components");
    check_object(alloc, components, "components")?;
    let headers = headers_of(alloc, &location, manifest)?;
    let names = described_entries(alloc, entries_of(alloc, components)?, headers.listed)?;
    let descriptions = all_described(alloc, components, names.as_slice())?;
    check_names(alloc, descriptions.as_slice())?;
    Ok(BundleDoc {
        location,
        name: headers.name,
        version: headers.version,
        manifest: headers.manifest,
        activator: headers.activator,
        descriptions,
    })
}

fn all_described(
    alloc: Global,
    components: Option<&Value>,
    names: &[Str],
) -> Result<List<Description>, DocFault>
    ensures { Reads result (each_of (described (option_map (λ v. view v.now) components.entry)) names.now) }
{
    let mut found = Vec::new(alloc);
    for name in names {
        found.push(described(alloc, components, name)?)?;
    }
    Ok(List::of(found))
}

fn described(alloc: Global, components: Option<&Value>, name: &Str) -> Result<Description, DocFault>
    ensures { Reads result (described (option_map (λ v. view v.now) components.entry) name.now) }
{
    if let Some(value) = components {
        if let Some(json) = value.get(name.as_str()) {
            return in_entry(alloc, name, json);
        }
    }
    Err(DocFault::MissingEntry {
        name: name.copy(alloc)?,
    })
}

fn in_entry(alloc: Global, name: &Str, json: &Value) -> Result<Description, DocFault>
    ensures { Reads result (in_entry name.now (description_of (view json.now))) }
{
    match read_description(alloc, json) {
        Ok(description) => Ok(description),
        Err(DescriptionFault::OutOfMemory) => Err(DocFault::OutOfMemory),
        Err(fault) => Err(DocFault::InEntry {
            name: name.copy(alloc)?,
            fault,
        }),
    }
}

// Tests that no two components have one name.
fn check_names(alloc: Global, descriptions: &[Description]) -> Result<(), DocFault>
    ensures { Reads result (told_apart descriptions.now) }
{
    let names = names_of(alloc, descriptions)?;
    match first_repeated(alloc, &names)? {
        Some(name) => Err(DocFault::SameComponent {
            name: Str::spell(alloc, name)?,
        }),
        None => Ok(()),
    }
}

fn names_of<'d>(alloc: Global, descriptions: &'d [Description]) -> Result<Vec<&'d str>, OutOfMemory>
    ensures { IfOk result (λ names. map (λ n. n.now) names.items ≡ names_of descriptions.now) }
{
    let mut names = Vec::new(alloc);
    for description in descriptions {
        names.push(description.name.as_str())?;
    }
    Ok(names)
}
