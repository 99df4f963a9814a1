//! The documents, properties, filters and names of lines.
ghost use Rattle.std.specs.Prelude.{◌≡◌, IfOk};
ghost use Rattle.shell_lang.specs.Arguments.{document_argument, filter_argument, filter_fault, given_document, given_properties, names_file, properties_argument, property_fault};
ghost use Rattle.shell_lang.specs.LineFaults.{Reads};
ghost use Rattle.bundle_doc.specs.Documents.{bundle_of};
ghost use Rattle.prop_map.specs.JsonProperties.{properties_of};
ghost use Rattle.serde_json.specs.View.{view};

use crate::LineFault;
use bundle_doc::{BundleDoc, DocFault, read_bundle, with_shared_texts};
use ldap_filter::{Filter, FilterFault};
use prop_map::{OutOfMemory, PropFault, Properties, Str};
use serde_json::{Category, Value};
use std::alloc::Global;

// The document that a text is, where it names no file.
pub(crate) fn read_document(alloc: Global, text: &str) -> Result<BundleDoc, LineFault>
    ensures { Reads (document_argument text.now) result }
{
    if names_file(text.as_bytes()) {
        return Err(LineFault::NoFile);
    }
    json_document(alloc, text)
}

// Whether a text begins with an at sign. No JSON text does.
fn names_file(text: &[u8]) -> bool
    ensures { result ≡ names_file text.now }
{
    match text {
        [] => false,
        [first, ..] => *first == b'@',
    }
}

// The document that a JSON text is. Its texts are shared, so that what is told of its components takes no memory for them.
fn json_document(alloc: Global, text: &str) -> Result<BundleDoc, LineFault>
    ensures { Reads (given_document (bundle_of text.now)) result }
{
    match read_bundle(alloc, text.as_bytes()) {
        Ok(doc) => Ok(with_shared_texts(alloc, doc)?),
        Err(DocFault::OutOfMemory) => Err(LineFault::OutOfMemory),
        Err(fault) => Err(LineFault::Document { fault }),
    }
}

// The properties that a JSON text gives.
pub(crate) fn read_properties(alloc: Global, text: &str) -> Result<Properties, LineFault>
    ensures { Reads (properties_argument text.now) result }
{
    match Value::from_str(alloc, text) {
        Ok(json) => properties_of(alloc, &json),
        Err(error) => {
            if error.classify() == Category::Memory {
                Err(LineFault::OutOfMemory)
            } else {
                Err(LineFault::NotJson)
            }
        }
    }
}

fn properties_of(alloc: Global, json: &Value) -> Result<Properties, LineFault>
    ensures { Reads (given_properties (properties_of (view json.now))) result }
{
    match Properties::from_json(alloc, json) {
        Ok(properties) => Ok(properties),
        Err(fault) => Err(property_fault(fault)),
    }
}

// Why a line is refused whose properties aren't read.
fn property_fault(fault: PropFault) -> LineFault
    ensures { result ≡ property_fault fault }
{
    match fault {
        PropFault::OutOfMemory => LineFault::OutOfMemory,
        fault => LineFault::Properties { fault },
    }
}

// The filter that a text spells.
pub(crate) fn read_filter(alloc: Global, text: &str) -> Result<Filter, LineFault>
    ensures { Reads (filter_argument text.now) result }
{
    match Filter::parse(alloc, text) {
        Ok(filter) => Ok(filter),
        Err(fault) => Err(filter_fault(fault)),
    }
}

// Why a line is refused whose filter isn't read.
fn filter_fault(fault: FilterFault) -> LineFault
    ensures { result ≡ filter_fault fault }
{
    match fault {
        FilterFault::OutOfMemory => LineFault::OutOfMemory,
        fault => LineFault::FilterText { fault },
    }
}

// A word, in memory of its own.
pub(crate) fn owned(alloc: Global, word: &str) -> Result<Str, OutOfMemory>
    ensures { IfOk result (λ text. text ≡ word.now) }
{
    Ok(Str::of(String::from_str(alloc, word)?))
}
