//! The texts of the faults of a document.
ghost use Rattle.std.specs.Prelude.{◌≡◌, IfOk, string_bytes};
ghost use Rattle.std.specs.Fmt.{decimal};
ghost use Rattle.shell_lang.specs.FaultTexts.{description_fault_fields, description_fault_name, document_fault_entry, document_fault_fields, document_fault_name, document_fault_text, header_fault_fields, header_fault_name, prop_fault_fields, prop_fault_name, prop_fault_text, spaced};

use bundle_doc::DocFault;
use bundle_headers::HeaderFault;
use component_dto::DescriptionFault;
use prop_map::{OutOfMemory, PropFault};
use std::alloc::Global;

// The text of a document's fault: its name, the entry that it is in, and its fields.
pub(crate) fn document_fault_text(alloc: Global, fault: &DocFault) -> Result<String, OutOfMemory>
    ensures { IfOk result (λ text. string_bytes text ≡ document_fault_text fault.now) }
{
    let mut text = String::from_str(alloc, document_fault_name(fault))?;
    text.push_str(document_fault_entry(alloc, fault)?.as_str())?;
    text.push_str(document_fault_fields(alloc, fault)?.as_str())?;
    Ok(text)
}

fn document_fault_name(fault: &DocFault) -> &'static str
    ensures { result.now ≡ document_fault_name fault.now }
{
    match fault {
        DocFault::NotJson => "NotJson",
        DocFault::MissingField { .. } => "MissingField",
        DocFault::WrongType { .. } => "WrongType",
        DocFault::MissingEntry { .. } => "MissingEntry",
        DocFault::SameComponent { .. } => "SameComponent",
        DocFault::Header { fault } => header_fault_name(fault),
        DocFault::InEntry { fault, .. } => description_fault_name(fault),
        DocFault::OutOfMemory => "OutOfMemory",
    }
}

fn document_fault_entry(alloc: Global, fault: &DocFault) -> Result<String, OutOfMemory>
    ensures { IfOk result (λ text. string_bytes text ≡ document_fault_entry fault.now) }
{
    match fault {
        DocFault::InEntry { name, .. } => spaced(alloc, name.as_str()),
        _ => Ok(String::new(alloc)),
    }
}

fn document_fault_fields(alloc: Global, fault: &DocFault) -> Result<String, OutOfMemory>
    ensures { IfOk result (λ text. string_bytes text ≡ document_fault_fields fault.now) }
{
    match fault {
        DocFault::MissingField { field } | DocFault::WrongType { field } => {
            spaced(alloc, field.as_str())
        }
        DocFault::MissingEntry { name } | DocFault::SameComponent { name } => {
            spaced(alloc, name.as_str())
        }
        DocFault::Header { fault } => header_fault_fields(alloc, fault),
        DocFault::InEntry { fault, .. } => description_fault_fields(alloc, fault),
        DocFault::NotJson | DocFault::OutOfMemory => Ok(String::new(alloc)),
    }
}

fn header_fault_name(fault: &HeaderFault) -> &'static str
    ensures { result.now ≡ header_fault_name fault.now }
{
    match fault {
        HeaderFault::BadHeader { .. } => "BadHeader",
        HeaderFault::NotUtf8 { .. } => "NotUtf8",
        HeaderFault::DuplicateHeader { .. } => "DuplicateHeader",
        HeaderFault::BadClause { .. } => "BadClause",
        HeaderFault::MissingName => "MissingName",
        HeaderFault::BadManifestVersion => "BadManifestVersion",
        HeaderFault::BadVersion { .. } => "BadVersion",
        HeaderFault::OutOfMemory => "OutOfMemory",
    }
}

fn header_fault_fields(alloc: Global, fault: &HeaderFault) -> Result<String, OutOfMemory>
    ensures { IfOk result (λ text. string_bytes text ≡ header_fault_fields fault.now) }
{
    match fault {
        HeaderFault::BadHeader { line } | HeaderFault::DuplicateHeader { line } => {
            spaced_number(alloc, *line)
        }
        HeaderFault::NotUtf8 { at }
        | HeaderFault::BadClause { at }
        | HeaderFault::BadVersion { at } => spaced_number(alloc, *at),
        HeaderFault::MissingName | HeaderFault::BadManifestVersion | HeaderFault::OutOfMemory => {
            Ok(String::new(alloc))
        }
    }
}

fn description_fault_name(fault: &DescriptionFault) -> &'static str
    ensures { result.now ≡ description_fault_name fault.now }
{
    match fault {
        DescriptionFault::MissingField { .. } => "MissingField",
        DescriptionFault::WrongType { .. } => "WrongType",
        DescriptionFault::BadWord { .. } => "BadWord",
        DescriptionFault::BadProperty { fault } => prop_fault_name(fault),
        DescriptionFault::FactoryComponent => "FactoryComponent",
        DescriptionFault::PrototypeReference { .. } => "PrototypeReference",
        DescriptionFault::SameReference { .. } => "SameReference",
        DescriptionFault::ImmediateScope => "ImmediateScope",
        DescriptionFault::DelayedWithoutService => "DelayedWithoutService",
        DescriptionFault::BadTarget { .. } => "BadTarget",
        DescriptionFault::TooManyPids => "TooManyPids",
        DescriptionFault::OutOfMemory => "OutOfMemory",
    }
}

fn description_fault_fields(alloc: Global, fault: &DescriptionFault) -> Result<String, OutOfMemory>
    ensures { IfOk result (λ text. string_bytes text ≡ description_fault_fields fault.now) }
{
    match fault {
        DescriptionFault::MissingField { field }
        | DescriptionFault::WrongType { field }
        | DescriptionFault::BadWord { field } => spaced(alloc, field.as_str()),
        DescriptionFault::BadProperty { fault } => prop_fault_fields(alloc, fault),
        DescriptionFault::PrototypeReference { name } | DescriptionFault::SameReference { name } =>
            spaced(alloc, name.as_str()),
        DescriptionFault::BadTarget { name, at } => {
            let name = name.as_str();
            let at = *at;
            format!(in alloc; " {name} {at}")
        }
        DescriptionFault::FactoryComponent
        | DescriptionFault::ImmediateScope
        | DescriptionFault::DelayedWithoutService
        | DescriptionFault::TooManyPids
        | DescriptionFault::OutOfMemory => Ok(String::new(alloc)),
    }
}

// The text of a fault of properties alone: its name and its fields.
pub(crate) fn prop_fault_text(alloc: Global, fault: &PropFault) -> Result<String, OutOfMemory>
    ensures { IfOk result (λ text. string_bytes text ≡ prop_fault_text fault.now) }
{
    let mut text = String::from_str(alloc, prop_fault_name(fault))?;
    text.push_str(prop_fault_fields(alloc, fault)?.as_str())?;
    Ok(text)
}

fn prop_fault_name(fault: &PropFault) -> &'static str
    ensures { result.now ≡ prop_fault_name fault.now }
{
    match fault {
        PropFault::NotObject => "NotObject",
        PropFault::FloatValue { .. } => "FloatValue",
        PropFault::NestedValue { .. } => "NestedValue",
        PropFault::MixedList { .. } => "MixedList",
        PropFault::SameKey { .. } => "SameKey",
        PropFault::OutOfMemory => "OutOfMemory",
    }
}

fn prop_fault_fields(alloc: Global, fault: &PropFault) -> Result<String, OutOfMemory>
    ensures { IfOk result (λ text. string_bytes text ≡ prop_fault_fields fault.now) }
{
    match fault {
        PropFault::FloatValue { key }
        | PropFault::NestedValue { key }
        | PropFault::MixedList { key }
        | PropFault::SameKey { key } => spaced(alloc, key.as_str()),
        PropFault::NotObject | PropFault::OutOfMemory => Ok(String::new(alloc)),
    }
}

pub(crate) fn spaced(alloc: Global, word: &str) -> Result<String, OutOfMemory>
    ensures { IfOk result (λ text. string_bytes text ≡ spaced word.now) }
{
    format!(in alloc; " {word}")
}

fn spaced_number(alloc: Global, number: usize) -> Result<String, OutOfMemory>
    ensures { IfOk result (λ text. string_bytes text ≡ spaced (decimal number)) }
{
    format!(in alloc; " {number}")
}
