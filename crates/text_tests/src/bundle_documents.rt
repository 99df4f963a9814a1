use crate::shown::{is_printed, is_shown};
use bundle_doc::{BundleDoc, read_bundle, with_shared_texts};
use prop_map::Copies;
use std::alloc::Global;

fn copy_is_shown(alloc: Global, document: &BundleDoc, wanted: &str) -> bool {
    match document.copy(alloc) {
        Ok(copy) => is_shown(alloc, &copy, wanted),
        Err(_) => false,
    }
}

// Whether a copy of the document of a text is shown so.
fn is_read(alloc: Global, text: &[u8], wanted: &str) -> bool {
    match read_bundle(alloc, text) {
        Ok(document) => copy_is_shown(alloc, &document, wanted),
        Err(_) => false,
    }
}

#[test]
fn a_document_is_read_and_copied(rt: HostRuntime) {
    let text =
        b"{\"location\":\"x\",\"manifest\":\"Bundle-ManifestVersion: 2\\nBundle-SymbolicName: n\\n\"}";
    let wanted =
        "BundleDoc { location: \"x\", name: \"n\", version: Version { major: 0, minor: 0, micro: 0, qualifier: \"\" }, \
        manifest: Some(Manifest { headers: [(\"Bundle-ManifestVersion\", \"2\"), (\"Bundle-SymbolicName\", \"n\")] }), \
        activator: None, descriptions: [] }";
    assert!(rt; is_read(rt.alloc(), text, wanted));
}

fn fault_is(alloc: Global, text: &str, wanted: &str) -> bool {
    match read_bundle(alloc, text.as_bytes()) {
        Ok(_) => false,
        Err(fault) => is_printed(alloc, &fault, wanted),
    }
}

fn faults_are(alloc: Global, rows: &[(&str, &str)]) -> bool {
    for (text, wanted) in rows {
        if !fault_is(alloc, text, wanted) {
            return false;
        }
    }
    true
}

const FAULTS: &[(&str, &str)] = &[
    ("", "the document is no JSON"),
    ("{}", "location is missing"),
    ("7", "document is of a wrong type"),
    (
        "{\"location\":\"x\",\"manifest\":\"Bundle-ManifestVersion: 2\\nBundle-SymbolicName: n\\nService-Component: e\\n\"}",
        "there is no entry e",
    ),
    (
        "{\"location\":\"x\",\"components\":{\"a\":{\"implementationClass\":\"C\"},\"b\":{\"implementationClass\":\"C\"}}}",
        "the component C is there twice",
    ),
    (
        "{\"location\":\"x\",\"manifest\":\"\"}",
        "no manifest of version 2",
    ),
    (
        "{\"location\":\"x\",\"components\":{\"e\":{}}}",
        "in e: implementationClass is missing",
    ),
];

#[test]
fn faults_of_documents_are_printed(rt: HostRuntime) {
    assert!(rt; faults_are(rt.alloc(), FAULTS));
}

fn copy_is(alloc: Global, document: &BundleDoc, wanted: &BundleDoc) -> bool {
    match document.copy(alloc) {
        Ok(copy) => copy == *wanted,
        Err(_) => false,
    }
}

// Whether a document with shared texts and its copy are this one.
fn shares_texts(alloc: Global, document: BundleDoc, wanted: &BundleDoc) -> bool {
    match with_shared_texts(alloc, document) {
        Ok(shared) => shared == *wanted && copy_is(alloc, &shared, wanted),
        Err(_) => false,
    }
}

fn is_same_with_shared_texts(alloc: Global, document: BundleDoc) -> bool {
    match document.copy(alloc) {
        Ok(wanted) => shares_texts(alloc, document, &wanted),
        Err(_) => false,
    }
}

fn is_same_read(alloc: Global, text: &[u8]) -> bool {
    match read_bundle(alloc, text) {
        Ok(document) => is_same_with_shared_texts(alloc, document),
        Err(_) => false,
    }
}

#[test]
fn a_document_with_shared_texts_is_the_same(rt: HostRuntime) {
    let text =
        b"{\"location\":\"x\",\"components\":{\"e\":{\"implementationClass\":\"C\",\"modified\":\"m\",\
        \"serviceInterfaces\":[\"I\"],\"references\":[{\"interfaceName\":\"J\",\"target\":\"(a=b)\"}]}}}";
    assert!(rt; is_same_read(rt.alloc(), text));
}
