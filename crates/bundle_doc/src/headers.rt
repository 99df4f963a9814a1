//! What a document's manifest says of its bundle (OSGi Core 8, section 3.2.1).
ghost use Rattle.std.specs.Prelude.{◌≡◌, IfOk, map, option_map, option_and_then};
ghost use Rattle.bundle_headers.specs.Headers.{manifest_of};
ghost use Rattle.bundle_doc.specs.Faults.{Reads};
ghost use Rattle.bundle_doc.specs.Headers.{first_path, headers_in, headers_of, is_two, listed_in, name_in, version_in, with_header_fault};
ghost use Rattle.bundle_doc.specs.Texts.{clauses_of};

use crate::DocFault;
use crate::names::items_of;
use crate::texts::{clauses_of, version_of};
use bundle_headers::{Clauses, HeaderFault, Manifest};
use osgi_version::Version;
use prop_map::{Copies, List, OutOfMemory, Str};
use std::alloc::Global;

/// Which entries of a document are its descriptions.
#[derive(Drop)]
pub(crate) enum Listed {
    /// All.
    Every,
    /// Those that these names take.
    Named(List<Str>),
}

/// What a manifest says, or what holds without one.
#[derive(Drop)]
pub(crate) struct Headers {
    pub(crate) name: Str,
    pub(crate) version: Version,
    pub(crate) manifest: Option<Manifest>,
    pub(crate) activator: Option<Str>,
    pub(crate) listed: Listed,
}

/// What the manifest of the bundle at a location says.
///
/// # Errors
/// `Header`: the manifest's first fault by line, then `BadManifestVersion`, `MissingName`, `BadVersion`.
pub(crate) fn headers_of(
    alloc: Global,
    location: &Str,
    manifest: Option<Str>,
) -> Result<Headers, DocFault>
    ensures { Reads result (headers_of location.now manifest) }
{
    match manifest {
        None => Ok(Headers {
            name: location.copy(alloc)?,
            version: Version::empty(alloc),
            manifest: None,
            activator: None,
            listed: Listed::Every,
        }),
        Some(text) => headers_in(alloc, parsed(alloc, text.as_str())?),
    }
}

fn parsed(alloc: Global, text: &str) -> Result<Manifest, DocFault>
    ensures { Reads result (with_header_fault (manifest_of text.now)) }
{
    match Manifest::parse(alloc, text.as_bytes()) {
        Ok(manifest) => Ok(manifest),
        Err(HeaderFault::OutOfMemory) => Err(DocFault::OutOfMemory),
        Err(fault) => Err(DocFault::Header { fault }),
    }
}

fn headers_in(alloc: Global, manifest: Manifest) -> Result<Headers, DocFault>
    ensures { Reads result (headers_in manifest) }
{
    if !is_two(manifest.get("Bundle-ManifestVersion")) {
        return Err(DocFault::Header {
            fault: HeaderFault::BadManifestVersion,
        });
    }
    let name = name_in(alloc, &manifest)?;
    let version = version_in(alloc, &manifest)?;
    let activator = copied(alloc, manifest.get("Bundle-Activator"))?;
    let listed = listed_in(alloc, &manifest)?;
    Ok(Headers {
        name,
        version,
        manifest: Some(manifest),
        activator,
        listed,
    })
}

fn is_two(value: Option<&str>) -> bool
    ensures { result ≡ is_two (option_map (λ v. v.now) value.entry) }
{
    match value {
        Some(text) => text == "2",
        None => false,
    }
}

fn copied(alloc: Global, text: Option<&str>) -> Result<Option<Str>, OutOfMemory>
    ensures { IfOk result (λ copied. copied ≡ option_map (λ t. t.now) text.entry) }
{
    match text {
        Some(text) => Ok(Some(Str::spell(alloc, text)?)),
        None => Ok(None),
    }
}

fn name_in(alloc: Global, manifest: &Manifest) -> Result<Str, DocFault>
    ensures { Reads result (name_in manifest.now) }
{
    if let Some(text) = manifest.get("Bundle-SymbolicName") {
        if let Some(name) = symbolic_name(alloc, text)? {
            return Ok(name);
        }
    }
    Err(DocFault::Header {
        fault: HeaderFault::MissingName,
    })
}

// The first path of the first clause.
fn symbolic_name(alloc: Global, text: &str) -> Result<Option<Str>, OutOfMemory>
    ensures { IfOk result (λ name. name ≡ option_and_then first_path (clauses_of text.now)) }
{
    match clauses_of(alloc, text)? {
        Some(clauses) => first_path(alloc, &clauses),
        None => Ok(None),
    }
}

fn first_path(alloc: Global, clauses: &Clauses) -> Result<Option<Str>, OutOfMemory>
    ensures { IfOk result (λ name. name ≡ first_path clauses.now) }
{
    match clauses.list.as_slice() {
        [clause, ..] => match clause.paths.as_slice() {
            [path, ..] => Ok(Some(path.copy(alloc)?)),
            [] => Ok(None),
        },
        [] => Ok(None),
    }
}

fn version_in(alloc: Global, manifest: &Manifest) -> Result<Version, DocFault>
    ensures { Reads result (version_in manifest.now) }
{
    match manifest.get("Bundle-Version") {
        Some(text) => version_of(alloc, text),
        None => Ok(Version::empty(alloc)),
    }
}

fn listed_in(alloc: Global, manifest: &Manifest) -> Result<Listed, OutOfMemory>
    ensures { IfOk result (λ listed. listed ≡ listed_in manifest.now) }
{
    match manifest.get("Service-Component") {
        Some(text) => Ok(Listed::Named(items_of(alloc, text)?)),
        None => Ok(Listed::Named(List::of(Vec::new(alloc)))),
    }
}
