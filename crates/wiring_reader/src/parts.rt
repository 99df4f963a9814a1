//! The part that each installed bundle takes when bundles resolve together (OSGi Core 8, chapter 3 "Module Layer").
ghost use Rattle.kept_wirings.specs.WiringRows.{fault_in, row_of, rows_of};
ghost use Rattle.std.specs.Prelude.{◌≡◌, map, IfOk};
ghost use Rattle.wiring_reader.specs.Parts.{head_of};

use bundle_wiring::WireFault;
use prop_map::OutOfMemory;
use scr_world::Contents;
use std::alloc::Global;

/// A bundle, and whether its manifest is faulty.
#[derive(Clone, Copy)]
pub(crate) struct Head {
    pub(crate) bundle: u64,
    pub(crate) faulty: bool,
}

/// The heads of the bundles with these documents, of whose manifests these are the faults.
///
/// # Errors
/// Only want of memory.
pub(crate) fn heads_of(
    alloc: Global,
    documents: &[Contents],
    faults: &[Option<WireFault>],
) -> Result<Vec<Head>, OutOfMemory>
    requires { faults.now ≡ map fault_in (rows_of documents.now) }
    ensures { IfOk result (λ heads. heads.items ≡ map head_of documents.now) }
{
    let mut heads = Vec::new(alloc);
    for (place, contents) in documents.iter().enumerate() {
        heads.push(head_of(contents, &faults[place]))?;
    }
    Ok(heads)
}

fn head_of(contents: &Contents, fault: &Option<WireFault>) -> Head
    requires { fault.now ≡ fault_in (row_of contents.now) }
    ensures { result ≡ head_of contents.now }
{
    Head {
        bundle: contents.bundle,
        faulty: fault.is_some(),
    }
}
