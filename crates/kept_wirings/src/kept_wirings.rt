//! The needs and offers of the installed bundles, kept by bundle.
ghost use Rattle.kept_wirings.specs.DocumentWirings.{fault_of, part_of};
ghost use Rattle.kept_wirings.specs.KeptRows.{AreKept, HasRoom};
ghost use Rattle.kept_wirings.specs.Places.{removed_at, set_at};
ghost use Rattle.kept_wirings.specs.WiringChanges.{with_wiring_change};
ghost use Rattle.kept_wirings.specs.WiringRows.{HaveOwnNumbers, fault_in, part_in, row_of, rows_of};
ghost use Rattle.bundle_wiring.specs.Resolution.{Bundle};
ghost use Rattle.scr_world.specs.declared.contents.Contents.{Contents};
ghost use Rattle.std.specs.Prelude.{◌≡◌, ◌==◌, ◌<◌, ◌++◌, ◌∷◌, [], List, IfOk, OnOk, length, position, vec_capacity, vec_len};

use crate::WiringChange;
use crate::document_wirings::{Part, document_wiring, part_of};
use bundle_wiring::{WireFault, Wiring};
use prop_map::OutOfMemory;
use scr_world::Contents;
use std::alloc::Global;

/// What the manifests of bundles say of their needs and offers, in the order of the bundles.
#[derive(Drop)]
pub struct KeptWirings {
    /// The number of each bundle, and what it needs and offers: nothing where its manifest is faulty.
    pub bundles: Vec<(u64, Wiring)>,
    /// The first fault of the manifest of each bundle, in the same order.
    pub faults: Vec<Option<WireFault>>,
}

impl KeptWirings {
    /// Those of no bundle. It takes no memory.
    pub fn new(alloc: Global) -> KeptWirings
        ensures { AreKept [] result }
    {
        KeptWirings {
            bundles: Vec::new(alloc),
            faults: Vec::new(alloc),
        }
    }

    /// Takes the memory that a change needs.
    ///
    /// # Errors
    /// Only want of memory. What is kept stays as it is in any case.
    pub fn prepare(&mut self, change: &WiringChange) -> Result<(), OutOfMemory>
        ensures bundles { self.new.bundles.items ≡ self.old.bundles.items }
        ensures faults { self.new.faults.items ≡ self.old.faults.items }
        ensures room { OnOk result (HasRoom change.now self.new) }
    {
        if let WiringChange::Installed { .. } = change {
            self.bundles.reserve(1)?;
            self.faults.reserve(1)?;
        }
        Ok(())
    }

    /// Makes a change for which the memory was taken. It takes none.
    pub fn make(&mut self, alloc: Global, change: WiringChange)
        requires room { HasRoom change self.old }
        requires kept { (cs : List Contents) × AreKept cs self.old }
        ensures { (before after : List Contents) → AreKept before self.old → HaveOwnNumbers (rows_of before) → rows_of after ≡ with_wiring_change change (rows_of before) → AreKept after self.new }
    {
        match change {
            WiringChange::Same => {}
            WiringChange::Installed { bundle, read } => self.add(alloc, bundle, read),
            WiringChange::Updated { bundle, read } => self.replace(alloc, bundle, read),
            WiringChange::Uninstalled { bundle } => self.remove(bundle),
        }
    }

    fn add(&mut self, alloc: Global, bundle: u64, read: Result<Wiring, WireFault>)
        requires bundles { vec_len self.old.bundles < vec_capacity self.old.bundles }
        requires faults { vec_len self.old.faults < vec_capacity self.old.faults }
        ensures bundles { self.new.bundles.items ≡ self.old.bundles.items ++ (bundle, part_of read) ∷ [] }
        ensures faults { self.new.faults.items ≡ self.old.faults.items ++ fault_of read ∷ [] }
    {
        let Part { wiring, fault } = part_of(alloc, read);
        self.bundles.push_reserved((bundle, wiring));
        self.faults.push_reserved(fault);
    }

    fn replace(&mut self, alloc: Global, bundle: u64, read: Result<Wiring, WireFault>)
        requires { length self.old.faults.items ≡ length self.old.bundles.items }
        ensures bundles { self.new.bundles.items ≡ set_at (position (λ (b : Bundle). b.0 == bundle) self.old.bundles.items) (bundle, part_of read) self.old.bundles.items }
        ensures faults { self.new.faults.items ≡ set_at (position (λ (b : Bundle). b.0 == bundle) self.old.bundles.items) (fault_of read) self.old.faults.items }
    {
        if let Some(place) = place_of(&self.bundles, bundle) {
            let Part { wiring, fault } = part_of(alloc, read);
            self.bundles[place] = (bundle, wiring);
            self.faults[place] = fault;
        }
    }

    fn remove(&mut self, bundle: u64)
        requires { length self.old.faults.items ≡ length self.old.bundles.items }
        ensures bundles { self.new.bundles.items ≡ removed_at (position (λ (b : Bundle). b.0 == bundle) self.old.bundles.items) self.old.bundles.items }
        ensures faults { self.new.faults.items ≡ removed_at (position (λ (b : Bundle). b.0 == bundle) self.old.bundles.items) self.old.faults.items }
    {
        if let Some(place) = place_of(&self.bundles, bundle) {
            let _bundle = self.bundles.remove(place);
            let _fault = self.faults.remove(place);
        }
    }
}

fn place_of(bundles: &[(u64, Wiring)], bundle: u64) -> Option<usize>
    ensures { result ≡ position (λ (b : Bundle). b.0 == bundle) bundles.now }
{
    bundles.iter().position(|row| row.0 == bundle)
}

/// The needs and offers of bundles with these documents, read anew.
///
/// # Errors
/// Only want of memory.
pub fn wirings_of(alloc: Global, documents: &[Contents]) -> Result<KeptWirings, OutOfMemory>
    ensures { IfOk result (λ kept. AreKept documents.now kept) }
{
    let mut kept = KeptWirings::new(alloc);
    for contents in documents {
        push(alloc, &mut kept, contents)?;
    }
    Ok(kept)
}

fn push(alloc: Global, kept: &mut KeptWirings, contents: &Contents) -> Result<(), OutOfMemory>
    ensures bundles { OnOk result (kept.new.bundles.items ≡ kept.old.bundles.items ++ part_in (row_of contents.now) ∷ []) }
    ensures faults { OnOk result (kept.new.faults.items ≡ kept.old.faults.items ++ fault_in (row_of contents.now) ∷ []) }
{
    let read = document_wiring(alloc, contents.document.get())?;
    let Part { wiring, fault } = part_of(alloc, read);
    kept.bundles.push((contents.bundle, wiring))?;
    kept.faults.push(fault)?;
    Ok(())
}
