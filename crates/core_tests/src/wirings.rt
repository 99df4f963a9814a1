//! What a core keeps of the needs and offers of manifests.

use crate::samples::{LIMITS, installs, on_core, updates};
use scr_core::Core;
use std::alloc::Global;
use wiring_reader::{bundle_wiring, wiring_lines};

// A bundle that exports two packages.
const EXPORTER: &str =
    r#"{"location":"e","manifest":"Bundle-ManifestVersion: 2\nBundle-SymbolicName: e\nExport-Package: q,r\n"}"#;

// A bundle whose import has a range that is none.
const FAULTY: &str =
    r#"{"location":"e","manifest":"Bundle-ManifestVersion: 2\nBundle-SymbolicName: e\nImport-Package: s;version=\"[1,2\"\nExport-Package: q\n"}"#;

// How many offers are kept of the first bundle.
fn offers(core: &Core) -> usize {
    match core.wirings().bundles.as_slice().first() {
        Some(bundle) => bundle.1.offers.as_slice().len(),
        None => 0,
    }
}

// Whether a fault is kept of the first bundle.
fn is_faulty(core: &Core) -> bool {
    match core.wirings().faults.as_slice().first() {
        Some(fault) => fault.is_some(),
        None => false,
    }
}

fn keeps_offers(alloc: Global, core: &mut Core) -> bool {
    installs(alloc, core, EXPORTER, 1) && offers(core) == 2 && !is_faulty(core)
}

#[test]
fn offers_are_kept(rt: HostRuntime) {
    assert!(rt; on_core(rt.alloc(), LIMITS, keeps_offers));
}

fn keeps_fault(alloc: Global, core: &mut Core) -> bool {
    installs(alloc, core, EXPORTER, 1)
        && updates(alloc, core, FAULTY)
        && offers(core) == 0
        && is_faulty(core)
}

#[test]
fn a_faulty_manifest_offers_nothing(rt: HostRuntime) {
    assert!(rt; on_core(rt.alloc(), LIMITS, keeps_fault));
}

// Whether one line tells the wiring of all bundles, by their documents alone.
fn has_one_line(alloc: Global, core: &Core) -> bool {
    match wiring_lines(alloc, core.documents()) {
        Ok(lines) => lines.as_slice().len() == 1,
        Err(_) => false,
    }
}

// Whether two lines tell that of the first.
fn tells_two_offers(alloc: Global, core: &Core) -> bool {
    match bundle_wiring(alloc, core.documents(), 1) {
        Ok(Some(lines)) => lines.as_slice().len() == 2,
        _ => false,
    }
}

fn tells_anew(alloc: Global, core: &mut Core) -> bool {
    installs(alloc, core, EXPORTER, 1) && has_one_line(alloc, core) && tells_two_offers(alloc, core)
}

#[test]
fn documents_tell_the_wiring(rt: HostRuntime) {
    assert!(rt; on_core(rt.alloc(), LIMITS, tells_anew));
}
