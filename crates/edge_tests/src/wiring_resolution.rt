//! Which bundles resolve together, and their wires.

use crate::wiring_samples::wiring;
use bundle_wiring::{Resolved, Wire, Wiring, resolve};
use std::alloc::Global;

const GREETER: &str = "Import-Package: org.osgi.service.log;version=\"[1.4,2)\"
Provide-Capability: osgi.service;objectClass:List<String>=\"com.acme.Gre
 eter\";uses:=\"com.acme\"
Require-Capability: osgi.extender;filter:=\"(&(osgi.extender=osgi.compone
 nt)(version>=1.5.0)(!(version>=2.0.0)))\",osgi.ee;filter:=\"(&(osgi.ee=Ja
 vaSE)(version=17))\"
";

fn wire(from: u64, need: usize, to: u64, offer: usize) -> Wire {
    Wire {
        from,
        need,
        to,
        offer,
    }
}

fn is(resolved: &Resolved, bundles: &[u64], wires: &[Wire]) -> bool {
    resolved.bundles.as_slice() == bundles && resolved.wires.as_slice() == wires
}

fn resolve_so(alloc: Global, made: &[(u64, Wiring)], bundles: &[u64], wires: &[Wire]) -> bool {
    match resolve(alloc, made) {
        Ok(resolved) => is(&resolved, bundles, wires),
        Err(_) => false,
    }
}

fn add(alloc: Global, made: &mut Vec<(u64, Wiring)>, number: u64, headers: &str) -> bool {
    match wiring(alloc, headers) {
        Some(Ok(wiring)) => made.push((number, wiring)).is_ok(),
        _ => false,
    }
}

fn add_all(alloc: Global, made: &mut Vec<(u64, Wiring)>, rows: &[(u64, &str)]) -> bool {
    for (number, headers) in rows {
        if !add(alloc, made, *number, headers) {
            return false;
        }
    }
    true
}

// Whether, of bundles with these numbers and headers, these resolve, with these wires.
fn resolves(alloc: Global, rows: &[(u64, &str)], bundles: &[u64], wires: &[Wire]) -> bool {
    let mut made = Vec::new(alloc);
    add_all(alloc, &mut made, rows) && resolve_so(alloc, made.as_slice(), bundles, wires)
}

// Two exporters of `q`, the second of which imports `r`, and a bundle that imports `q`.
const THREE: &[(u64, &str)] = &[
    (1, "Export-Package: q;version=1.0\n"),
    (2, "Export-Package: q;version=1.2\nImport-Package: r\n"),
    (3, "Import-Package: q;version=\"[1,2)\"\n"),
];

#[test]
fn a_bundle_without_its_package_is_left_out(rt: HostRuntime) {
    assert!(rt; resolves(rt.alloc(), THREE, &[1, 3], &[wire(3, 0, 1, 0)]));
}

// The same, and one that exports `r`.
const FOUR: &[(u64, &str)] = &[
    (1, "Export-Package: q;version=1.0\n"),
    (2, "Export-Package: q;version=1.2\nImport-Package: r\n"),
    (3, "Import-Package: q;version=\"[1,2)\"\n"),
    (4, "Export-Package: r\n"),
];

#[test]
fn the_package_comes_and_the_higher_version_is_taken(rt: HostRuntime) {
    let wires = [wire(2, 0, 4, 0), wire(3, 0, 2, 0)];
    assert!(rt; resolves(rt.alloc(), FOUR, &[1, 2, 3, 4], &wires));
}

#[test]
fn a_service_bundle_waits_for_its_package(rt: HostRuntime) {
    assert!(rt; resolves(rt.alloc(), &[(1, GREETER)], &[], &[]));
}

const WITH_LOG: &[(u64, &str)] = &[
    (1, GREETER),
    (2, "Export-Package: org.osgi.service.log;version=1.5\n"),
];

#[test]
fn a_service_bundle_is_wired_to_the_platform(rt: HostRuntime) {
    let wires = [wire(1, 0, 2, 0), wire(1, 1, 0, 0), wire(1, 2, 0, 1)];
    assert!(rt; resolves(rt.alloc(), WITH_LOG, &[1, 2], &wires));
}

const EACH_OTHER: &[(u64, &str)] = &[
    (2, "Export-Package: a\nImport-Package: b\n"),
    (
        1,
        "Export-Package: b\nImport-Package: a,c;resolution:=optional\n",
    ),
];

#[test]
fn bundles_that_need_each_other_resolve(rt: HostRuntime) {
    let wires = [wire(2, 0, 1, 0), wire(1, 0, 2, 0)];
    assert!(rt; resolves(rt.alloc(), EACH_OTHER, &[2, 1], &wires));
}
