use crate::shown::is_printed;
use osgi_version::{Version, VersionFault, VersionRange};
use prop_map::Copies;
use std::alloc::Global;

fn is_written(alloc: Global, version: &Version, wanted: &str) -> bool {
    match version.text(alloc) {
        Ok(text) => text.as_str() == wanted,
        Err(_) => false,
    }
}

fn copy_is_written(alloc: Global, version: &Version, wanted: &str) -> bool {
    match version.copy(alloc) {
        Ok(copy) => is_written(alloc, &copy, wanted),
        Err(_) => false,
    }
}

// Whether a copy of the version of a text is written so, it is above the empty one, and has this qualifier.
fn is_read(alloc: Global, text: &str, wanted: &str, qualifier: &str) -> bool {
    match Version::parse(alloc, text) {
        Ok(version) => {
            copy_is_written(alloc, &version, wanted)
                && version > Version::empty(alloc)
                && is_printed(alloc, &version.qualifier, qualifier)
        }
        Err(_) => false,
    }
}

#[test]
fn a_version_is_read_copied_and_written(rt: HostRuntime) {
    assert!(rt; is_read(rt.alloc(), " 07.2.0.x-1 ", "7.2.0.x-1", "x-1"));
}

fn copy_is_same(alloc: Global, range: &VersionRange) -> bool {
    match range.copy(alloc) {
        Ok(copy) => copy == *range,
        Err(_) => false,
    }
}

fn includes(alloc: Global, range: &VersionRange, version: &str) -> bool {
    match Version::parse(alloc, version) {
        Ok(version) => range.includes(&version),
        Err(_) => false,
    }
}

// Whether the range of a text is its copy, and has a version.
fn ranges_over(alloc: Global, text: &str, version: &str) -> bool {
    match VersionRange::parse(alloc, text) {
        Ok(range) => copy_is_same(alloc, &range) && includes(alloc, &range, version),
        Err(_) => false,
    }
}

#[test]
fn a_range_is_read_copied_and_asked(rt: HostRuntime) {
    assert!(rt; ranges_over(rt.alloc(), "[1,2)", "1.9.9"));
}

#[test]
fn faults_of_versions_are_printed(rt: HostRuntime) {
    let alloc = rt.alloc();
    let fault = VersionFault::BadVersion { at: 4 };
    assert!(rt;
        is_printed(alloc, &fault, "no version, from byte 4")
            && is_printed(alloc, &VersionFault::OutOfMemory, "out of memory")
    );
}
