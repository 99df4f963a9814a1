//! Bundles, their states and their events.

use bundle_life::{BundleState, Bundles, Installed, LifeFault};
use osgi_version::Version;
use std::alloc::Global;

// Whether the events behind the first `after` are these, all of bundle 1.
fn are_events(bundles: &Bundles, after: u64, values: &[u32]) -> bool {
    let events = bundles.events(after);
    events.len() == values.len()
        && events.iter().zip(values).all(|(event, value)| event.bundle == 1
            && event.value == *value)
}

fn is_found(alloc: Global, bundles: &Bundles) -> bool {
    !bundles.is_full()
        && bundles.rows().len() == 1
        && bundles.at_location("one").is_some()
        && bundles.namesake("a", &Version::empty(alloc), 0).is_some()
}

fn starts_and_stops(bundles: &mut Bundles) -> bool {
    if !(bundles.start(1).is_ok() && bundles.stop(1).is_ok()) {
        return false;
    }
    if !bundles.is_stopping(1) {
        return false;
    }
    bundles.stopped(1);
    bundles.state(1) == Some(4)
        && bundles.state_of(1) == Some(BundleState::Resolved)
        && are_events(bundles, 0, &[1, 32, 128, 2, 256, 4])
}

fn is_named(bundles: &Bundles, name: &str) -> bool {
    match bundles.bundle(1) {
        Some(bundle) => bundle.name.as_str() == name,
        None => false,
    }
}

fn is_updated_and_uninstalled(alloc: Global, bundles: &mut Bundles) -> bool {
    bundles
        .update(alloc, 1, "b", &Version::empty(alloc))
        .is_ok()
        && is_named(bundles, "b")
        && bundles.uninstall(1).is_ok()
        && are_events(bundles, 1, &[8, 16])
        && bundles.numbered() == 1
}

fn goes_back(alloc: Global, bundles: &mut Bundles) -> bool {
    match bundles.save(alloc) {
        Ok(saved) => bundles.go_back(saved),
        Err(_) => return false,
    }
    are_events(bundles, 0, &[1])
}

fn install_is_undone(bundles: &mut Bundles) -> bool {
    bundles.undo_install().is_some()
        && bundles.rows().is_empty()
        && bundles.numbered() == 0
        && are_events(bundles, 0, &[])
}

fn start_stays(bundles: &mut Bundles) -> bool {
    bundles.start(1).is_ok()
        && bundles.undo_install().is_none()
        && bundles.numbered() == 1
        && are_events(bundles, 0, &[1, 32, 128, 2])
}

// A stop of bundle 1, and as it was again.
fn stop_undone(alloc: Global, bundles: &mut Bundles) -> Result<(), LifeFault> {
    Bundles::note_put_back();
    let kept = bundles.keep(alloc, 1)?;
    bundles.stop(1)?;
    bundles.put_back(kept);
    Ok(())
}

fn stop_is_undone(alloc: Global, bundles: &mut Bundles) -> bool {
    bundles.start(1).is_ok()
        && stop_undone(alloc, bundles).is_ok()
        && bundles.state_of(1) == Some(BundleState::Active)
        && are_events(bundles, 0, &[1, 32, 128, 2])
}

/// What happens to bundle 1.
#[derive(Clone, Copy)]
enum Story {
    Found,
    StartedAndStopped,
    UpdatedAndUninstalled,
    GoneBack,
    InstallUndone,
    Started,
    StopUndone,
}

fn comes_true(alloc: Global, bundles: &mut Bundles, story: Story) -> bool {
    match story {
        Story::Found => is_found(alloc, bundles),
        Story::StartedAndStopped => starts_and_stops(bundles),
        Story::UpdatedAndUninstalled => is_updated_and_uninstalled(alloc, bundles),
        Story::GoneBack => goes_back(alloc, bundles),
        Story::InstallUndone => install_is_undone(bundles),
        Story::Started => start_stays(bundles),
        Story::StopUndone => stop_is_undone(alloc, bundles),
    }
}

// Bundle 1 is installed, at the location `one`, with the name `a` and the empty version.
fn is_installed(alloc: Global, bundles: &mut Bundles) -> bool {
    match bundles.install(alloc, "one", "a", &Version::empty(alloc)) {
        Ok(Installed::New(number)) => number == 1,
        _ => false,
    }
}

// The same in a new table, and then the story. No other function owns a table.
fn holds(alloc: Global, story: Story) -> bool {
    match Bundles::new(alloc) {
        Ok(mut bundles) => {
            is_installed(alloc, &mut bundles) && comes_true(alloc, &mut bundles, story)
        }
        Err(_) => false,
    }
}

#[test]
fn an_installed_bundle_is_found(rt: HostRuntime) {
    assert!(rt; holds(rt.alloc(), Story::Found));
}

#[test]
fn a_bundle_starts_and_stops(rt: HostRuntime) {
    assert!(rt; holds(rt.alloc(), Story::StartedAndStopped));
}

#[test]
fn a_bundle_is_updated_and_uninstalled(rt: HostRuntime) {
    assert!(rt; holds(rt.alloc(), Story::UpdatedAndUninstalled));
}

#[test]
fn bundles_go_back_to_what_was_saved(rt: HostRuntime) {
    assert!(rt; holds(rt.alloc(), Story::GoneBack));
}

#[test]
fn an_install_is_taken_back(rt: HostRuntime) {
    assert!(rt; holds(rt.alloc(), Story::InstallUndone));
}

#[test]
fn a_start_is_no_install_to_take_back(rt: HostRuntime) {
    assert!(rt; holds(rt.alloc(), Story::Started));
}

#[test]
fn a_stop_is_taken_back(rt: HostRuntime) {
    assert!(rt; holds(rt.alloc(), Story::StopUndone));
}
