//! Gets of services.

use prop_map::OutOfMemory;
use std::alloc::Global;
use use_counts::{Holder, UseCounts};

// A get, where there may be one more.
fn get(uses: &mut UseCounts, bundle: u64, service: u64, holder: Holder) -> Option<u32> {
    if uses.count(bundle, service) == u32::MAX {
        return None;
    }
    uses.get(bundle, service, holder).ok()
}

fn are_counted_by_holder(uses: &mut UseCounts) -> bool {
    get(uses, 1, 5, Holder::Token) == Some(1)
        && get(uses, 1, 5, Holder::Shell) == Some(2)
        && uses.unget(1, 5, Holder::Shell) == Ok(1)
        && uses.count_of(1, 5, Holder::Token) == 1
}

fn are_using(alloc: Global, uses: &UseCounts, bundles: &[u64]) -> bool {
    match uses.using_bundles(alloc, 5) {
        Ok(using) => using.as_slice() == bundles,
        Err(_) => false,
    }
}

// Releases a bundle and a service, and goes back to what was saved before.
fn are_released(alloc: Global, uses: &mut UseCounts) -> bool {
    let saved = match uses.save(alloc) {
        Ok(saved) => saved,
        Err(_) => return false,
    };
    uses.release_bundle(2);
    let one_is_left = uses.rows().len() == 1;
    uses.release_service(5);
    let none_is_left = uses.rows().is_empty();
    uses.go_back(saved);
    one_is_left && none_is_left && uses.rows().len() == 2
}

fn leave_no_gets(alloc: Global, uses: &mut UseCounts) -> bool {
    get(uses, 2, 5, Holder::Shell) == Some(1)
        && get(uses, 1, 5, Holder::Shell) == Some(1)
        && are_using(alloc, uses, &[1, 2])
        && are_released(alloc, uses)
}

// Ends a get that the shell holds, and puts it back.
fn unget_undone(
    alloc: Global,
    uses: &mut UseCounts,
    bundle: u64,
    service: u64,
) -> Result<bool, OutOfMemory> {
    let kept = uses.keep_use(alloc, bundle, service)?;
    let was_ended = uses.unget(bundle, service, Holder::Shell).is_ok();
    uses.put_back(kept);
    Ok(was_ended)
}

// Ends the gets of a service, and puts them back.
fn service_put_back(alloc: Global, uses: &mut UseCounts, service: u64) -> Result<(), OutOfMemory> {
    let kept = uses.keep_service(alloc, service)?;
    uses.release_service(service);
    uses.put_back(kept);
    Ok(())
}

// Ends the gets of a bundle, and puts them back.
fn bundle_put_back(alloc: Global, uses: &mut UseCounts, bundle: u64) -> Result<(), OutOfMemory> {
    let kept = uses.keep_bundle(alloc, bundle)?;
    uses.release_bundle(bundle);
    uses.put_back(kept);
    Ok(())
}

fn are_put_back(alloc: Global, uses: &mut UseCounts) -> bool {
    get(uses, 1, 5, Holder::Shell) == Some(1)
        && unget_undone(alloc, uses, 1, 5) == Ok(true)
        && service_put_back(alloc, uses, 5).is_ok()
        && bundle_put_back(alloc, uses, 1).is_ok()
        && uses.count(1, 5) == 1
}

/// What happens to a table.
#[derive(Clone, Copy)]
enum Story {
    CountedByHolder,
    Released,
    PutBack,
}

// Whether the story comes true in a new table. No other function owns one.
fn holds(alloc: Global, story: Story) -> bool {
    match UseCounts::new(alloc) {
        Ok(mut uses) => match story {
            Story::CountedByHolder => are_counted_by_holder(&mut uses),
            Story::Released => leave_no_gets(alloc, &mut uses),
            Story::PutBack => are_put_back(alloc, &mut uses),
        },
        Err(_) => false,
    }
}

#[test]
fn gets_are_counted_by_holder(rt: HostRuntime) {
    assert!(rt; holds(rt.alloc(), Story::CountedByHolder));
}

#[test]
fn a_service_and_a_bundle_leave_no_gets(rt: HostRuntime) {
    assert!(rt; holds(rt.alloc(), Story::Released));
}

#[test]
fn ended_gets_are_put_back(rt: HostRuntime) {
    assert!(rt; holds(rt.alloc(), Story::PutBack));
}
