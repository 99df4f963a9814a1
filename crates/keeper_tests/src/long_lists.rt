//! A list of changes that begins anew.

use crate::changes::{P, Told, tells};
use crate::shown::is_shown;
use crate::stories::{Story, holds_in_database};
use std::alloc::Global;
use world_keeper::Keeper;

// A bundle is stopped and started 600 times.
fn restarts<K: Keeper>(alloc: Global, keeper: &mut K) -> bool {
    for _ in 0..600u64 {
        if !tells(alloc, keeper, &[Told::Stop("p"), Told::Start("p")]) {
            return false;
        }
    }
    true
}

const STARTED: &str = "p started {\"location\":\"p\"}\ninstall p\nstart 1\n";

/// Whether it is kept then that the bundle is started.
pub(crate) fn restarts_often<K: Keeper>(alloc: Global, keeper: &mut K) -> bool {
    tells(alloc, keeper, &[Told::Install("p", P)])
        && restarts(alloc, keeper)
        && is_shown(alloc, keeper, STARTED)
        && is_shown(alloc, keeper, STARTED)
}

#[test]
fn a_long_list_keeps_what_it_kept(rt: HostRuntime) {
    assert!(rt; holds_in_database(rt.alloc(), &Story::Long));
}
