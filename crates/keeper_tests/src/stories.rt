//! What happens to a keeper, and the keepers that it happens to.

use crate::changes::{Told, tells};
use crate::failing::{Third, goes};
use crate::long_lists::restarts_often;
use crate::odd_texts::come_back;
use crate::shown::is_shown;
use std::alloc::Global;
use world_keeper::{Keeper, MemoryKeeper, SqliteKeeper};

/// What happens to a new keeper.
#[derive(Clone, Copy)]
pub(crate) enum Story<'s> {
    /// It is told of these changes, and is shown so then.
    Changed {
        changes: &'s [Told<'s>],
        shown: &'s str,
    },
    /// A third call comes to this.
    Third(&'s Third),
    /// A bundle is started and stopped more often than a list of changes is long.
    Long,
    /// It is told of odd texts.
    Odd,
}

fn comes_true<K: Keeper>(alloc: Global, keeper: &mut K, story: &Story<'_>) -> bool {
    match story {
        Story::Changed { changes, shown } => {
            tells(alloc, keeper, changes) && is_shown(alloc, keeper, shown)
        }
        Story::Third(third) => goes(alloc, keeper, third),
        Story::Long => restarts_often(alloc, keeper),
        Story::Odd => come_back(alloc, keeper),
    }
}

/// Whether it comes true of a keeper in memory whose calls of these numbers fail.
pub(crate) fn holds_in_memory(alloc: Global, failing: &[u64], story: &Story<'_>) -> bool {
    match failing.to_vec(alloc) {
        Ok(failing) => {
            let mut keeper = MemoryKeeper::new(alloc, failing);
            comes_true(alloc, &mut keeper, story)
        }
        Err(_) => false,
    }
}

/// Whether it comes true of a database in memory. No other function owns one.
pub(crate) fn holds_in_database(alloc: Global, story: &Story<'_>) -> bool {
    let mut keeper = SqliteKeeper::new(alloc);
    comes_true(alloc, &mut keeper, story)
}

/// Whether it comes true of both.
pub(crate) fn holds_in_both(alloc: Global, story: &Story<'_>) -> bool {
    holds_in_memory(alloc, &[], story) && holds_in_database(alloc, story)
}
