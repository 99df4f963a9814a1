//! That threads may share a hall, and that a pass may go to another thread.

use crate::hall::Hall;
use crate::hall_pass::HallPass;
use kind_trait::Kinds;

/// Does nothing. That it is proved says that threads may share a [`Hall`] where they may share its component code.
pub fn hall_is_sync<K: Kinds + Sync>() {
    is_sync::<Hall<K>>();
}

/// Does nothing. That it is proved says that a [`HallPass`] may go to another thread.
pub fn pass_is_send() {
    is_send::<HallPass>();
}

fn is_sync<T: Sync>() {}

fn is_send<T: Send>() {}
