//! That what lies under the lock may go to another thread.
use crate::locked::Locked;

/// Does nothing. That it is proved says that a [`Locked`] is `Send` where its objects may be shared by threads and go
/// from one to another: so threads may share a lock round it.
pub fn locked_is_send<O: Send + Sync>() {
    is_send::<Locked<O>>();
}

fn is_send<T: Send>() {}
