//! That a core may go to another thread.
use crate::platform_core::Core;

/// Does nothing. That it is proved says that a [`Core`] is `Send`: it may be handed to another thread, with its journal and all
/// that it keeps beside it.
pub fn core_is_send() {
    is_send::<Core>();
}

fn is_send<T: Send>() {}
