//! Gets after a command.
use use_counts::UseCounts;

/// The gets after a command of a bundle for a service, and how often the bundle uses the service then.
#[derive(Drop)]
pub(crate) struct Counted {
    pub(crate) uses: UseCounts,
    pub(crate) count: u32,
}
