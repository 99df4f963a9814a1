//! Gets of services.
use thiserror::Error;

/// Who holds a get.
#[derive(Clone, Copy, Debug, PartialEq, Eq)]
pub enum Holder {
    /// The shell, for a bundle.
    Shell,
    /// A token of the program.
    Token,
}

/// How often a bundle uses a service.
#[derive(Clone, Copy, Debug, PartialEq, Eq)]
pub struct UseRow {
    /// The service's number.
    pub service: u64,
    /// The bundle's number.
    pub bundle: u64,
    /// Gets that the shell holds.
    pub shell: u32,
    /// Gets that tokens hold.
    pub tokens: u32,
}

/// The holder holds no get of the service for the bundle. Nothing changed.
#[derive(Clone, Copy, Debug, PartialEq, Eq, Error)]
#[error("the service is not used")]
pub struct NotUsing;
