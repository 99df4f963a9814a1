//! What is remembered of failures and of gets by token.
use callback_orders::Outcome;

/// A creation or activation that ended without success while its period was open.
#[derive(Clone, Copy, Debug, PartialEq, Eq, Drop)]
pub struct Failure {
    /// The number of the component configuration.
    pub configuration: u64,
    /// The number of the service that left with it, 0 where there was none.
    pub service: u64,
    /// The number of the instance.
    pub instance: u64,
    /// How it ended.
    pub outcome: Outcome,
}

/// A get by token that stands.
#[derive(Clone, Copy, Debug, PartialEq, Eq, Drop)]
pub struct Token {
    /// The place of its entry, from 0 on.
    pub place: u64,
    /// The number of the bundle that got the service.
    pub bundle: u64,
    /// The number of the service.
    pub service: u64,
}
