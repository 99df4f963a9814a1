//! Why a call isn't answered.
use thiserror::Error;

/// Why a call that got its service isn't answered.
#[derive(Clone, Copy, Debug, PartialEq, Eq, Drop, Error)]
pub enum CallRefusal {
    /// The get stands no more behind the settling.
    #[error("the service that was got is gone")]
    Gone,
    /// There is no object behind the service.
    #[error("there is no object behind the service")]
    NoObject,
    /// The instance of the service isn't active.
    #[error("the instance of the service isn't active")]
    Pending,
    /// The component code refuses the request.
    #[error("the component code refuses the request")]
    Refused,
    /// A further nested call would be one too many.
    #[error("a further nested call would be one too many")]
    CallTooLong,
}
