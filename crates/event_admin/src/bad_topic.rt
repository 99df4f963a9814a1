//! Texts that are no topics.
use thiserror::Error;

/// A text is no topic, or no pattern of topics.
#[derive(Clone, Copy, Debug, PartialEq, Eq, Error)]
#[error("no topic from byte {at} on")]
pub struct BadTopic {
    /// How many bytes the longest beginning of the text has with which some topic, or some pattern, begins.
    pub at: usize,
}
