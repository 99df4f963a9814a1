//! What is kept for instances.

use std::sync::Arc;
use turn_work::Site;

/// What is kept for a living instance from the end of its Create on.
#[derive(Drop)]
pub struct Part<O> {
    /// The number of the instance.
    pub instance: u64,
    /// Its object.
    pub object: Arc<O>,
    /// Its class, and its properties as it took them when its Create or its last Modified began.
    pub site: Site,
}
