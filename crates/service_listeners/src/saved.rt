//! A table as it was.
use std::alloc::Global;
use std::marker::Model;

/// The listeners as they were when they were saved: how many events each was told, and how many numbers were given.
#[derive(Drop)]
pub struct Saved {
    pub(crate) told: Vec<usize>,
    pub(crate) numbered: u64,
    // For empty lists, which take no memory.
    pub(crate) alloc: Global,
}

impl Model for Saved {
    ghost use Rattle.service_listeners.specs.Saves.{SavedListeners};

    ghost Value = { SavedListeners };

    ghost view = { λ s. record { told = s.told.items; numbered = s.numbered } };
}
