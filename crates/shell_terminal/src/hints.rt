//! The hints to a line.

use prop_map::OutOfMemory;
use std::alloc::Global;

// How many are told of a line at most.
const MOST: usize = 8;

/// The hints to a line, in order.
#[derive(Drop)]
pub(crate) struct Hints {
    alloc: Global,
    texts: Vec<String>,
}

impl Hints {
    pub(crate) fn new(alloc: Global) -> Hints {
        Hints {
            alloc,
            texts: Vec::new(alloc),
        }
    }

    pub(crate) fn alloc(&self) -> Global {
        self.alloc
    }

    pub(crate) fn are_many(&self) -> bool {
        self.texts.len() >= MOST
    }

    pub(crate) fn tell(&mut self, hint: String) -> Result<(), OutOfMemory> {
        self.texts.push(hint)?;
        Ok(())
    }

    pub(crate) fn texts(&self) -> &[String] {
        self.texts.as_slice()
    }
}
