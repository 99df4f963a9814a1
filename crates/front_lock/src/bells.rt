//! What a pass sleeps by while it waits for its turn.
use prop_map::OutOfMemory;
use std::alloc::Global;
use std::sync::Wait;
use std::thread;
use std::thread::Parker;

// At most 64 passes wait at a time, under tickets that follow one another. So no two of them share a bell.
const BELLS: u64 = 64;

/// A bell for each ticket that may be waited for. A bell that rings too early wakes the next one who sleeps by it.
#[derive(Drop)]
pub(crate) struct Bells {
    bells: Vec<Parker>,
}

impl Bells {
    pub(crate) fn new(alloc: Global) -> Result<Bells, OutOfMemory> {
        let mut bells = Vec::new(alloc);
        for _ in 0..BELLS {
            bells.push(Parker::new())?;
        }
        Ok(Bells { bells })
    }

    fn of(&self, ticket: u64) -> Option<&Parker> {
        self.bells.get((ticket % BELLS) as usize)
    }

    /// Sleeps until the ticket's bell rings. It may return earlier.
    pub(crate) fn sleep<R: Wait>(&self, rt: &R, ticket: u64) {
        match self.of(ticket) {
            Some(bell) => bell.park(rt),
            None => thread::yield_now(),
        }
    }

    /// Wakes the one who sleeps by the ticket's bell, or who will next.
    pub(crate) fn ring(&self, ticket: u64) {
        match self.of(ticket) {
            Some(bell) => bell.unpark(),
            None => {}
        }
    }
}
