//! In which order places are looked at, so that each comes behind those that it leads to where there is such an order.

use prop_map::{List, OutOfMemory};
use std::alloc::Global;

// A walk along links from place to place.
#[derive(Drop)]
struct Walk {
    // Which places were entered.
    entered: Vec<bool>,
    // The places on the way to where the walk is, each with the number of its links that were tried.
    path: Vec<(usize, usize)>,
    // The places that were left for good, in the order in which that came.
    left: Vec<usize>,
}

/// All places, each behind those that it leads to, but for those that lie on a cycle. It enters each place and tries each
/// link once.
pub(crate) fn order_of(alloc: Global, links: &[List<usize>]) -> Result<Vec<usize>, OutOfMemory> {
    let mut walk = Walk {
        entered: vec![in alloc; false; links.len()]?,
        path: Vec::new(alloc),
        left: Vec::new(alloc),
    };
    let links_tried = link_count(links);
    for place in 0..links.len() {
        walk.enter(place)?;
        for _ in 0..links_tried.saturating_add(links.len()) {
            if walk.path.is_empty() {
                break;
            }
            walk.go_on(links)?;
        }
    }
    Ok(walk.left)
}

fn link_count(links: &[List<usize>]) -> usize {
    let mut count = 0usize;
    for list in links {
        count = count.saturating_add(list.as_slice().len());
    }
    count
}

impl Walk {
    // Enters a place that wasn't entered before.
    fn enter(&mut self, place: usize) -> Result<(), OutOfMemory> {
        if place < self.entered.len() && !self.entered[place] {
            self.entered[place] = true;
            self.path.push((place, 0))?;
        }
        Ok(())
    }

    // Tries one more link of the place where the walk is, or leaves the place.
    fn go_on(&mut self, links: &[List<usize>]) -> Result<(), OutOfMemory> {
        if let Some((place, tried)) = self.path.pop() {
            match link_at(links, place, tried) {
                Some(next) => {
                    self.path.push((place, tried.saturating_add(1)))?;
                    self.enter(next)?;
                }
                None => self.left.push(place)?,
            }
        }
        Ok(())
    }
}

fn link_at(links: &[List<usize>], place: usize, at: usize) -> Option<usize> {
    let list = links.get(place)?;
    list.as_slice().get(at).copied()
}
