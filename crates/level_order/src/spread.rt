//! One round of a search from place to place.
ghost use Rattle.std.specs.Prelude.{◌≡◌, ◌==◌, [], OnOk, get_or};
ghost use Rattle.std.specs.List.{list_any};
ghost use Rattle.level_order.specs.Links.{comes_from};
ghost use Rattle.level_order.specs.Spread.{AreMarked, IsKept};
ghost use Rattle.level_order.specs.Ways.{has};

use crate::links::places_at;
use prop_map::{List, OutOfMemory};

/// What a search has found so far.
#[derive(Drop)]
pub(crate) struct Search {
    /// For each description how many places a shortest way from it passes, where one is known.
    pub(crate) steps: Vec<Option<usize>>,
    /// Which places of interfaces were looked at.
    pub(crate) seen: Vec<bool>,
    /// The descriptions found in this round.
    pub(crate) found: Vec<usize>,
}

impl Search {
    /// Goes back from these descriptions to all that consume them and weren't found yet.
    pub(crate) fn spread(
        &mut self,
        back: &[List<usize>],
        from: &[usize],
        count: usize,
    ) -> Result<(), OutOfMemory>
        requires { IsKept back.now self.old.seen.items self.old.steps.items self.old.found.items count }
        ensures kept { OnOk result (IsKept back.now self.new.seen.items self.new.steps.items self.new.found.items count) }
        ensures marked { OnOk result (AreMarked count (λ place. list_any (λ to. comes_from back.now to place) from.now) self.old.steps.items self.new.steps.items) }
    {
        for &place in from {
            self.spread_from(back, places_at(back, place), count)?;
        }
        Ok(())
    }

    // Through these interfaces.
    fn spread_from(
        &mut self,
        back: &[List<usize>],
        interfaces: &[usize],
        count: usize,
    ) -> Result<(), OutOfMemory>
        requires { IsKept back.now self.old.seen.items self.old.steps.items self.old.found.items count }
        ensures kept { OnOk result (IsKept back.now self.new.seen.items self.new.steps.items self.new.found.items count) }
        ensures marked { OnOk result (AreMarked count (λ place. list_any (λ x. has (get_or back.now x []) place) interfaces.now) self.old.steps.items self.new.steps.items) }
    {
        for &interface in interfaces {
            self.spread_over(back, interface, count)?;
        }
        Ok(())
    }

    // One that was looked at before leads to no more.
    fn spread_over(
        &mut self,
        back: &[List<usize>],
        interface: usize,
        count: usize,
    ) -> Result<(), OutOfMemory>
        requires { IsKept back.now self.old.seen.items self.old.steps.items self.old.found.items count }
        ensures kept { OnOk result (IsKept back.now self.new.seen.items self.new.steps.items self.new.found.items count) }
        ensures marked { OnOk result (AreMarked count (λ place. has (get_or back.now interface []) place) self.old.steps.items self.new.steps.items) }
    {
        if interface < self.seen.len() && !self.seen[interface] {
            self.mark_all(back, places_at(back, interface), count)?;
            self.seen[interface] = true;
        }
        Ok(())
    }

    fn mark_all(
        &mut self,
        back: &[List<usize>],
        places: &[usize],
        count: usize,
    ) -> Result<(), OutOfMemory>
        requires { IsKept back.now self.old.seen.items self.old.steps.items self.old.found.items count }
        ensures kept { OnOk result (IsKept back.now self.new.seen.items self.new.steps.items self.new.found.items count) }
        ensures seen { OnOk result (self.new.seen.items ≡ self.old.seen.items) }
        ensures marked { OnOk result (AreMarked count (λ place. has places.now place) self.old.steps.items self.new.steps.items) }
    {
        for &place in places {
            self.mark(back, place, count)?;
        }
        Ok(())
    }

    // Of a place that was found before nothing changes.
    fn mark(&mut self, back: &[List<usize>], place: usize, count: usize) -> Result<(), OutOfMemory>
        requires { IsKept back.now self.old.seen.items self.old.steps.items self.old.found.items count }
        ensures kept { OnOk result (IsKept back.now self.new.seen.items self.new.steps.items self.new.found.items count) }
        ensures seen { OnOk result (self.new.seen.items ≡ self.old.seen.items) }
        ensures marked { OnOk result (AreMarked count (λ other. place == other) self.old.steps.items self.new.steps.items) }
    {
        if place < self.steps.len() && self.steps[place].is_none() {
            self.found.push(place)?;
            self.steps[place] = Some(count);
        }
        Ok(())
    }
}
