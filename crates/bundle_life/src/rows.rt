//! The rows of bundles: each is found by its number, and changes in place.
ghost use Rattle.bundle_life.specs.Lives.{bundle_at, bundle_of, in_state, is_active, is_stopping, namesake, new_row, renamed, state_is};
ghost use Rattle.bundle_life.specs.Numbers.{AreNumbered, AreRising, IsGiven, NumberedRows, has_number, stops, without_number};
ghost use Rattle.bundle_life.specs.Undoing.{owing, with_row};
ghost use Rattle.bundle_life.specs.declared.bundle.BundleLife.{BundleLife};
ghost use Rattle.row_places.specs.RowPlaces.{IsOnlyPlace, IsPlaceOrGap};
ghost use Rattle.std.specs.List.{count_by};
ghost use Rattle.std.specs.Option.{option_copied};
ghost use Rattle.std.specs.Ordering.{nat_cmp};
ghost use Rattle.std.specs.Prelude.{◌≡◌, ◌<◌, ◌≤◌, ◌+◌, ◌++◌, ℕ, [], ◌∷◌, length, map, IfOk, IsFalse, IsTrue, IfSome, MatchResult, None, OnErr, OnOk, Some};

use crate::{BundleLife, BundleState};
use osgi_version::Version;
use prop_map::{Copies, OutOfMemory, Str};
use row_places::RowRoom;
use std::alloc::{AllocError, Global};
use std::marker::Model;

/// The rows by number, and how many numbers were given.
#[derive(Drop)]
pub(crate) struct BundleRows {
    list: Vec<BundleLife>,
    numbered: u64,
}

impl Model for BundleRows {
    ghost use Rattle.bundle_life.specs.Numbers.{NumberedRows, AreNumbered};

    ghost Value = { NumberedRows };

    ghost view = { λ r. record { rows = r.list.items; numbered = r.numbered } };

    ghost invariant = { λ r. AreNumbered r.numbered r.list.items };
}

impl BundleRows {
    /// No row, and no number given.
    pub(crate) fn new(alloc: Global) -> BundleRows
        ensures { result ≡ record { rows = []; numbered = 0 } }
    {
        BundleRows {
            list: Vec::new(alloc),
            numbered: 0,
        }
    }

    /// The rows.
    pub(crate) fn as_slice(&self) -> &[BundleLife]
        ensures { result.now ≡ self.now.rows }
    {
        self.list.as_slice()
    }

    /// How many rows there are.
    pub(crate) fn count(&self) -> usize
        ensures length { result ≡ length self.now.rows }
        ensures numbered { AreNumbered self.now.numbered self.now.rows }
    {
        self.list.len()
    }

    /// The bundle of a number.
    pub(crate) fn find(&self, number: u64) -> Option<&BundleLife>
        ensures { option_copied result ≡ bundle_of self.now.rows number }
    {
        match place_of(self.list.as_slice(), number) {
            Some(place) => Some(&self.list[place]),
            None => None,
        }
    }

    /// How many numbers were given.
    pub(crate) fn numbered(&self) -> u64
        ensures { result ≡ self.now.numbered }
    {
        self.numbered
    }

    /// The number that comes next.
    ///
    /// # Errors
    /// Where none is left.
    pub(crate) fn next_number(&self) -> Result<u64, OutOfMemory>
        ensures { IfOk result (λ number. number ≡ self.now.numbered + 1) }
    {
        self.numbered.checked_add(1).ok_or(AllocError)
    }

    /// Adds an INSTALLED bundle under the next number.
    ///
    /// # Errors
    /// Only want of memory, or that no number is left.
    pub(crate) fn add(
        &mut self,
        location: Str,
        name: Str,
        version: Version,
    ) -> Result<(), OutOfMemory>
        ensures ok { OnOk result (self.new ≡ record { rows = self.old.rows ++ new_row (self.old.numbered + 1) location name version ∷ []; numbered = self.old.numbered + 1 }) }
        ensures err { OnErr result (self.new ≡ self.old) }
        ensures stopping { count_by stops self.new.rows ≡ count_by stops self.old.rows }
    {
        let number = self.next_number()?;
        self.list.reserve(1)?;
        self.list.push_reserved(BundleLife {
            number,
            location,
            name,
            version,
            state: BundleState::Installed,
        });
        self.numbered = number;
        Ok(())
    }

    /// Takes the last row away, and its number, as if it had never come. One that is STOPPING stays. It takes no memory.
    pub(crate) fn take_back(&mut self) -> Option<BundleLife>
        ensures taken { (before : NumberedRows) (row : BundleLife) → self.old ≡ record { rows = before.rows ++ row ∷ []; numbered = before.numbered + 1 } → IsFalse (stops row) → (self.new ≡ before) × (result ≡ Some row) }
        ensures empty { self.old.rows ≡ [] → (self.new ≡ self.old) × (result ≡ None) }
        ensures kept { result ≡ None → self.new ≡ self.old }
        ensures parts { IfSome result (λ row. (self.old.rows ≡ self.new.rows ++ row ∷ []) × (self.old.numbered ≡ self.new.numbered + 1)) }
        ensures stopping { count_by stops self.new.rows ≡ count_by stops self.old.rows }
    {
        if self.list.as_slice().last()?.state == BundleState::Stopping {
            return None;
        }
        let row = self.list.pop()?;
        self.numbered -= 1;
        Some(row)
    }

    /// Gives the bundle of a number another state.
    pub(crate) fn set_state(&mut self, number: u64, state: BundleState)
        ensures rows { self.new ≡ record self.old { rows = map (in_state number state) self.old.rows } }
        ensures leaves { IsFalse (state_is is_stopping self.old.rows number) → IsFalse (is_stopping state) → count_by stops self.new.rows ≡ count_by stops self.old.rows }
        ensures begins { IsTrue (state_is is_active self.old.rows number) → IsTrue (is_stopping state) → count_by stops self.new.rows ≡ count_by stops self.old.rows + 1 }
        ensures completes { IsTrue (state_is is_stopping self.old.rows number) → IsFalse (is_stopping state) → count_by stops self.new.rows + 1 ≡ count_by stops self.old.rows }
    {
        if let Some(place) = place_of(self.list.as_slice(), number) {
            self.list[place].state = state;
        }
    }

    /// Gives the bundle of a number another symbolic name and version, and makes it INSTALLED.
    pub(crate) fn rename(&mut self, number: u64, name: Str, version: Version)
        ensures rows { self.new ≡ record self.old { rows = map (renamed number name version) self.old.rows } }
        ensures leaves { IsFalse (state_is is_stopping self.old.rows number) → count_by stops self.new.rows ≡ count_by stops self.old.rows }
    {
        if let Some(place) = place_of(self.list.as_slice(), number) {
            let row = &mut self.list[place];
            row.name = name;
            row.version = version;
            row.state = BundleState::Installed;
        }
    }

    /// Puts a row in the place of the one of its number, or where it belongs, for which there is room. It takes no memory.
    pub(crate) fn put_back(&mut self, row: BundleLife, room: RowRoom<BundleLife>)
        requires given { IsGiven self.old.numbered row }
        requires room { length (without_number row.number self.old.rows) < room }
        ensures rows { self.new ≡ record self.old { rows = with_row row self.old.rows } }
        ensures stopping { count_by stops self.new.rows + owing (state_is is_stopping self.old.rows row.number) ≡ count_by stops self.old.rows + owing (stops row) }
    {
        put_into(&mut self.list, row, room);
    }

    /// Takes the bundle of a number away.
    pub(crate) fn remove(&mut self, number: u64)
        ensures rows { self.new ≡ record self.old { rows = without_number number self.old.rows } }
        ensures leaves { IsFalse (state_is is_stopping self.old.rows number) → count_by stops self.new.rows ≡ count_by stops self.old.rows }
    {
        if let Some(place) = place_of(self.list.as_slice(), number) {
            let _row = self.list.remove(place);
        }
    }
}

impl Copies for BundleRows {
    fn copy(&self, alloc: Global) -> Result<BundleRows, OutOfMemory> {
        let rows = self.list.as_slice();
        let mut list = Vec::new(alloc);
        for row in rows {
            list.push(row.copy(alloc)?)?;
        }
        Ok(BundleRows {
            list,
            numbered: self.numbered,
        })
    }
}

/// The place of the bundle of a number.
fn place_of(rows: &[BundleLife], number: u64) -> Option<usize>
    requires { AreRising rows.now }
    ensures { IsOnlyPlace (has_number number) result rows.now }
{
    rows.binary_search_by(|bundle| bundle.number.cmp(&number))
        .ok()
}

/// The place of the bundle of a number, or the gap where it would stand.
fn place_or_gap(rows: &[BundleLife], number: u64) -> Result<usize, usize>
    requires { AreRising rows.now }
    ensures place { IsPlaceOrGap (λ (b : BundleLife). nat_cmp b.number number) result rows.now }
    ensures within { MatchResult result (λ place. place < length rows.now) (λ gap. gap ≤ length rows.now) }
{
    rows.binary_search_by(|bundle| bundle.number.cmp(&number))
}

// Puts a row in the place of the one of its number, or where it belongs, for which there is room.
fn put_into(rows: &mut Vec<BundleLife>, row: BundleLife, room: RowRoom<BundleLife>)
    requires order { AreRising rows.old.items }
    requires room { length (without_number row.number rows.old.items) < room }
    ensures now { rows.new.items ≡ with_row row rows.old.items }
    ensures numbered { (numbered : ℕ) → IsGiven numbered row → AreNumbered numbered rows.old.items → AreNumbered numbered rows.new.items }
    ensures stopping { count_by stops rows.new.items + owing (state_is is_stopping rows.old.items row.number) ≡ count_by stops rows.old.items + owing (stops row) }
{
    match place_or_gap(rows.as_slice(), row.number) {
        Ok(place) => rows[place] = row,
        Err(gap) => room.insert(rows, gap, row),
    }
}

/// The bundle of a location.
pub(crate) fn at_location<'r>(rows: &'r [BundleLife], location: &str) -> Option<&'r BundleLife>
    ensures { option_copied result ≡ bundle_at rows.now location.now }
{
    rows.iter()
        .find(|bundle| bundle.location.as_str() == location)
}

/// The first bundle but one that has this symbolic name and version.
pub(crate) fn namesake_of<'r>(
    rows: &'r [BundleLife],
    name: &str,
    version: &Version,
    but: u64,
) -> Option<&'r BundleLife>
    ensures { option_copied result ≡ namesake name.now version.now but rows.now }
{
    rows.iter().find(|bundle| bundle.number != but
        && bundle.name.as_str() == name
        && bundle.version == *version)
}
