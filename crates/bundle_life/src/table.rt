//! The table of bundles.
ghost use Rattle.bundle_life.specs.Numbers.{saved_of, stops};
ghost use Rattle.bundle_life.specs.Lives.{BundleTable, after_install, after_uninstall, after_update, bundle_at, bundle_of, events_of, in_state, is_active, is_stopping, namesake, new_row, no_bundles, state_is, state_number, stop_completed, unresolving};
ghost use Rattle.bundle_life.specs.Refusals.{IsRefusedBy, install_answer, install_refusal, installed_once, no_bundle, start_refusal, started_once, stop_begun_once, stop_refusal, uninstall_refusal, update_refusal};
ghost use Rattle.bundle_life.specs.Undoing.{CanPutBack, IsKeptOf, IsStepped, IsUndoneBy, Kept, gone_back, is_install, last_of, with_kept};
ghost use Rattle.bundle_life.specs.declared.bundle.BundleEvent.{BundleEvent};
ghost use Rattle.bundle_life.specs.declared.bundle.BundleLife.{BundleLife};
ghost use Rattle.bundle_life.specs.declared.bundle.BundleState.TheVariants.{Active};
ghost use Rattle.bundle_life.specs.declared.life_fault.LifeFault.TheVariants.{OutOfMemory};
ghost use Rattle.std.specs.List.{count_by};
ghost use Rattle.std.specs.Option.{option_copied};
ghost use Rattle.std.specs.Prelude.{◌≡◌, ◌≢◌, ◌≤◌, ◌+◌, ◌++◌, [], ◌∷◌, ◌↔◌, ℕ, List, drop, length, map, option_map, IfErr, IfOk, IfSome, IsFalse, IsTrue, None, OnErr, OnOk, Some};
ghost use Rattle.osgi_version.specs.declared.version.Version.{Version};

use crate::events::BundleEvents;
use crate::kept::KeptBundle;
use crate::rows::{BundleRows, at_location, namesake_of};
use crate::{BundleEvent, BundleLife, BundleState, LifeFault, Saved};
use osgi_version::Version;
use prop_map::{Copies, OutOfMemory, Str};
use row_places::RowRoom;
use std::alloc::Global;
use std::marker::Model;

/// What an install answers.
#[derive(Clone, Copy, Debug, PartialEq, Eq)]
pub enum Installed {
    /// A bundle came, with this number.
    New(u64),
    /// The location is that of this bundle, and nothing changed.
    There(u64),
}

/// The installed bundles, and what happened to bundles.
#[derive(Drop)]
pub struct Bundles {
    rows: BundleRows,
    events: BundleEvents,
}

impl Model for Bundles {
    ghost use Rattle.bundle_life.specs.Numbers.{saved_of, stops};
    ghost use Rattle.bundle_life.specs.Lives.{BundleTable, BundleTable};
    ghost use Rattle.bundle_life.specs.Numbers.{stops};
    ghost use Rattle.std.specs.Prelude.{◌≡◌};
    ghost use Rattle.std.specs.List.{count_by};

    ghost Value = { BundleTable };

    ghost view = { λ b. record { rows = b.rows.rows; numbered = b.rows.numbered; events = b.events.events } };

    ghost invariant = { λ b. b.events.owed ≡ count_by stops b.rows.rows };
}

impl Bundles {
    /// A table without bundles.
    pub fn new(alloc: Global) -> Result<Bundles, OutOfMemory>
        ensures { IfOk result (λ bundles. bundles ≡ no_bundles) }
    {
        Ok(Bundles {
            rows: BundleRows::new(alloc),
            events: BundleEvents::new(alloc),
        })
    }

    /// The installed bundles, by number.
    pub fn rows(&self) -> &[BundleLife]
        ensures { result.now ≡ self.now.rows }
    {
        self.rows.as_slice()
    }

    /// The bundle of a number.
    pub fn bundle(&self, number: u64) -> Option<&BundleLife>
        ensures { option_copied result ≡ bundle_of self.now.rows number }
    {
        self.rows.find(number)
    }

    /// The bundle of a location.
    pub fn at_location(&self, location: &str) -> Option<&BundleLife>
        ensures { option_copied result ≡ bundle_at self.now.rows location.now }
    {
        at_location(self.rows.as_slice(), location)
    }

    /// The first bundle but one that has this symbolic name and version.
    pub fn namesake(&self, name: &str, version: &Version, but: u64) -> Option<&BundleLife>
        ensures { option_copied result ≡ namesake name.now version.now but self.now.rows }
    {
        namesake_of(self.rows.as_slice(), name, version, but)
    }

    /// Whether 128 bundles are installed.
    pub fn is_full(&self) -> bool
        ensures { IsTrue result ↔ (128 ≤ length self.now.rows) }
    {
        self.rows.as_slice().len() >= 128
    }

    /// How far a bundle is, if it is installed.
    pub fn state_of(&self, bundle: u64) -> Option<BundleState>
        ensures { result ≡ option_map (λ (b : BundleLife). b.state) (bundle_of self.now.rows bundle) }
    {
        self.bundle(bundle).map(|bundle| bundle.state)
    }

    /// The number of a bundle's state, if it is installed: INSTALLED 2, RESOLVED 4, STOPPING 16, ACTIVE 32.
    pub fn state(&self, bundle: u64) -> Option<u32>
        ensures { result ≡ option_map (λ (b : BundleLife). state_number b.state) (bundle_of self.now.rows bundle) }
    {
        self.bundle(bundle).map(|bundle| bundle.state.number())
    }

    /// Whether a bundle is STOPPING.
    pub fn is_stopping(&self, bundle: u64) -> bool
        ensures { result ≡ state_is is_stopping self.now.rows bundle }
    {
        match self.state_of(bundle) {
            Some(state) => state == BundleState::Stopping,
            None => false,
        }
    }

    /// The events behind the first `after`. It takes no memory.
    pub fn events(&self, after: u64) -> &[BundleEvent]
        ensures { result.now ≡ drop after self.now.events }
    {
        self.events.after(after)
    }

    /// How many numbers were given so far, also those of bundles that were uninstalled since.
    pub fn numbered(&self) -> u64
        ensures { result ≡ self.now.numbered }
    {
        self.rows.numbered()
    }

    /// Installs a bundle, or answers the one of its location.
    ///
    /// # Errors
    /// `SameName` where another bundle has this symbolic name and version, then `BundlesFull` where 128 are installed.
    pub fn install(
        &mut self,
        alloc: Global,
        location: &str,
        name: &str,
        version: &Version,
    ) -> Result<Installed, LifeFault>
        ensures answer { IfOk result (λ answer. answer ≡ install_answer location.now self.old) }
        ensures ok { OnOk result (self.new ≡ installed_once location.now name.now version.now self.old) }
        ensures refused { IsRefusedBy (install_refusal location.now name.now version.now self.old) result }
        ensures err { OnErr result (self.new ≡ self.old) }
    {
        if let Some(bundle) = self.at_location(location) {
            return Ok(Installed::There(bundle.number));
        }
        if let Some(bundle) = self.namesake(name, version, 0) {
            return Err(LifeFault::SameName {
                bundle: bundle.number,
            });
        }
        if self.is_full() {
            return Err(LifeFault::BundlesFull);
        }
        let number = self.add(alloc, location, name, version)?;
        Ok(Installed::New(number))
    }

    fn add(
        &mut self,
        alloc: Global,
        location: &str,
        name: &str,
        version: &Version,
    ) -> Result<u64, OutOfMemory>
        ensures number { IfOk result (λ number. number ≡ self.old.numbered + 1) }
        ensures ok { OnOk result (self.new ≡ after_install location.now name.now version.now self.old) }
        ensures err { OnErr result (self.new ≡ self.old) }
    {
        let number = self.rows.next_number()?;
        let location = Str::of(String::from_str(alloc, location)?);
        let name = Str::of(String::from_str(alloc, name)?);
        let version = version.copy(alloc)?;
        self.rows.add(location, name, version)?;
        match self.events.add(&[event(number, 1)], 0) {
            Ok(()) => Ok(number),
            Err(fault) => {
                let _row = self.rows.take_back();
                Err(fault)
            }
        }
    }

    /// Starts a bundle. It is ACTIVE at once; an ACTIVE bundle stays as it is.
    ///
    /// # Errors
    /// `NoBundle` where it isn't installed, then `StillStopping` where it is STOPPING.
    pub fn start(&mut self, bundle: u64) -> Result<(), LifeFault>
        ensures ok { OnOk result (self.new ≡ started_once bundle self.old) }
        ensures refused { IsRefusedBy (start_refusal bundle self.old) result }
        ensures err { OnErr result (self.new ≡ self.old) }
    {
        match self.state_of(bundle) {
            None => Err(LifeFault::NoBundle { bundle }),
            Some(BundleState::Active) => Ok(()),
            Some(BundleState::Stopping) => Err(LifeFault::StillStopping),
            Some(BundleState::Installed) => {
                self.activate(
                    bundle,
                    &[event(bundle, 32), event(bundle, 128), event(bundle, 2)],
                )?;
                Ok(())
            }
            Some(BundleState::Resolved) => {
                self.activate(bundle, &[event(bundle, 128), event(bundle, 2)])?;
                Ok(())
            }
        }
    }

    // Makes a bundle ACTIVE that isn't STOPPING, with these events.
    fn activate(&mut self, bundle: u64, events: &[BundleEvent]) -> Result<(), OutOfMemory>
        requires { IsFalse (state_is is_stopping self.old.rows bundle) }
        ensures ok { OnOk result (self.new ≡ record self.old { rows = map (in_state bundle Active) self.old.rows; events = self.old.events ++ events.now }) }
        ensures err { OnErr result (self.new ≡ self.old) }
    {
        self.events.add(events, 0)?;
        self.rows.set_state(bundle, BundleState::Active);
        Ok(())
    }

    /// Begins the stop of an ACTIVE bundle, which is STOPPING then. Any other stays as it is.
    ///
    /// # Errors
    /// `NoBundle` where it isn't installed.
    pub fn stop(&mut self, bundle: u64) -> Result<(), LifeFault>
        ensures ok { OnOk result (self.new ≡ stop_begun_once bundle self.old) }
        ensures refused { IsRefusedBy (stop_refusal bundle self.old) result }
        ensures err { OnErr result (self.new ≡ self.old) }
    {
        match self.state_of(bundle) {
            None => Err(LifeFault::NoBundle { bundle }),
            Some(BundleState::Active) => {
                self.events.add(&[event(bundle, 256)], 1)?;
                self.rows.set_state(bundle, BundleState::Stopping);
                Ok(())
            }
            Some(_) => Ok(()),
        }
    }

    /// Completes the stop of a bundle that is STOPPING, which is RESOLVED then. It takes no memory.
    pub fn stopped(&mut self, bundle: u64)
        requires { IsTrue (state_is is_stopping self.old.rows bundle) }
        ensures { self.new ≡ stop_completed (bundle ∷ []) self.old }
    {
        self.rows.set_state(bundle, BundleState::Resolved);
        self.events.add_owed(event(bundle, 4));
    }

    /// Updates a bundle, which is INSTALLED then and keeps its number and its location.
    ///
    /// # Errors
    /// `NoBundle` where it isn't installed, `WrongState` where it is ACTIVE, `StillStopping` where it is STOPPING, then
    /// `SameName` where another bundle has this symbolic name and version.
    pub fn update(
        &mut self,
        alloc: Global,
        bundle: u64,
        name: &str,
        version: &Version,
    ) -> Result<(), LifeFault>
        ensures ok { OnOk result (self.new ≡ after_update bundle name.now version.now self.old) }
        ensures refused { IsRefusedBy (update_refusal bundle name.now version.now self.old) result }
        ensures err { OnErr result (self.new ≡ self.old) }
    {
        self.check_idle(bundle)?;
        if let Some(other) = self.namesake(name, version, bundle) {
            return Err(LifeFault::SameName {
                bundle: other.number,
            });
        }
        let name = Str::of(String::from_str(alloc, name)?);
        let version = version.copy(alloc)?;
        self.add_unresolving(event(bundle, 8))?;
        self.rows.rename(bundle, name, version);
        Ok(())
    }

    /// Uninstalls a bundle. Its number isn't given again.
    ///
    /// # Errors
    /// `NoBundle` where it isn't installed, `WrongState` where it is ACTIVE, then `StillStopping` where it is STOPPING.
    pub fn uninstall(&mut self, bundle: u64) -> Result<(), LifeFault>
        ensures ok { OnOk result (self.new ≡ after_uninstall bundle self.old) }
        ensures refused { IsRefusedBy (uninstall_refusal bundle self.old) result }
        ensures err { OnErr result (self.new ≡ self.old) }
    {
        self.check_idle(bundle)?;
        self.add_unresolving(event(bundle, 16))?;
        self.rows.remove(bundle);
        Ok(())
    }

    /// Takes the install that came last back, as if the bundle had never come: its row, its number and its INSTALLED.
    /// Nothing changes where the last change was no install. It takes no memory.
    pub fn undo_install(&mut self) -> Option<BundleLife>
        ensures taken { (before : BundleTable) (location name : List ℕ) (version : Version) →
            self.old ≡ after_install location name version before →
            (self.new ≡ before) × (result ≡ Some (new_row (before.numbered + 1) location name version)) }
        ensures empty { self.old.rows ≡ [] → (self.new ≡ self.old) × (result ≡ None) }
        ensures installed { IfSome result (λ row. self.old ≡ after_install row.location row.name row.version self.new) }
        ensures none { result ≡ None → self.new ≡ self.old }
    {
        if !self.ends_in_install() {
            return None;
        }
        let row = self.rows.take_back()?;
        let events = self.events.length().saturating_sub(1);
        self.events.take_back(events, false, false);
        Some(row)
    }

    // Whether the row and the event that came last are those of an install.
    fn ends_in_install(&self) -> bool
        ensures { result ≡ is_install self.now.numbered (last_of self.now.rows) (last_of self.now.events) }
    {
        is_install(
            self.numbered(),
            self.rows.as_slice().last(),
            self.events.after(0).last(),
        )
    }

    /// A bundle as it is, to be kept before a step that may have to be undone, with room to put it back.
    ///
    /// # Errors
    /// `NoBundle` where it isn't installed, and else just want of memory.
    pub fn keep(&self, alloc: Global, bundle: u64) -> Result<KeptBundle, LifeFault>
        ensures number { IfOk result (λ kept. kept.row.number ≡ bundle) }
        ensures kept { IfOk result (λ kept. IsKeptOf kept self.now) }
        ensures refused { IsRefusedBy (no_bundle bundle self.now) result }
    {
        match self.bundle(bundle) {
            Some(row) => Ok(KeptBundle {
                row: row.copy(alloc)?,
                events: self.events.length(),
                room: RowRoom::of(alloc, self.rows.count())?,
            }),
            None => Err(LifeFault::NoBundle { bundle }),
        }
    }

    /// Puts a bundle back as it was kept, at its place, and takes the events that came since away. It takes no memory. It
    /// undoes a start, a stop, the end of a stop, an update or an uninstall of it, before which it was kept.
    pub fn put_back(&mut self, kept: KeptBundle)
        requires { CanPutBack kept self.old }
        ensures back { self.new ≡ with_kept kept self.old }
        ensures undone { (before : BundleTable) → IsKeptOf kept before → IsStepped kept.row.number before self.old → self.new ≡ before }
    {
        let KeptBundle { row, events, room } = kept;
        let owed = self.is_stopping(row.number);
        self.events
            .take_back(events, owed, row.state == BundleState::Stopping);
        self.rows.put_back(row, room);
    }

    /// For contracts alone: a bundle that was kept can be put back after each step of it, which that undoes.
    pub fn note_put_back()
        ensures start { (kept : Kept) (t : BundleTable) → IsKeptOf kept t → IsFalse (state_is is_stopping t.rows kept.row.number) → IsUndoneBy kept t (started_once kept.row.number t) }
        ensures stop { (kept : Kept) (t : BundleTable) → IsKeptOf kept t → IsUndoneBy kept t (stop_begun_once kept.row.number t) }
        ensures stopped { (kept : Kept) (t : BundleTable) → IsKeptOf kept t → IsUndoneBy kept t (stop_completed (kept.row.number ∷ []) t) }
        ensures update { (kept : Kept) (t : BundleTable) (name : List ℕ) (version : Version) → IsKeptOf kept t → IsFalse (state_is is_stopping t.rows kept.row.number) → IsUndoneBy kept t (after_update kept.row.number name version t) }
        ensures uninstall { (kept : Kept) (t : BundleTable) → IsKeptOf kept t → IsFalse (state_is is_stopping t.rows kept.row.number) → IsUndoneBy kept t (after_uninstall kept.row.number t) }
    {}

    /// The table as it is now, to go back to. Of the events it holds their number alone.
    ///
    /// # Errors
    /// Only want of memory.
    pub fn save(&self, alloc: Global) -> Result<Saved, OutOfMemory>
        ensures { IfOk result (λ saved. saved ≡ saved_of self.now) }
    {
        Ok(Saved {
            rows: self.rows.copy(alloc)?,
            owed: self.events.owed(),
            events: self.events.length(),
        })
    }

    /// Leaves the rows and the numbers that were saved, and of the events that stand the first, as many as there were. This
    /// is the table that was saved where it has only gained events since. It takes no memory.
    pub fn go_back(&mut self, saved: Saved)
        requires { saved.events + count_by stops saved.rows ≤ length self.old.events + count_by stops self.old.rows }
        ensures back { self.new ≡ gone_back saved self.old }
        ensures undone { (before : BundleTable) (more : List BundleEvent) → saved ≡ saved_of before → self.old.events ≡ before.events ++ more → self.new ≡ before }
    {
        let Saved { rows, owed, events } = saved;
        self.events.cut(events, owed);
        self.rows = rows;
    }

    // Whether a bundle is neither ACTIVE nor STOPPING.
    fn check_idle(&self, bundle: u64) -> Result<(), LifeFault>
        ensures refused { IsRefusedBy (uninstall_refusal bundle self.now) result }
        ensures plain { IfErr result (λ fault. fault ≢ OutOfMemory) }
        ensures rests { OnOk result (IsFalse (state_is is_stopping self.now.rows bundle)) }
    {
        match self.state_of(bundle) {
            None => Err(LifeFault::NoBundle { bundle }),
            Some(BundleState::Active) => Err(LifeFault::WrongState {
                state: BundleState::Active.number(),
            }),
            Some(BundleState::Stopping) => Err(LifeFault::StillStopping),
            Some(BundleState::Installed | BundleState::Resolved) => Ok(()),
        }
    }

    // Adds an event, and UNRESOLVED before it where its bundle is RESOLVED.
    fn add_unresolving(&mut self, last: BundleEvent) -> Result<(), OutOfMemory>
        ensures ok { OnOk result (self.new ≡ record self.old { events = self.old.events ++ (events_of last.bundle (unresolving last.bundle self.old.rows) ++ last ∷ []) }) }
        ensures err { OnErr result (self.new ≡ self.old) }
    {
        match self.state_of(last.bundle) {
            Some(BundleState::Resolved) => self.events.add(&[event(last.bundle, 64), last], 0),
            _ => self.events.add(&[last], 0),
        }
    }
}

// Whether this row and this event are those of an install, the last one of so many numbers.
fn is_install(numbered: u64, row: Option<&BundleLife>, event: Option<&BundleEvent>) -> bool
    ensures { result ≡ is_install numbered (option_copied row.entry) (option_copied event.entry) }
{
    match (row, event) {
        (Some(row), Some(event)) => {
            row.number == numbered
                && matches!(row.state, BundleState::Installed)
                && event.bundle == numbered
                && event.value == 1
        }
        _ => false,
    }
}

fn event(bundle: u64, value: u32) -> BundleEvent
    ensures { result ≡ record { value = value; bundle = bundle } }
{
    BundleEvent { value, bundle }
}
