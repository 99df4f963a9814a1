//! The table of gets.
ghost use Rattle.std.specs.Prelude.{◌≡◌, ◌<◌, ◌≤◌, ◌==◌, ◌+◌, ◌^◌, ℕ, [], List, Bool, filter, length, not, IfOk, OnErr, OnOk};
ghost use Rattle.use_counts.specs.Refusals.{AreUses, IsUngetRefused};
ghost use Rattle.use_counts.specs.Undoing.{with_rows};
ghost use Rattle.use_counts.specs.Uses.{after_get, after_unget, bundles_using, holder_count, is_use, use_count, without_service, without_uses_of};
ghost use Rattle.use_counts.specs.declared.uses.Holder.{Holder};
ghost use Rattle.use_counts.specs.declared.uses.UseRow.{UseRow};

use crate::changes::{add_get, take_get};
use crate::counting::{held_by, total};
use crate::rows::{
    bundles_using, leave_bundle, leave_service, row_of, rows_of_bundle, rows_of_service, use_of,
};
use crate::{Holder, KeptUses, NotUsing, Saved, UseRow};
use prop_map::{Copies, OutOfMemory};
use std::alloc::Global;
use std::marker::Model;

/// How often each bundle uses each service. Contracts see the rows, by service, then by bundle; each counts one get at least.
#[derive(Drop)]
pub struct UseCounts {
    rows: Vec<UseRow>,
}

impl Model for UseCounts {
    ghost use Rattle.std.specs.Prelude.{List};
    ghost use Rattle.use_counts.specs.Refusals.{AreUses};
    ghost use Rattle.use_counts.specs.declared.uses.UseRow.{UseRow};

    ghost Value = { List UseRow };

    ghost view = { λ u. u.rows.items };

    ghost invariant = { λ u. AreUses u.rows.items };
}

impl UseCounts {
    /// A table without gets.
    ///
    /// # Errors
    /// Only want of memory.
    pub fn new(alloc: Global) -> Result<UseCounts, OutOfMemory>
        ensures { IfOk result (λ uses. uses ≡ []) }
    {
        Ok(UseCounts {
            rows: Vec::new(alloc),
        })
    }

    /// The gets, by service, then by bundle.
    pub fn rows(&self) -> &[UseRow]
        ensures all { result.now ≡ self.now }
        ensures uses { AreUses self.now }
    {
        self.rows.as_slice()
    }

    /// Counts one get more of a bundle and a service, and answers how many these are with it. `unget` takes it back
    /// without memory.
    ///
    /// # Errors
    /// Only want of memory. The table is then as it was.
    pub fn get(&mut self, bundle: u64, service: u64, holder: Holder) -> Result<u32, OutOfMemory>
        requires { use_count bundle service self.old + 1 < 2 ^ 32 }
        ensures count { IfOk result (λ count. count ≡ use_count bundle service self.old + 1) }
        ensures ok { OnOk result (self.new ≡ after_get bundle service holder self.old) }
        ensures err { OnErr result (self.new ≡ self.old) }
    {
        add_get(&mut self.rows, bundle, service, holder)
    }

    /// Takes one get of a holder back, and answers how many gets of the bundle and the service are left. It takes no
    /// memory, so it undoes a `get` of this holder.
    ///
    /// # Errors
    /// `NotUsing` where the holder has none; the table is as it was.
    pub fn unget(&mut self, bundle: u64, service: u64, holder: Holder) -> Result<u32, NotUsing>
        ensures count { IfOk result (λ count. count + 1 ≡ use_count bundle service self.old) }
        ensures ok { OnOk result (self.new ≡ after_unget bundle service holder self.old) }
        ensures refused { IsUngetRefused bundle service holder self.old result }
        ensures err { OnErr result (self.new ≡ self.old) }
        ensures fewer { length self.new ≤ length self.old }
        ensures undone { OnOk result ((uses : List UseRow) → AreUses uses → self.old ≡ after_get bundle service holder uses → self.new ≡ uses) }
    {
        take_get(&mut self.rows, bundle, service, holder)
    }

    /// How many gets of a service a bundle has.
    pub fn count(&self, bundle: u64, service: u64) -> u32
        ensures { result ≡ use_count bundle service self.now }
    {
        total(&use_of(self.rows.as_slice(), bundle, service))
    }

    /// How many of them a holder has.
    pub fn count_of(&self, bundle: u64, service: u64, holder: Holder) -> u32
        ensures { result ≡ holder_count holder bundle service self.now }
    {
        held_by(holder, &use_of(self.rows.as_slice(), bundle, service))
    }

    /// The bundles that use a service, by number.
    ///
    /// # Errors
    /// Only want of memory.
    pub fn using_bundles(&self, alloc: Global, service: u64) -> Result<Vec<u64>, OutOfMemory>
        ensures { IfOk result (λ bundles. bundles.items ≡ bundles_using service self.now) }
    {
        bundles_using(alloc, self.rows.as_slice(), service)
    }

    /// Ends the gets of a service, as its leaving does. It takes no memory.
    pub fn release_service(&mut self, service: u64)
        ensures left { self.new ≡ without_service service self.old }
        ensures fewer { length self.new ≤ length self.old }
    {
        leave_service(&mut self.rows, service);
    }

    /// Ends the gets of a bundle, as its stop does. It takes no memory.
    pub fn release_bundle(&mut self, bundle: u64)
        ensures left { self.new ≡ without_uses_of bundle self.old }
        ensures fewer { length self.new ≤ length self.old }
    {
        leave_bundle(&mut self.rows, bundle);
    }

    /// The gets of a bundle and a service, to be kept before one of them ends that may have to be put back.
    ///
    /// # Errors
    /// Only want of memory.
    pub fn keep_use(
        &self,
        alloc: Global,
        bundle: u64,
        service: u64,
    ) -> Result<KeptUses, OutOfMemory>
        ensures uses { IfOk result (λ kept. kept.uses ≡ filter (is_use bundle service) self.now) }
        ensures room { IfOk result (λ kept. kept.room ≡ length self.now + length kept.uses) }
    {
        let uses = row_of(alloc, self.rows.as_slice(), bundle, service)?;
        KeptUses::of(alloc, uses, self.rows.len())
    }

    /// The gets of a service, to be kept before it leaves, where they may have to be put back.
    ///
    /// # Errors
    /// Only want of memory.
    pub fn keep_service(&self, alloc: Global, service: u64) -> Result<KeptUses, OutOfMemory>
        ensures uses { IfOk result (λ kept. kept.uses ≡ filter (λ (u : UseRow). u.service == service) self.now) }
        ensures room { IfOk result (λ kept. kept.room ≡ length self.now + length kept.uses) }
    {
        let uses = rows_of_service(alloc, self.rows.as_slice(), service)?;
        KeptUses::of(alloc, uses, self.rows.len())
    }

    /// The gets of a bundle, to be kept before it stops, where they may have to be put back.
    ///
    /// # Errors
    /// Only want of memory.
    pub fn keep_bundle(&self, alloc: Global, bundle: u64) -> Result<KeptUses, OutOfMemory>
        ensures uses { IfOk result (λ kept. kept.uses ≡ filter (λ (u : UseRow). u.bundle == bundle) self.now) }
        ensures room { IfOk result (λ kept. kept.room ≡ length self.now + length kept.uses) }
    {
        let uses = rows_of_bundle(alloc, self.rows.as_slice(), bundle)?;
        KeptUses::of(alloc, uses, self.rows.len())
    }

    /// Puts gets that were kept back, each row in the place of the one of its bundle and service. It takes no memory. It
    /// undoes an `unget`, a service's or a bundle's leaving, before which they were kept.
    pub fn put_back(&mut self, kept: KeptUses)
        requires room { length self.old + length kept.uses ≤ kept.room }
        ensures back { self.new ≡ with_rows kept.uses self.old }
        ensures unget { (uses : List UseRow) (bundle service : ℕ) (holder : Holder) →
            AreUses uses → kept.uses ≡ filter (is_use bundle service) uses →
            self.old ≡ after_unget bundle service holder uses → self.new ≡ uses }
        ensures undone { (uses : List UseRow) (ended : UseRow → Bool) →
            AreUses uses → kept.uses ≡ filter ended uses →
            self.old ≡ filter (λ (u : UseRow). not (ended u)) uses → self.new ≡ uses }
    {
        kept.put_into(&mut self.rows);
    }

    /// The table as it is, to go back to.
    ///
    /// # Errors
    /// Only want of memory.
    pub fn save(&self, alloc: Global) -> Result<Saved, OutOfMemory>
        ensures { IfOk result (λ saved. saved ≡ self.now) }
    {
        Ok(Saved::of(self.copy(alloc)?))
    }

    /// Leaves the table as it was when it was saved. It takes no memory.
    pub fn go_back(&mut self, saved: Saved)
        ensures { self.new ≡ saved }
    {
        *self = saved.table();
    }
}

impl Copies for UseCounts {
    fn copy(&self, alloc: Global) -> Result<UseCounts, OutOfMemory> {
        let rows = Vec::from_slice(alloc, self.rows.as_slice())?;
        Ok(UseCounts { rows })
    }
}
