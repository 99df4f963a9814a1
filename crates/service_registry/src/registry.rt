//! The table of services.
ghost use Rattle.service_registry.specs.Registries.{IsNumbered, IsRefusedBy, Registered, none_registered, refusal, registered, row_of, set_row, unregistered, with_numbers_given, with_properties};
ghost use Rattle.service_registry.specs.Services.{best_first, best_of, has_interface, ids};
ghost use Rattle.service_registry.specs.Undoing.{IsLeft, with_row, with_row_back};
ghost use Rattle.prop_map.specs.declared.properties.Property.{Property};
ghost use Rattle.service_registry.specs.declared.fault.RegistryFault.TheVariants.{OutOfMemory};
ghost use Rattle.service_registry.specs.declared.row.ServiceRow.{ServiceRow};
ghost use Rattle.std.specs.Option.{option_copied};
ghost use Rattle.std.specs.Prelude.{◌≡◌, ◌+◌, ◌++◌, ◌<◌, [], ◌∷◌, List, Some, None, filter, length, option_map, IfErr, IfOk, OnErr, OnOk};
ghost use Rattle.std.specs.Result.{result_err};

use crate::new_rows::{new_row, set_row};
use crate::places::{highest_number, own_place, place_of, place_or_gap};
use crate::search::{best_with, numbers_with};
use crate::{RegistryFault, Saved, ServiceRow};
use prop_map::{Copies, OutOfMemory, Properties, Str};
use row_places::RowRoom;
use std::alloc::{AllocError, Global};
use std::marker::Model;
use std::mem;

/// The services that are registered, and how many numbers were given. Numbers are given from 1 on, and none twice.
#[derive(Drop)]
pub struct Registry {
    rows: Vec<ServiceRow>,
    numbered: u64,
}

impl Model for Registry {
    ghost use Rattle.service_registry.specs.Registries.{IsNumbered, Registered};

    ghost Value = { Registered };

    ghost view = { λ r. record { rows = r.rows.items; numbered = r.numbered } };

    ghost invariant = { λ r. IsNumbered (record { rows = r.rows.items; numbered = r.numbered }) };
}

impl Registry {
    /// A table without services.
    ///
    /// # Errors
    /// Only want of memory.
    pub fn new(alloc: Global) -> Result<Registry, OutOfMemory>
        ensures { IfOk result (λ r. r ≡ none_registered) }
    {
        Ok(Registry {
            rows: Vec::new(alloc),
            numbered: 0,
        })
    }

    /// The services, by number.
    pub fn rows(&self) -> &[ServiceRow]
        ensures all { result.now ≡ self.now.rows }
        ensures numbered { IsNumbered self.now }
    {
        self.rows.as_slice()
    }

    /// How many numbers were given.
    pub fn numbered(&self) -> u64
        ensures { result ≡ self.now.numbered }
    {
        self.numbered
    }

    /// The service of a number.
    pub fn row(&self, service: u64) -> Option<&ServiceRow>
        ensures { option_copied result ≡ row_of self.now.rows service }
    {
        match place_of(self.rows.as_slice(), service) {
            Some(place) => Some(&self.rows[place]),
            None => None,
        }
    }

    /// The best of the services with an interface.
    pub fn best(&self, interface: &str) -> Option<&ServiceRow>
        ensures { option_copied result ≡ best_of (filter (has_interface interface.now) self.now.rows) }
    {
        best_with(self.rows.as_slice(), interface)
    }

    /// The numbers of the services with an interface, the best first.
    ///
    /// # Errors
    /// Only want of memory.
    pub fn find(&self, alloc: Global, interface: &str) -> Result<Vec<u64>, OutOfMemory>
        ensures { IfOk result (λ v. v.items ≡ ids (best_first (filter (has_interface interface.now) self.now.rows))) }
    {
        numbers_with(alloc, self.rows.as_slice(), interface)
    }

    /// Registers a service of a bundle under the next number, which it answers.
    ///
    /// # Errors
    /// Only want of memory, and the table is as it was: the number is given to another. That none is left counts as such.
    pub fn register(
        &mut self,
        alloc: Global,
        bundle: u64,
        interfaces: &[Str],
        scope: &str,
        properties: Properties,
        direct: bool,
    ) -> Result<u64, RegistryFault>
        ensures number { IfOk result (λ service. service ≡ self.old.numbered + 1) }
        ensures ok { OnOk result (self.new ≡ registered bundle interfaces.now scope.now properties direct self.old) }
        ensures fault { IfErr result (λ fault. fault ≡ OutOfMemory) }
        ensures err { OnErr result (self.new ≡ self.old) }
    {
        let service = self.numbered.checked_add(1).ok_or(AllocError)?;
        let row = new_row(
            alloc, service, bundle, interfaces, scope, properties, direct,
        )?;
        self.rows.push(row)?;
        self.numbered = service;
        Ok(service)
    }

    /// Unregisters a bundle's service, which it hands out. It takes no memory.
    ///
    /// # Errors
    /// `NoService` where no service of this number is registered, then `NotOwner` where it is another bundle's; the table
    /// is as it was.
    pub fn unregister(&mut self, bundle: u64, service: u64) -> Result<ServiceRow, RegistryFault>
        ensures refused { result_err result ≡ refusal bundle service self.old }
        ensures row { IfOk result (λ row. row_of self.old.rows service ≡ Some row) }
        ensures ok { OnOk result (self.new ≡ unregistered service self.old) }
        ensures err { OnErr result (self.new ≡ self.old) }
    {
        let place = own_place(self.rows.as_slice(), bundle, service)?;
        Ok(self.rows.remove(place))
    }

    /// Gives a bundle's service other properties, the platform's own over them, and raises its revision by one.
    ///
    /// # Errors
    /// `NoService` where no service of this number is registered, then `NotOwner` where it is another bundle's, and else
    /// just want of memory; the table is as it was.
    pub fn set_properties(
        &mut self,
        alloc: Global,
        bundle: u64,
        service: u64,
        properties: Properties,
    ) -> Result<(), RegistryFault>
        ensures refused { IsRefusedBy (refusal bundle service self.old) result }
        ensures ok { OnOk result (self.new ≡ with_properties service properties self.old) }
        ensures err { OnErr result (self.new ≡ self.old) }
    {
        let row = self.changed_row(alloc, bundle, service, properties)?;
        let _before = self.exchange(row);
        Ok(())
    }

    /// The row of a bundle's service with other properties, as `set_properties` makes it. The table stays as it is.
    ///
    /// # Errors
    /// As those of `set_properties`.
    pub fn changed_row(
        &self,
        alloc: Global,
        bundle: u64,
        service: u64,
        properties: Properties,
    ) -> Result<ServiceRow, RegistryFault>
        ensures refused { IsRefusedBy (refusal bundle service self.now) result }
        ensures row { IfOk result (λ row. option_map (set_row properties) (row_of self.now.rows service) ≡ Some row) }
        ensures number { IfOk result (λ row. row.id ≡ service) }
    {
        let place = own_place(self.rows.as_slice(), bundle, service)?;
        let row = set_row(alloc, &self.rows[place], properties)?;
        Ok(row)
    }

    /// Puts a row in the place of the one of its number, which it hands out; to put that in its place again undoes it.
    /// Where no row has the number nothing changes. It takes no memory.
    pub fn exchange(&mut self, row: ServiceRow) -> Option<ServiceRow>
        ensures was { result ≡ row_of self.old.rows row.id }
        ensures now { self.new ≡ with_row row self.old }
        ensures set { (given : List Property) → option_map (set_row given) (row_of self.old.rows row.id) ≡ Some row → self.new ≡ with_properties row.id given self.old }
        ensures undone { (before : Registered) (other : ServiceRow) → IsNumbered before → other.id ≡ row.id → row_of before.rows row.id ≡ Some row → self.old ≡ with_row other before → self.new ≡ before }
    {
        match place_of(self.rows.as_slice(), row.id) {
            Some(place) => Some(mem::replace(&mut self.rows[place], row)),
            None => None,
        }
    }

    /// Takes the registration that came last back, as if it had never come. It takes no memory.
    pub fn undo_register(&mut self) -> Option<ServiceRow>
        ensures taken { (before : Registered) (row : ServiceRow) → self.old ≡ record { rows = before.rows ++ row ∷ []; numbered = before.numbered + 1 } → (self.new ≡ before) × (result ≡ Some row) }
        ensures empty { self.old.rows ≡ [] → (self.new ≡ self.old) × (result ≡ None) }
    {
        let row = self.rows.pop()?;
        self.numbered = self.numbered.saturating_sub(1);
        Some(row)
    }

    /// Room for the rows that stand, to be taken before one is unregistered that may have to be put back.
    ///
    /// # Errors
    /// Only want of memory.
    pub fn room(&self, alloc: Global) -> Result<RowRoom<ServiceRow>, OutOfMemory>
        ensures { IfOk result (λ room. room ≡ length self.now.rows) }
    {
        RowRoom::of(alloc, self.rows.len())
    }

    /// Puts a row that was unregistered back at its place. It takes no memory. Where its number was never given, or a row
    /// has it, nothing changes.
    pub fn put_back(&mut self, row: ServiceRow, room: RowRoom<ServiceRow>)
        requires room { length self.old.rows < room }
        ensures back { self.new ≡ with_row_back row self.old }
        ensures undone { (before : Registered) → IsNumbered before → row_of before.rows row.id ≡ Some row → self.old ≡ unregistered row.id before → self.new ≡ before }
    {
        if self.numbered < row.id {
            return;
        }
        match place_or_gap(self.rows.as_slice(), row.id) {
            Ok(_) => {}
            Err(gap) => room.insert(&mut self.rows, gap, row),
        }
    }

    /// Gives the next numbers, so many, to services whose rows stand elsewhere, and answers how many were given before.
    /// It takes no memory.
    ///
    /// # Errors
    /// Only that so many aren't left, which counts as want of memory; the table is as it was.
    pub fn give(&mut self, count: u64) -> Result<u64, OutOfMemory>
        ensures before { IfOk result (λ before. before ≡ self.old.numbered) }
        ensures ok { OnOk result (self.new ≡ with_numbers_given count self.old) }
        ensures err { OnErr result (self.new ≡ self.old) }
    {
        let before = self.numbered;
        self.numbered = before.checked_add(count).ok_or(AllocError)?;
        Ok(before)
    }

    /// Takes so many numbers back that were given last, as if they had never been given. It takes no memory. The numbers
    /// of rows that stand stay given.
    pub fn give_back(&mut self, count: u64)
        ensures rows { self.new.rows ≡ self.old.rows }
        ensures left { IsLeft count self.old self.new.numbered }
        ensures undone { (before : Registered) → IsNumbered before → self.old ≡ with_numbers_given count before → self.new ≡ before }
    {
        let least = highest_number(self.rows.as_slice());
        self.numbered = self.numbered.saturating_sub(count).max(least);
    }

    /// The table as it is, to go back to.
    ///
    /// # Errors
    /// Only want of memory.
    pub fn save(&self, alloc: Global) -> Result<Saved, OutOfMemory>
        ensures { IfOk result (λ saved. saved ≡ self.now) }
    {
        Ok(Saved::of(self.copy(alloc)?))
    }

    /// Leaves the table as it was when it was saved. It takes no memory.
    pub fn go_back(&mut self, saved: Saved)
        ensures { self.new ≡ saved }
    {
        *self = saved.table();
    }
}

impl Copies for Registry {
    fn copy(&self, alloc: Global) -> Result<Registry, OutOfMemory> {
        let mut rows = Vec::new(alloc);
        for row in self.rows.as_slice() {
            rows.push(row.copy(alloc)?)?;
        }
        Ok(Registry {
            rows,
            numbered: self.numbered,
        })
    }
}
