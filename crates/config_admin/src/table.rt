//! The table of configurations.
ghost use Rattle.config_admin.specs.Configurations.{factory_configuration, factory_pid, named_by, of_factory, of_pid, own_configuration, with_configuration, without_pid};
ghost use Rattle.config_admin.specs.Orders.{AreByPid};
ghost use Rattle.config_admin.specs.Undoing.{overwritten, with_earlier};
ghost use Rattle.config_admin.specs.Refusals.{IsRefusedBy, delete_refusal, set_factory_refusal, set_refusal};
ghost use Rattle.config_admin.specs.declared.config_fault.ConfigFault.TheVariants.{NoConfiguration};
ghost use Rattle.config_admin.specs.declared.configuration.Configuration.{Configuration};
ghost use Rattle.std.specs.Option.{option_copied};
ghost use Rattle.config_admin.specs.declared.overwritten.Overwritten.{Overwritten};
ghost use Rattle.std.specs.Prelude.{◌≡◌, ◌<◌, [], List, Some, length, map, IfErr, IfOk, OnErr, OnOk};

use crate::configuration::{factory_configuration, own_configuration};
use crate::refusals::{set_factory_refusal, set_refusal};
use crate::row_changes::{exchange, leave_out, put, put_into, take_out};
use crate::rows::{named_by, of_pid};
use crate::{ConfigFault, Configuration, Overwritten, Saved};
use prop_map::{Copies, OutOfMemory, Properties};
use row_places::RowRoom;
use std::alloc::Global;
use std::marker::Model;

/// The configurations. Contracts see them in byte order of their PIDs, one for each PID.
#[derive(Drop)]
pub struct Configurations {
    rows: Vec<Configuration>,
}

impl Model for Configurations {
    ghost use Rattle.std.specs.Prelude.{List};
    ghost use Rattle.config_admin.specs.Orders.{AreByPid};
    ghost use Rattle.config_admin.specs.declared.configuration.Configuration.{Configuration};

    ghost Value = { List Configuration };

    ghost view = { λ c. c.rows.items };

    ghost invariant = { λ c. AreByPid c.rows.items };
}

impl Configurations {
    /// A table without configurations.
    ///
    /// # Errors
    /// Only want of memory.
    pub fn new(alloc: Global) -> Result<Configurations, OutOfMemory>
        ensures { IfOk result (λ configurations. configurations ≡ []) }
    {
        Ok(Configurations {
            rows: Vec::new(alloc),
        })
    }

    /// The configurations, in byte order of their PIDs.
    pub fn rows(&self) -> &[Configuration]
        ensures all { result.now ≡ self.now }
        ensures order { AreByPid self.now }
    {
        self.rows.as_slice()
    }

    /// The configuration of a PID.
    pub fn of_pid(&self, pid: &str) -> Option<&Configuration>
        ensures { option_copied result ≡ of_pid pid.now self.now }
    {
        of_pid(self.rows.as_slice(), pid)
    }

    /// What a PID names: its configuration, and those of a factory of this PID, in byte order of their PIDs.
    ///
    /// # Errors
    /// Only want of memory.
    pub fn of(&self, alloc: Global, pid: &str) -> Result<Vec<&Configuration>, OutOfMemory>
        ensures { IfOk result (λ named. map (λ c. c.now) named.items ≡ named_by pid.now self.now) }
    {
        named_by(alloc, self.rows.as_slice(), pid)
    }

    /// Why the configuration of a PID can't be set, if so. It takes no memory.
    pub fn refusal_of_set(&self, pid: &str) -> Option<ConfigFault>
        ensures { result ≡ set_refusal pid.now self.now }
    {
        set_refusal(self.rows.as_slice(), pid)
    }

    /// Why the configuration of a factory with a name can't be set, if so. It takes no memory.
    pub fn refusal_of_set_factory(&self, factory: &str, name: &str) -> Option<ConfigFault>
        ensures { result ≡ set_factory_refusal factory.now name.now self.now }
    {
        set_factory_refusal(self.rows.as_slice(), factory, name)
    }

    /// Sets the configuration of a PID. It holds the properties that are given, and the PID itself at `service.pid`.
    ///
    /// # Errors
    /// `BadPid` where the PID isn't one or more of letters, digits, `.`, `_` and `-`, `FactoryClash` where it is the PID of
    /// a factory that has configurations, then `ConfigurationsFull` where it would be the 1,025th.
    pub fn set(
        &mut self,
        alloc: Global,
        pid: &str,
        properties: Properties,
    ) -> Result<(), ConfigFault>
        ensures ok { OnOk result (self.new ≡ with_configuration (own_configuration pid.now properties) self.old) }
        ensures refused { IsRefusedBy (set_refusal pid.now self.old) result }
        ensures err { OnErr result (self.new ≡ self.old) }
    {
        let _overwritten = self.overwrite(alloc, pid, properties)?;
        Ok(())
    }

    /// Sets the configuration of a PID as `set` does, and hands out what this overwrites. To `restore` that undoes it.
    ///
    /// # Errors
    /// As those of `set`.
    pub fn overwrite(
        &mut self,
        alloc: Global,
        pid: &str,
        properties: Properties,
    ) -> Result<Overwritten, ConfigFault>
        ensures overwritten { IfOk result (λ before. before ≡ overwritten pid.now self.old) }
        ensures ok { OnOk result (self.new ≡ with_configuration (own_configuration pid.now properties) self.old) }
        ensures refused { IsRefusedBy (set_refusal pid.now self.old) result }
        ensures err { OnErr result (self.new ≡ self.old) }
    {
        match set_refusal(self.rows.as_slice(), pid) {
            Some(fault) => Err(fault),
            None => {
                let configuration = own_configuration(alloc, pid, properties)?;
                let before = put(alloc, &mut self.rows, configuration)?;
                Ok(before)
            }
        }
    }

    /// Sets the configuration of a factory with a name, whose PID is that of the factory, `~` and the name. It holds the
    /// properties that are given, its PID at `service.pid`, and the factory's at `service.factoryPid`.
    ///
    /// # Errors
    /// `BadPid` where the factory's PID or the name isn't one or more of letters, digits, `.`, `_` and `-`, `FactoryClash`
    /// where the factory's PID has a configuration of its own, then `ConfigurationsFull` where it would be the 1,025th.
    pub fn set_factory(
        &mut self,
        alloc: Global,
        factory: &str,
        name: &str,
        properties: Properties,
    ) -> Result<(), ConfigFault>
        ensures ok { OnOk result (self.new ≡ with_configuration (factory_configuration factory.now name.now properties) self.old) }
        ensures refused { IsRefusedBy (set_factory_refusal factory.now name.now self.old) result }
        ensures err { OnErr result (self.new ≡ self.old) }
    {
        let _overwritten = self.overwrite_factory(alloc, factory, name, properties)?;
        Ok(())
    }

    /// Sets the configuration of a factory with a name as `set_factory` does, and hands out what this overwrites. To
    /// `restore` that undoes it.
    ///
    /// # Errors
    /// As those of `set_factory`.
    pub fn overwrite_factory(
        &mut self,
        alloc: Global,
        factory: &str,
        name: &str,
        properties: Properties,
    ) -> Result<Overwritten, ConfigFault>
        ensures overwritten { IfOk result (λ before. before ≡ overwritten (factory_pid factory.now name.now) self.old) }
        ensures ok { OnOk result (self.new ≡ with_configuration (factory_configuration factory.now name.now properties) self.old) }
        ensures refused { IsRefusedBy (set_factory_refusal factory.now name.now self.old) result }
        ensures err { OnErr result (self.new ≡ self.old) }
    {
        match set_factory_refusal(self.rows.as_slice(), factory, name) {
            Some(fault) => Err(fault),
            None => {
                let configuration = factory_configuration(alloc, factory, name, properties)?;
                let before = put(alloc, &mut self.rows, configuration)?;
                Ok(before)
            }
        }
    }

    /// Gives a PID what it had before a set: its configuration in the place of the present one, or none. Where it had one
    /// and has none now nothing changes. It takes no memory.
    pub fn restore(&mut self, before: Overwritten)
        ensures earlier { self.new ≡ with_earlier before.pid before.was self.old }
        ensures undone { (configurations : List Configuration) (set : Configuration) →
            AreByPid configurations → before ≡ overwritten set.pid configurations →
            self.old ≡ with_configuration set configurations → self.new ≡ configurations }
    {
        let Overwritten { pid, was } = before;
        match was {
            Some(configuration) => exchange(&mut self.rows, configuration),
            None => leave_out(&mut self.rows, pid.as_str()),
        }
    }

    /// Deletes the configuration of a PID, also of one that a factory's configuration has. It takes no memory.
    ///
    /// # Errors
    /// `NoConfiguration` where it has none.
    pub fn delete(&mut self, pid: &str) -> Result<(), ConfigFault>
        ensures ok { OnOk result (self.new ≡ without_pid pid.now self.old) }
        ensures refused { IsRefusedBy (delete_refusal pid.now self.old) result }
        ensures fault { IfErr result (λ fault. fault ≡ NoConfiguration) }
        ensures err { OnErr result (self.new ≡ self.old) }
    {
        let _configuration = self.remove(pid)?;
        Ok(())
    }

    /// Deletes the configuration of a PID as `delete` does, and hands it out. To `put_back` it undoes that. It takes no
    /// memory.
    ///
    /// # Errors
    /// As those of `delete`.
    pub fn remove(&mut self, pid: &str) -> Result<Configuration, ConfigFault>
        ensures configuration { IfOk result (λ configuration. of_pid pid.now self.old ≡ Some configuration) }
        ensures pid { IfOk result (λ configuration. configuration.pid ≡ pid.now) }
        ensures ok { OnOk result (self.new ≡ without_pid pid.now self.old) }
        ensures refused { IsRefusedBy (delete_refusal pid.now self.old) result }
        ensures fault { IfErr result (λ fault. fault ≡ NoConfiguration) }
        ensures fewer { OnOk result (length self.new < length self.old) }
        ensures err { OnErr result (self.new ≡ self.old) }
    {
        take_out(&mut self.rows, pid)
    }

    /// Room for the configurations that stand, to be taken before one is removed that may have to be put back.
    ///
    /// # Errors
    /// Only want of memory.
    pub fn room(&self, alloc: Global) -> Result<RowRoom<Configuration>, OutOfMemory>
        ensures { IfOk result (λ room. room ≡ length self.now) }
    {
        RowRoom::of(alloc, self.rows.len())
    }

    /// Puts a configuration that was removed back at its place. It takes no memory.
    pub fn put_back(&mut self, configuration: Configuration, room: RowRoom<Configuration>)
        requires room { length self.old < room }
        ensures back { self.new ≡ with_configuration configuration self.old }
        ensures undone { (configurations : List Configuration) →
            AreByPid configurations → of_pid configuration.pid configurations ≡ Some configuration →
            self.old ≡ without_pid configuration.pid configurations → self.new ≡ configurations }
    {
        put_into(&mut self.rows, configuration, room);
    }

    /// The table as it is, to go back to.
    ///
    /// # Errors
    /// Only want of memory.
    pub fn save(&self, alloc: Global) -> Result<Saved, OutOfMemory>
        ensures { IfOk result (λ saved. saved ≡ self.now) }
    {
        Ok(Saved::of(self.copy(alloc)?))
    }

    /// Leaves the table as it was when it was saved. It takes no memory.
    pub fn go_back(&mut self, saved: Saved)
        ensures { self.new ≡ saved }
    {
        *self = saved.table();
    }
}

impl Copies for Configurations {
    fn copy(&self, alloc: Global) -> Result<Configurations, OutOfMemory> {
        let held = self.rows.as_slice();
        let mut rows = Vec::new(alloc);
        for row in held {
            rows.push(row.copy(alloc)?)?;
        }
        Ok(Configurations { rows })
    }
}
