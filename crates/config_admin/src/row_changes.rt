//! Changes of the rows of configurations, each in the place of its PID.
ghost use Rattle.config_admin.specs.Configurations.{of_pid, with_configuration, without_pid};
ghost use Rattle.config_admin.specs.Orders.{AreByPid};
ghost use Rattle.config_admin.specs.Refusals.{IsRefusedBy, delete_refusal};
ghost use Rattle.config_admin.specs.declared.config_fault.ConfigFault.TheVariants.{NoConfiguration};
ghost use Rattle.config_admin.specs.Undoing.{overwritten, with_exchanged};
ghost use Rattle.std.specs.Prelude.{◌≡◌, ◌<◌, length, IfErr, IfOk, OnErr, OnOk, Some};

use crate::rows::place_of;
use crate::{ConfigFault, Configuration, Overwritten};
use prop_map::{Copies, OutOfMemory};
use row_places::RowRoom;
use std::alloc::Global;
use std::mem;

/// Puts a configuration in the place of the one of its PID, or where it belongs, and hands out what this overwrites.
pub(crate) fn put(
    alloc: Global,
    rows: &mut Vec<Configuration>,
    configuration: Configuration,
) -> Result<Overwritten, OutOfMemory>
    requires { AreByPid rows.old.items }
    ensures overwritten { IfOk result (λ before. before ≡ overwritten configuration.pid rows.old.items) }
    ensures ok { OnOk result (rows.new.items ≡ with_configuration configuration rows.old.items) }
    ensures err { OnErr result (rows.new.items ≡ rows.old.items) }
    ensures order { AreByPid rows.new.items }
{
    let pid = configuration.pid.copy(alloc)?;
    match place_of(rows.as_slice(), pid.as_str()) {
        Ok(place) => {
            let was = Some(mem::replace(&mut rows[place], configuration));
            Ok(Overwritten { pid, was })
        }
        Err(gap) => {
            rows.insert(gap, configuration)?;
            Ok(Overwritten { pid, was: None })
        }
    }
}

/// Puts a configuration in the place of the one of its PID. Where there is none nothing changes.
pub(crate) fn exchange(rows: &mut Vec<Configuration>, configuration: Configuration)
    requires { AreByPid rows.old.items }
    ensures now { rows.new.items ≡ with_exchanged configuration rows.old.items }
    ensures order { AreByPid rows.new.items }
{
    if let Ok(place) = place_of(rows.as_slice(), configuration.pid.as_str()) {
        rows[place] = configuration;
    }
}

/// Takes the configuration of a PID out.
pub(crate) fn take_out(
    rows: &mut Vec<Configuration>,
    pid: &str,
) -> Result<Configuration, ConfigFault>
    requires { AreByPid rows.old.items }
    ensures configuration { IfOk result (λ configuration. of_pid pid.now rows.old.items ≡ Some configuration) }
    ensures pid { IfOk result (λ configuration. configuration.pid ≡ pid.now) }
    ensures refused { IsRefusedBy (delete_refusal pid.now rows.old.items) result }
    ensures fault { IfErr result (λ fault. fault ≡ NoConfiguration) }
    ensures now { rows.new.items ≡ without_pid pid.now rows.old.items }
    ensures fewer { OnOk result (length rows.new.items < length rows.old.items) }
    ensures err { OnErr result (rows.new.items ≡ rows.old.items) }
    ensures order { AreByPid rows.new.items }
{
    match place_of(rows.as_slice(), pid) {
        Ok(place) => Ok(rows.remove(place)),
        Err(_) => Err(ConfigFault::NoConfiguration),
    }
}

/// Leaves the configuration of a PID out, if there is one.
pub(crate) fn leave_out(rows: &mut Vec<Configuration>, pid: &str)
    requires { AreByPid rows.old.items }
    ensures now { rows.new.items ≡ without_pid pid.now rows.old.items }
    ensures order { AreByPid rows.new.items }
{
    let _configuration = take_out(rows, pid);
}

/// Puts a configuration in the place of the one of its PID, or where it belongs, for which there is room.
pub(crate) fn put_into(
    rows: &mut Vec<Configuration>,
    configuration: Configuration,
    room: RowRoom<Configuration>,
)
    requires order { AreByPid rows.old.items }
    requires room { length rows.old.items < room }
    ensures now { rows.new.items ≡ with_configuration configuration rows.old.items }
    ensures order { AreByPid rows.new.items }
{
    match place_of(rows.as_slice(), configuration.pid.as_str()) {
        Ok(place) => rows[place] = configuration,
        Err(gap) => room.insert(rows, gap, configuration),
    }
}
