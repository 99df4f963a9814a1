//! When a configuration is refused.
ghost use Rattle.config_admin.specs.Configurations.{factory_pid};
ghost use Rattle.config_admin.specs.Orders.{AreByPid};
ghost use Rattle.config_admin.specs.Refusals.{is_full, set_factory_refusal, set_refusal};
ghost use Rattle.std.specs.Prelude.{◌≡◌};

use crate::pids::is_pid;
use crate::rows::{has_factory, has_named, of_pid};
use crate::{ConfigFault, Configuration};

/// The most configurations that there may be.
pub(crate) const LIMIT: usize = 1024;

/// Whether there is no room for a configuration of a PID.
pub(crate) fn is_full(rows: &[Configuration], pid: &str) -> bool
    requires { AreByPid rows.now }
    ensures { result ≡ is_full pid.now rows.now }
{
    of_pid(rows, pid).is_none() && rows.len() >= LIMIT
}

/// Why a PID's configuration can't be set, if so.
pub(crate) fn set_refusal(rows: &[Configuration], pid: &str) -> Option<ConfigFault>
    requires { AreByPid rows.now }
    ensures { result ≡ set_refusal pid.now rows.now }
{
    if !is_pid(pid) {
        return Some(ConfigFault::BadPid);
    }
    if has_factory(rows, pid) {
        return Some(ConfigFault::FactoryClash);
    }
    if is_full(rows, pid) {
        return Some(ConfigFault::ConfigurationsFull);
    }
    None
}

/// Why a factory's configuration with a name can't be set, if so. It takes no memory.
pub(crate) fn set_factory_refusal(
    rows: &[Configuration],
    factory: &str,
    name: &str,
) -> Option<ConfigFault>
    requires { AreByPid rows.now }
    ensures { result ≡ set_factory_refusal factory.now name.now rows.now }
{
    if !is_pid(factory) || !is_pid(name) {
        return Some(ConfigFault::BadPid);
    }
    if of_pid(rows, factory).is_some() {
        return Some(ConfigFault::FactoryClash);
    }
    if is_full_of_others(rows, factory, name) {
        return Some(ConfigFault::ConfigurationsFull);
    }
    None
}

// Whether there is no room for a factory's configuration with a name.
fn is_full_of_others(rows: &[Configuration], factory: &str, name: &str) -> bool
    ensures { result ≡ is_full (factory_pid factory.now name.now) rows.now }
{
    !has_named(rows, factory, name) && rows.len() >= LIMIT
}
