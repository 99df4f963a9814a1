//! The rows of configurations, each found by its PID.
ghost use Rattle.config_admin.specs.Configurations.{factory_pid, named_by, of_factory, of_pid, own_configuration};
ghost use Rattle.config_admin.specs.Orders.{AreByPid, pid_cmp};
ghost use Rattle.config_admin.specs.declared.configuration.Configuration.{Configuration};
ghost use Rattle.prop_map.specs.Words.{is_empty};
ghost use Rattle.row_places.specs.RowPlaces.{IsPlaceOrGap};
ghost use Rattle.std.specs.List.{list_any};
ghost use Rattle.std.specs.Option.{option_copied, option_map_or};
ghost use Rattle.std.specs.Prelude.{◌≡◌, ◌<◌, ◌≤◌, [], false, length, map, not, IfOk, MatchResult};
ghost use Rattle.std.specs.Str.{bytes_eq};

use crate::Configuration;
use crate::pids::is_factory_pid;
use prop_map::OutOfMemory;
use std::alloc::Global;

/// Where the configuration of a PID stands, or the gap where it would stand.
pub(crate) fn place_of(rows: &[Configuration], pid: &str) -> Result<usize, usize>
    requires { AreByPid rows.now }
    ensures place { IsPlaceOrGap (λ (c : Configuration). pid_cmp c (own_configuration pid.now [])) result rows.now }
    ensures within { MatchResult result (λ place. place < length rows.now) (λ gap. gap ≤ length rows.now) }
{
    rows.binary_search_by(|row| row.pid.as_str().cmp(pid))
}

/// The configuration of a PID.
pub(crate) fn of_pid<'r>(rows: &'r [Configuration], pid: &str) -> Option<&'r Configuration>
    requires { AreByPid rows.now }
    ensures { option_copied result ≡ of_pid pid.now rows.now }
{
    match place_of(rows, pid) {
        Ok(place) => Some(&rows[place]),
        Err(_) => None,
    }
}

fn is_of_factory(row: &Configuration, pid: &str) -> bool
    ensures { result ≡ option_map_or (bytes_eq pid.now) row.now.factory false }
{
    match &row.factory {
        Some(factory) => pid == factory.as_str(),
        None => false,
    }
}

/// Whether a factory has configurations.
pub(crate) fn has_factory(rows: &[Configuration], pid: &str) -> bool
    ensures { result ≡ not (is_empty (of_factory pid.now rows.now)) }
{
    any_of_factory(rows, pid)
}

fn any_of_factory(rows: &[Configuration], pid: &str) -> bool
    ensures { result ≡ list_any (λ (c : Configuration). option_map_or (bytes_eq pid.now) c.factory false) rows.now }
{
    rows.iter().any(|row| is_of_factory(row, pid))
}

/// Whether a factory has a configuration with a name. It takes no memory.
pub(crate) fn has_named(rows: &[Configuration], factory: &str, name: &str) -> bool
    ensures { result ≡ list_any (λ (c : Configuration). bytes_eq c.pid (factory_pid factory.now name.now)) rows.now }
{
    rows.iter()
        .any(|row| is_factory_pid(row.pid.as_str(), factory, name))
}

/// The configuration of a PID and those of a factory of this PID, in byte order.
pub(crate) fn named_by<'r>(
    alloc: Global,
    rows: &'r [Configuration],
    pid: &str,
) -> Result<Vec<&'r Configuration>, OutOfMemory>
    ensures { IfOk result (λ named. map (λ c. c.now) named.items ≡ named_by pid.now rows.now) }
{
    let mut named = Vec::new(alloc);
    for row in rows {
        if row.pid.as_str() == pid || is_of_factory(row, pid) {
            named.push(row)?;
        }
    }
    Ok(named)
}
