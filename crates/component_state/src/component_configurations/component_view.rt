//! A component configuration that there is to be.
ghost use Rattle.component_state.specs.ComponentConfigurations.{with_number};
ghost use Rattle.component_state.specs.ComponentRows.{component_row};
ghost use Rattle.component_state.specs.declared.component.Component.{Component};
ghost use Rattle.std.specs.Option.{option_copied};
ghost use Rattle.std.specs.Prelude.{◌≡◌, IfOk, None, true};

use crate::{Component, ComponentRow};
use component_dto::Description;
use prop_map::{Copies, OutOfMemory, Properties, Shared, Str, Value};
use std::alloc::{AllocError, Global};
use std::marker::Model;

/// A component configuration that there is to be, without its number. Contracts see a `Component` whose number is 0.
#[derive(Drop)]
pub struct ComponentView<'d> {
    bundle: u64,
    index: u64,
    pid: Option<&'d Str>,
    description: &'d Description,
    configured: bool,
    properties: Properties,
}

impl<'d> Model for ComponentView<'d> {
    ghost use Rattle.std.specs.Option.{option_copied};
    ghost use Rattle.std.specs.Prelude.{None, true};
    ghost use Rattle.component_state.specs.declared.component.Component.{Component};

    ghost Value = { Component };

    ghost view = { λ c. record { number = 0; bundle = c.bundle; index = c.index; pid = option_copied c.pid; exists = true; description = c.description.now; configured = c.configured; properties = c.properties; changed = None } };
}

impl<'d> ComponentView<'d> {
    /// A component configuration of a bundle's description, by its index, with the PID of the factory's configuration
    /// that names it, whether each of its PIDs has a configuration that counts, and its properties but for its number.
    pub(crate) fn of(
        bundle: u64,
        index: u64,
        pid: Option<&'d Str>,
        description: &'d Description,
        configured: bool,
        properties: Properties,
    ) -> ComponentView<'d>
        ensures { result ≡ record { number = 0; bundle = bundle; index = index; pid = option_copied pid.entry; exists = true; description = description.entry.now; configured = configured; properties = properties; changed = None } }
    {
        ComponentView {
            bundle,
            index,
            pid,
            description,
            configured,
            properties,
        }
    }

    /// The number of its bundle.
    pub fn bundle(&self) -> u64
        ensures { result ≡ self.now.bundle }
    {
        self.bundle
    }

    /// The index of its description in the bundle's document, from 0 on.
    pub fn index(&self) -> u64
        ensures { result ≡ self.now.index }
    {
        self.index
    }

    /// The PID of the factory's configuration that names it, if one does.
    pub fn pid(&self) -> Option<&Str>
        ensures { option_copied result ≡ self.now.pid }
    {
        self.pid
    }

    /// Each of its PIDs has a configuration that counts.
    pub fn is_configured(&self) -> bool
        ensures { result ≡ self.now.configured }
    {
        self.configured
    }

    /// Its properties, but for its number.
    pub fn properties(&self) -> &Properties
        ensures { result.now ≡ self.now.properties }
    {
        &self.properties
    }

    /// The same with a number.
    ///
    /// # Errors
    /// Only want of memory. That a number is none of 64 bits with a sign counts as such.
    pub(crate) fn numbered(&self, alloc: Global, number: u64) -> Result<Component, OutOfMemory>
        ensures { IfOk result (λ component. component ≡ record self.now { number = number; properties = with_number number self.now.properties }) }
    {
        let properties = with_number(alloc, number, &self.properties)?;
        let pid = pid_of(alloc, self.pid)?;
        let description = Shared::of(alloc, self.description.copy(alloc)?)?;
        Ok(Component {
            number,
            bundle: self.bundle,
            index: self.index,
            pid,
            exists: true,
            description,
            configured: self.configured,
            properties,
            changed: None,
        })
    }

    /// The same as a row.
    ///
    /// # Errors
    /// Only want of memory.
    pub(crate) fn row(&self, alloc: Global) -> Result<ComponentRow, OutOfMemory>
        ensures { IfOk result (λ row. row ≡ component_row self.now) }
    {
        let pid = pid_of(alloc, self.pid)?;
        Ok(ComponentRow {
            bundle: self.bundle,
            description: self.index as usize,
            pid,
            properties: self.properties.copy(alloc)?,
        })
    }
}

/// These properties with the number of a component configuration.
///
/// # Errors
/// Only want of memory. That a number is none of 64 bits with a sign counts as such.
pub(crate) fn with_number(
    alloc: Global,
    number: u64,
    properties: &Properties,
) -> Result<Properties, OutOfMemory>
    ensures { IfOk result (λ numbered. numbered ≡ with_number number properties.now) }
{
    let Ok(whole) = i64::try_from(number) else {
        return Err(AllocError);
    };
    let mut numbered = properties.copy(alloc)?;
    numbered.set(alloc, "component.id", Value::Whole(whole))?;
    Ok(numbered)
}

fn pid_of(alloc: Global, pid: Option<&Str>) -> Result<Option<Str>, OutOfMemory>
    ensures { IfOk result (λ copied. copied ≡ option_copied pid.entry) }
{
    match pid {
        Some(pid) => Ok(Some(pid.copy(alloc)?)),
        None => Ok(None),
    }
}
