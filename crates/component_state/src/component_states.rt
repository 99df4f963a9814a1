//! The component configurations of a platform by themselves (OSGi Compendium 8, chapter 112, "Satisfied").
ghost use Rattle.component_state.specs.ComponentStates.{HasFailed, nothing_known, state_of, state_in, with_active, with_begun, with_ceased};
ghost use Rattle.std.specs.Prelude.{◌≡◌, IfOk, OnErr, OnOk};

use crate::components::{existing_of, lacks_configuration};
use crate::instance_lives::{copied, has_active, set_active, without};
use crate::open_marks::mark;
use crate::periods::is_open;
use crate::{Choice, Component, LivingInstance, OpenPeriod, Origin, SavedStates};
use prop_map::{Copies, List, OutOfMemory, has};
use std::alloc::Global;
use std::marker::Model;

/// The component configurations with their numbers, open periods and marks, and the living instances.
#[derive(Drop)]
pub struct ComponentStates {
    pub(crate) passes: u64,
    pub(crate) numbered: u64,
    pub(crate) components: List<Component>,
    pub(crate) open_periods: List<OpenPeriod>,
    // Beside the open periods: whether a creation or activation ended without success since the last pass.
    pub(crate) marks: Vec<bool>,
    pub(crate) instances: Vec<LivingInstance>,
    pub(crate) satisfied: List<u64>,
    pub(crate) failed: Vec<u64>,
}

impl Model for ComponentStates {
    ghost use Rattle.component_state.specs.ComponentStates.{States};
    ghost use Rattle.component_state.specs.Inside.OpenMarks.{marked};
    ghost use Rattle.component_state.specs.Inside.Ready.{configurations_open};
    ghost use Rattle.component_state.specs.Inside.SoundStates.{AreSound};
    ghost use Rattle.std.specs.Prelude.{◌≡◌, length};

    ghost Value = { States };

    ghost view = { λ c. record {
      passes = c.passes;
      numbered = c.numbered;
      components = c.components;
      open_periods = c.open_periods;
      instances = c.instances.items;
      satisfied = c.satisfied;
      failed = c.failed.items;
      failing = marked (configurations_open c.open_periods) c.marks.items;
    } };

    ghost invariant = { λ c. (length c.marks.items ≡ length c.open_periods) × AreSound (record {
      passes = c.passes;
      numbered = c.numbered;
      components = c.components;
      open_periods = c.open_periods;
      instances = c.instances.items;
      satisfied = c.satisfied;
      failed = c.failed.items;
      failing = marked (configurations_open c.open_periods) c.marks.items;
    }) };
}

impl ComponentStates {
    /// Without component configurations, before the first pass. It takes no memory.
    pub fn new(alloc: Global) -> ComponentStates
        ensures { result ≡ nothing_known }
    {
        ComponentStates {
            passes: 0,
            numbered: 0,
            components: List::of(Vec::new(alloc)),
            open_periods: List::of(Vec::new(alloc)),
            marks: Vec::new(alloc),
            instances: Vec::new(alloc),
            satisfied: List::of(Vec::new(alloc)),
            failed: Vec::new(alloc),
        }
    }

    /// The Create of an instance of a component configuration begins, with what it chose for its static references.
    ///
    /// # Errors
    /// Only want of memory, and nothing has changed.
    pub fn began(
        &mut self,
        configuration: u64,
        instance: u64,
        chosen: Vec<Choice>,
    ) -> Result<(), OutOfMemory>
        ensures ok { OnOk result (self.new ≡ with_begun configuration instance chosen.items self.old) }
        ensures err { OnErr result (self.new ≡ self.old) }
    {
        let origin = Origin {
            configuration,
            created: self.passes,
            chosen: List::of(chosen),
        };
        self.instances.push(LivingInstance {
            number: instance,
            origin,
            active: false,
        })?;
        Ok(())
    }

    /// An instance becomes active, or ceases to be so. It takes no memory.
    pub fn set_active(&mut self, instance: u64, active: bool)
        ensures { self.new ≡ with_active instance active self.old }
    {
        set_active(&mut self.instances, instance, active);
    }

    /// A creation or activation of a component configuration ended without success. That counts in the next pass, where
    /// the component configuration is still open; where another reason closed it, it doesn't. It takes no memory.
    pub fn failed(&mut self, configuration: u64)
        ensures { HasFailed configuration self.old self.new }
    {
        mark(self.open_periods.as_slice(), &mut self.marks, configuration);
    }

    /// An instance ceases. It takes no memory.
    pub fn ceased(&mut self, instance: u64)
        ensures { self.new ≡ with_ceased instance self.old }
    {
        without(&mut self.instances, instance);
    }

    /// The state of a component configuration, as it is since the last pass: 1 where it lacks the configuration that
    /// its policy asks for, 2 where it isn't satisfied, 16 where it failed, 8 where it is open with an active instance,
    /// else 4. None where there is no such component configuration, or it has ceased.
    pub fn state_of(&self, configuration: u64) -> Option<u8>
        ensures { result ≡ state_of self.now configuration }
    {
        match existing_of(self.components.as_slice(), configuration) {
            Some(component) => Some(self.state_in(component)),
            None => None,
        }
    }

    /// Everything as it is, to go back to.
    ///
    /// # Errors
    /// Only want of memory.
    pub fn save(&self, alloc: Global) -> Result<SavedStates, OutOfMemory>
        ensures { IfOk result (λ saved. saved ≡ self.now) }
    {
        Ok(SavedStates::of(self.copy(alloc)?))
    }

    /// Leaves everything as it was when it was saved. It takes no memory.
    pub fn go_back(&mut self, saved: SavedStates)
        ensures { self.new ≡ saved }
    {
        *self = saved.states();
    }

    fn state_in(&self, component: &Component) -> u8
        ensures { result ≡ state_in self.now component.now }
    {
        let number = component.number;
        if lacks_configuration(component) {
            1
        } else if !has(self.satisfied.as_slice(), number) {
            2
        } else if has(self.failed.as_slice(), number) {
            16
        } else if is_open(self.open_periods.as_slice(), number)
            && has_active(self.instances.as_slice(), number)
        {
            8
        } else {
            4
        }
    }
}

impl Copies for ComponentStates {
    fn copy(&self, alloc: Global) -> Result<ComponentStates, OutOfMemory> {
        let components = self.components.copy(alloc)?;
        let open_periods = self.open_periods.copy(alloc)?;
        let marks = Vec::from_slice(alloc, self.marks.as_slice())?;
        let instances = copied(alloc, self.instances.as_slice())?;
        let satisfied = List::of(Vec::from_slice(alloc, self.satisfied.as_slice())?);
        let failed = Vec::from_slice(alloc, self.failed.as_slice())?;
        Ok(ComponentStates {
            passes: self.passes,
            numbered: self.numbered,
            components,
            open_periods,
            marks,
            instances,
            satisfied,
            failed,
        })
    }
}
