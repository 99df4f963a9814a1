//! What a core tells, by its journal.
ghost use Rattle.ldap_filter.specs.declared.filter.Filter.{Filter};
ghost use Rattle.kept_wirings.specs.KeptRows.{AreKept};
ghost use Rattle.scr_readers.specs.Events.{events_told, has_listener};
ghost use Rattle.scr_readers.specs.ComponentViews.{component_view};
ghost use Rattle.scr_world.specs.Calls.{next_drain, world_at};
ghost use Rattle.scr_world.specs.Dues.{due_in};
ghost use Rattle.scr_world.specs.Readers.{TellsHeld, bundle_events_after, bundle_lines, component_lines, found, service_lines};
ghost use Rattle.scr_world.specs.Steps.{history_of};
ghost use Rattle.scr_world.specs.TurnLines.{turns_above};
ghost use Rattle.scr_world.specs.TurnSteps.{work_under_way};
ghost use Rattle.scr_world.specs.declared.reply.CoreFault.TheVariants.{NoListener};
ghost use Rattle.std.specs.Prelude.{◌≡◌, false, is_some, true, IfErr, IfOk, OnOk};

use crate::Core;
use crate::turn_lines::copied;
use bundle_life::BundleEvent;
use journal_core::GateKey;
use kept_wirings::KeptWirings;
use ldap_filter::Filter;
use prop_map::{List, OutOfMemory};
use scr_readers::ComponentView;
use scr_world::{BundleLine, ComponentLine, Contents, CoreFault, HeldLine, TurnLine};
use service_listeners::ServiceEvent;
use service_registry::ServiceRow;
use std::alloc::Global;
use turn_work::TurnWork;

impl Core {
    /// The installed bundles with their states, by number.
    ///
    /// # Errors
    /// Only want of memory.
    pub fn bundle_rows(&self, alloc: Global) -> Result<List<BundleLine>, OutOfMemory>
        ensures { IfOk result (λ lines. lines ≡ bundle_lines (world_at self.now.journal)) }
    {
        scr_readers::bundle_lines(alloc, &self.state.world)
    }

    /// What each installed bundle holds, by number: its document among it. It takes no memory.
    pub fn documents(&self) -> &[Contents]
        ensures { result.now ≡ (world_at self.now.journal).documents }
    {
        self.state.world.documents.as_slice()
    }

    /// What the manifests of the installed bundles say of their needs and offers, by number, as it was read at the install or the
    /// last update of each. It takes no memory.
    pub fn wirings(&self) -> &KeptWirings
        ensures { AreKept (world_at self.now.journal).documents result.now }
    {
        &self.wirings
    }

    /// The registered services but for that of the platform, by number.
    ///
    /// # Errors
    /// Only want of memory.
    pub fn service_rows(&self, alloc: Global) -> Result<List<ServiceRow>, OutOfMemory>
        ensures { IfOk result (λ lines. lines ≡ service_lines (world_at self.now.journal)) }
    {
        scr_readers::service_lines(alloc, &self.state.world)
    }

    /// The component configurations that haven't ceased, by number, each with its state.
    ///
    /// # Errors
    /// Only want of memory.
    pub fn component_rows(&self, alloc: Global) -> Result<List<ComponentLine>, OutOfMemory>
        ensures { IfOk result (λ lines. lines ≡ component_lines (world_at self.now.journal)) }
    {
        scr_readers::component_lines(alloc, &self.state.world, self.state.satisfied.as_slice())
    }

    /// What there is to tell of the component configuration of a number: `None` exactly where there is none, or it has ceased.
    ///
    /// # Errors
    /// Only want of memory.
    pub fn component(
        &self,
        alloc: Global,
        configuration: u64,
    ) -> Result<Option<ComponentView>, OutOfMemory>
        ensures { IfOk result (λ view. view ≡ component_view (world_at self.now.journal) configuration) }
    {
        let satisfied = self.state.satisfied.as_slice();
        scr_readers::component(
            alloc,
            &self.own,
            &self.state.world,
            satisfied,
            configuration,
        )
    }

    /// The services that the living instances of a component configuration hold: by instance, then by reference, best first.
    ///
    /// # Errors
    /// `NoComponent` with the number as its name exactly where there is no such component configuration, or it has ceased.
    /// Otherwise only want of memory.
    pub fn held_rows(&self, alloc: Global, configuration: u64) -> Result<List<HeldLine>, CoreFault>
        ensures { TellsHeld (world_at self.now.journal) configuration result }
    {
        scr_readers::held_lines(alloc, &self.own, &self.state.world, configuration)
    }

    /// The numbers of the services that a filter matches, the best first. That of the platform isn't listed.
    ///
    /// # Errors
    /// Only want of memory.
    pub fn find(&self, alloc: Global, filter: &Filter) -> Result<Vec<u64>, OutOfMemory>
        ensures { IfOk result (λ v. v.items ≡ found (world_at self.now.journal) filter.now) }
    {
        scr_readers::find_services(alloc, &self.state.world, filter)
    }

    /// What a listener was told behind the first `after` events; nothing where there are no more. It takes no memory.
    ///
    /// # Errors
    /// `NoListener` exactly where there is no listener of this number.
    pub fn events(&self, listener: u64, after: u64) -> Result<&[ServiceEvent], CoreFault>
        ensures events { IfOk result (λ events. events.now ≡ events_told (world_at self.now.journal) listener after) }
        ensures known { OnOk result (has_listener (world_at self.now.journal) listener ≡ true) }
        ensures refused { IfErr result (λ fault. (fault ≡ NoListener listener) × (has_listener (world_at self.now.journal) listener ≡ false)) }
    {
        scr_readers::events_after(&self.state.world, listener, after)
    }

    /// What happened to bundles behind the first `after` events; nothing where there are no more. It takes no memory.
    pub fn bundle_events(&self, after: u64) -> &[BundleEvent]
        ensures { result.now ≡ bundle_events_after after (world_at self.now.journal) }
    {
        scr_readers::bundle_events_after(&self.state.world, after)
    }

    /// The turns with a number above this one, by number, each with its outcome once it has ended.
    ///
    /// # Errors
    /// Only want of memory.
    pub fn trace(&self, alloc: Global, after: u64) -> Result<List<TurnLine>, OutOfMemory>
        ensures { IfOk result (λ lines. lines ≡ turns_above after (history_of self.now.journal)) }
    {
        copied(alloc, scr_readers::turns_above(&self.lines, after))
    }

    /// Whether a turn is due.
    ///
    /// # Errors
    /// Only want of memory.
    pub fn due(&self, alloc: Global) -> Result<bool, OutOfMemory>
        ensures { IfOk result (λ due. due ≡ is_some (due_in (world_at self.now.journal))) }
    {
        let due = scr_dues::due_in(alloc, &self.own, &self.state.world)?;
        Ok(due.is_some())
    }

    /// The work of a turn that is under way: `None` exactly where no turn of this number is.
    ///
    /// # Errors
    /// Only want of memory.
    pub fn turn_work(&self, alloc: Global, turn: u64) -> Result<Option<TurnWork>, OutOfMemory>
        ensures { IfOk result (λ work. work ≡ work_under_way (world_at self.now.journal) turn) }
    {
        scr_dues::work_under_way(alloc, &self.own, &self.state.world, turn)
    }

    /// The gate of the first instance whose drain isn't posted though its gate is shut, to be given to [`Core::drained`] once nobody
    /// is inside; `None` where no instance awaits its drain. It takes no memory.
    pub fn next_drain(&self) -> Option<GateKey>
        ensures { result ≡ next_drain (world_at self.now.journal) }
    {
        scr_dues::next_drain(&self.state.world)
    }
}
