//! What a core tells of its bundles and services, its component configurations and descriptions, its open periods, its
//! configurations, its listeners and its journal.
ghost use Rattle.config_admin.specs.Configurations.{of_pid};
ghost use Rattle.scr_readers.specs.Counting.{counting_numbers};
ghost use Rattle.scr_readers.specs.Described.{described_numbers};
ghost use Rattle.scr_readers.specs.DetailViews.{component_details};
ghost use Rattle.scr_readers.specs.ListedComponents.{listed_components};
ghost use Rattle.scr_readers.specs.ServiceViews.{service_view};
ghost use Rattle.scr_world.specs.Calls.{world_at};
ghost use Rattle.scr_world.specs.Room.{reserved};
ghost use Rattle.scr_world.specs.Tables.{contents_of};
ghost use Rattle.std.specs.Option.{option_copied};
ghost use Rattle.std.specs.Prelude.{◌≡◌, IfOk};

use crate::Core;
use bundle_life::BundleLife;
use component_state::OpenPeriod;
use config_admin::Configuration;
use prop_map::{List, OutOfMemory};
use scr_readers::{ComponentDetails, ListedComponent, ServiceView};
use scr_world::Contents;
use service_listeners::Listener;
use std::alloc::Global;

impl Core {
    /// The installed bundles, by number. It takes no memory.
    pub fn bundles(&self) -> &[BundleLife]
        ensures { result.now ≡ (world_at self.now.journal).bundles.rows }
    {
        self.state.world.bundles.rows()
    }

    /// The open periods, in the order of their openings. It takes no memory.
    pub fn open_periods(&self) -> &[OpenPeriod]
        ensures { result.now ≡ (world_at self.now.journal).open_periods }
    {
        self.state.world.open_periods.as_slice()
    }

    /// The service of a number, with the bundles that use it and the instances that hold it: `None` exactly where none is
    /// registered, or it is that of the platform.
    ///
    /// # Errors
    /// Only want of memory.
    pub fn service(&self, alloc: Global, service: u64) -> Result<Option<ServiceView>, OutOfMemory>
        ensures { IfOk result (λ view. view ≡ service_view (world_at self.now.journal) service) }
    {
        scr_readers::service(alloc, &self.own, &self.state.world, service)
    }

    /// The component configurations that haven't ceased, by number, each with its state and the references that keep it from
    /// being satisfied.
    ///
    /// # Errors
    /// Only want of memory.
    pub fn listed_components(&self, alloc: Global) -> Result<List<ListedComponent>, OutOfMemory>
        ensures { IfOk result (λ lines. lines ≡ listed_components (world_at self.now.journal)) }
    {
        let satisfied = self.state.satisfied.as_slice();
        scr_readers::listed_components(alloc, &self.own, &self.state.world, satisfied)
    }

    /// All that is told of the component configuration of a number: `None` exactly where there is none, or it has ceased.
    ///
    /// # Errors
    /// Only want of memory.
    pub fn details(
        &self,
        alloc: Global,
        configuration: u64,
    ) -> Result<Option<ComponentDetails>, OutOfMemory>
        ensures { IfOk result (λ details. details ≡ component_details (world_at self.now.journal) configuration) }
    {
        let satisfied = self.state.satisfied.as_slice();
        scr_readers::details(
            alloc,
            &self.own,
            &self.state.world,
            satisfied,
            configuration,
        )
    }

    /// What an installed bundle holds: `None` exactly where no bundle of this number is installed. It takes no memory.
    pub fn contents(&self, bundle: u64) -> Option<&Contents>
        ensures { option_copied result ≡ contents_of (world_at self.now.journal).documents bundle }
    {
        contents_among(self.state.world.documents.as_slice(), bundle)
    }

    /// The numbers of the component configurations that haven't ceased of the description at an index of a bundle's document,
    /// in order.
    ///
    /// # Errors
    /// Only want of memory.
    pub fn described_numbers(
        &self,
        alloc: Global,
        bundle: u64,
        index: u64,
    ) -> Result<List<u64>, OutOfMemory>
        ensures { IfOk result (λ numbers. numbers ≡ described_numbers (world_at self.now.journal) bundle index) }
    {
        scr_readers::described_numbers(alloc, &self.state.world, bundle, index)
    }

    /// The configurations, in byte order of their PIDs. It takes no memory.
    pub fn configurations(&self) -> &[Configuration]
        ensures { result.now ≡ (world_at self.now.journal).configurations }
    {
        self.state.world.configurations.rows()
    }

    /// The configuration of a PID: `None` exactly where it has none. It takes no memory.
    pub fn configuration(&self, pid: &str) -> Option<&Configuration>
        ensures { option_copied result ≡ of_pid pid.now (world_at self.now.journal).configurations }
    {
        self.state.world.configurations.of_pid(pid)
    }

    /// The numbers of the component configurations that haven't ceased and for which a configuration counts, in order.
    ///
    /// # Errors
    /// Only want of memory.
    pub fn counting_numbers(
        &self,
        alloc: Global,
        configuration: &Configuration,
    ) -> Result<List<u64>, OutOfMemory>
        ensures { IfOk result (λ numbers. numbers ≡ counting_numbers (world_at self.now.journal) configuration.now) }
    {
        scr_readers::counting_numbers(alloc, &self.state.world, configuration)
    }

    /// The listeners, by number, and what each was told. It takes no memory.
    pub fn listeners(&self) -> &[Listener]
        ensures { result.now ≡ (world_at self.now.journal).listeners.rows }
    {
        self.state.world.listeners.rows()
    }

    /// How many entries of the journal are reserved: the end of each turn that is under way, the drain of each instance
    /// from the beginning of its Activate on, and the release of each get by token. It takes no memory.
    pub fn reserved(&self) -> u64
        ensures { result ≡ reserved (world_at self.now.journal) }
    {
        self.journal.reserved()
    }
}

fn contents_among(documents: &[Contents], bundle: u64) -> Option<&Contents>
    ensures { option_copied result ≡ contents_of documents.now bundle }
{
    documents.iter().find(|contents| contents.bundle == bundle)
}
