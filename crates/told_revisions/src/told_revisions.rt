//! What an instance was told last of each service, in memory that its copies share.
ghost use Rattle.std.specs.Prelude.{◌≡◌, [], OnErr, OnOk};
ghost use Rattle.told_revisions.specs.Told.{revision_told, with_told, without_told};

use crate::latest::{Latest, services_of, with_row, without_row};
use crate::services::{ServiceRevision, revision_of};
use crate::tellings::{Telling, ToldRevision};
use prop_map::{Copies, OutOfMemory, Str};
use shared_log::SharedLog;
use shared_map::SharedMap;
use std::alloc::Global;
use std::marker::Model;

/// What an instance was told last of each service. A copy shares what is held, and takes memory by the logarithm of how
/// often it was told. Contracts see the list of the revisions, in the order in which they were told. No code goes over
/// that list: the revision of a service is found by halving, among the references and then among the services of one.
#[derive(Drop)]
pub struct ToldRevisions {
    tellings: SharedLog<Telling>,
    latest: Latest,
}

impl Model for ToldRevisions {
    ghost use Rattle.std.specs.Prelude.{List, []};
    ghost use Rattle.told_revisions.specs.declared.tellings.ToldRevision.{ToldRevision};

    ghost Value = { List ToldRevision };

    ghost use Rattle.told_revisions.specs.Services.{AreLatest};
    ghost use Rattle.told_revisions.specs.Tellings.{told_after};

    ghost view = { λ t. told_after [] t.tellings };

    ghost invariant = { λ t. AreLatest t.latest (told_after [] t.tellings) };
}

impl Copies for ToldRevisions {
    fn copy(&self, alloc: Global) -> Result<ToldRevisions, OutOfMemory> {
        Ok(ToldRevisions {
            tellings: self.tellings.copy(alloc)?,
            latest: self.latest.copy(alloc)?,
        })
    }
}

impl ToldRevisions {
    /// Of an instance that was told of nothing yet. It takes no memory.
    pub fn new(alloc: Global) -> ToldRevisions
        ensures { result ≡ [] }
    {
        ToldRevisions {
            tellings: SharedLog::new(alloc),
            latest: SharedMap::new(alloc),
        }
    }

    /// The revision of a service that was told last for a reference, 0 where none was.
    pub fn revision(&self, reference: &Str, service: u64) -> u64
        ensures { result ≡ revision_told self.now reference.now service }
    {
        revision_of(services_of(&self.latest, reference), service)
    }

    /// Tells the revision of a service for a reference, in place of the one that was told before. The services of that
    /// reference alone are gone over.
    ///
    /// # Errors
    /// Only want of memory. What was told is then as it was.
    pub fn tell(
        &mut self,
        alloc: Global,
        reference: Str,
        service: u64,
        revision: u64,
    ) -> Result<(), OutOfMemory>
        ensures ok { OnOk result (self.new ≡ with_told reference service revision self.old) }
        ensures err { OnErr result (self.new ≡ self.old) }
    {
        let row = ServiceRevision { service, revision };
        let latest = with_row(alloc, &self.latest, &reference, row)?;
        let told = ToldRevision {
            reference,
            service,
            revision,
        };
        self.tellings.push(alloc, Telling::Told(told))?;
        self.latest = latest;
        Ok(())
    }

    /// Forgets what was told of a service for a reference. The services of that reference alone are gone over.
    ///
    /// # Errors
    /// Only want of memory. What was told is then as it was.
    pub fn forget(&mut self, alloc: Global, reference: Str, service: u64) -> Result<(), OutOfMemory>
        ensures ok { OnOk result (self.new ≡ without_told reference service self.old) }
        ensures err { OnErr result (self.new ≡ self.old) }
    {
        let latest = without_row(alloc, &self.latest, &reference, service)?;
        let telling = Telling::Forgotten { reference, service };
        self.tellings.push(alloc, telling)?;
        self.latest = latest;
        Ok(())
    }
}
