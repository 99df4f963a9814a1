//! The component code of the gateway, as the platform calls it.
ghost use Rattle.std.specs.Prelude.{refl};
ghost use Rattle.std.specs.Option.{option_map_or};
ghost use Rattle.gateway.specs.Refusals.{refuses_told};
ghost use Rattle.gateway.specs.Requests.{asked, next};

use crate::classes::Class;
use crate::refusals::{made, works};
use crate::requests::{Waiting, begun, replied, stored};
use kind_trait::{KindFault, Kinds, NestedReply, Next, Site};
use std::alloc::Global;

/// The component code of the gateway.
///
/// A Create is refused where the class isn't one of the gateway's, an Activate and a Modified where a sensor has no
/// text `reading`, or a store no text `folder`. A sensor answers its reading with its unit, and a store what it was
/// given. The aggregator asks the best of its `sensors` and hands what it reads to its `store`. The page shows at its
/// path `/` what its `aggregator` answers, and refuses every other path.
#[derive(Clone, Copy, Debug, PartialEq, Eq, Drop)]
pub struct Gateway;

impl Kinds for Gateway {
    type Object = ();

    type Work = Waiting;

    ghost refuses = { refuses_told };

    ghost made = { λ _ _. Unit {0} };

    ghost hears = { λ _ _ _ _. Unit {0} };

    ghost next = { next };

    ghost stands_for = { λ work. asked work.site work.request work.reading };

    fn create(&self, _alloc: Global, site: &Site) -> Result<(), KindFault> {
        made(site)
    }

    fn bind(
        &self,
        _alloc: Global,
        _object: &(),
        _site: &Site,
        _reference: &str,
        _service: u64,
    ) -> Result<(), KindFault> {
        Ok(())
    }

    fn updated(
        &self,
        _alloc: Global,
        _object: &(),
        _site: &Site,
        _reference: &str,
        _service: u64,
    ) -> Result<(), KindFault> {
        Ok(())
    }

    fn unbind(
        &self,
        _alloc: Global,
        _object: &(),
        _site: &Site,
        _reference: &str,
        _service: u64,
    ) -> Result<(), KindFault> {
        Ok(())
    }

    fn activate(&self, _alloc: Global, _object: &(), site: &Site) -> Result<(), KindFault> {
        works(site)
    }

    fn modified(&self, _alloc: Global, _object: &(), site: &Site) -> Result<(), KindFault> {
        works(site)
    }

    fn deactivate(&self, _alloc: Global, _object: &(), _site: &Site) -> Result<(), KindFault> {
        Ok(())
    }

    fn start(
        &self,
        alloc: Global,
        _object: &(),
        site: &Site,
        request: &str,
    ) -> Result<Next<Waiting>, KindFault> {
        match Class::of(site.class.as_str()) {
            Some(class) => begun(alloc, class, site, request),
            None => Err(KindFault::Refused),
        }
    }

    fn resume(
        &self,
        alloc: Global,
        work: Waiting,
        reply: &NestedReply,
    ) -> Result<Next<Waiting>, KindFault> {
        let Waiting {
            site,
            request,
            reading,
        } = work;
        let Some(class) = Class::of(site.class.as_str()) else {
            return Err(KindFault::Refused);
        };
        match reading {
            None => replied(alloc, class, site, request, reply),
            Some(reading) => Ok(Next::Answer {
                text: stored(alloc, class, reading, reply)?,
            }),
        }
    }

    ghost destroy_is_done = { λ class properties. refl };
}
