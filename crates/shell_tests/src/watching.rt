//! Component code that tells whether an object hears of another instance.
ghost use Rattle.kind_trait.specs.Meanings.{Answers, RefusedWhere};
ghost use Rattle.std.specs.Prelude.{◌≡◌, [], false, refl};

use kind_trait::{KindFault, Kinds, NestedReply, Next, Site};
use prop_map::{Copies, Str};
use std::alloc::Global;
use std::sync::Arc;
use std::sync::atomic::{AtomicU64, Ordering};

/// Component code for tests: it refuses nothing, counts what its objects hear, and finds no memory where one hears of a class
/// for which it wasn't made.
#[derive(Drop)]
pub struct Watching {
    /// How often an object was told something.
    pub heard: Arc<AtomicU64>,
}

/// An object, and the class for which it was made.
#[derive(Drop)]
pub struct Watched {
    class: Str,
}

impl Watching {
    fn hears(&self, object: &Watched, site: &Site) -> Result<(), KindFault>
        ensures { RefusedWhere false result }
    {
        self.heard.fetch_add(1, Ordering::SeqCst);
        if object.class == site.class {
            Ok(())
        } else {
            Err(KindFault::OutOfMemory)
        }
    }
}

impl Kinds for Watching {
    type Object = Watched;

    type Work = ();

    ghost refuses = { λ _ _ _. false };

    ghost made = { λ object site. object.class ≡ site.class };

    ghost hears = { λ _ _ _ _. Unit {0} };

    ghost next = { λ _ _ _ _. Answers [] };

    ghost stands_for = { λ _. record { class = []; properties = []; request = []; replies = [] } };

    fn create(&self, alloc: Global, site: &Site) -> Result<Watched, KindFault> {
        let class = site.class.copy(alloc)?;
        Ok(Watched { class })
    }

    fn bind(
        &self,
        _alloc: Global,
        object: &Watched,
        site: &Site,
        _reference: &str,
        _service: u64,
    ) -> Result<(), KindFault> {
        self.hears(object, site)
    }

    fn updated(
        &self,
        _alloc: Global,
        object: &Watched,
        site: &Site,
        _reference: &str,
        _service: u64,
    ) -> Result<(), KindFault> {
        self.hears(object, site)
    }

    fn unbind(
        &self,
        _alloc: Global,
        object: &Watched,
        site: &Site,
        _reference: &str,
        _service: u64,
    ) -> Result<(), KindFault> {
        self.hears(object, site)
    }

    fn activate(&self, _alloc: Global, object: &Watched, site: &Site) -> Result<(), KindFault> {
        self.hears(object, site)
    }

    fn modified(&self, _alloc: Global, object: &Watched, site: &Site) -> Result<(), KindFault> {
        self.hears(object, site)
    }

    fn deactivate(&self, _alloc: Global, object: &Watched, site: &Site) -> Result<(), KindFault> {
        self.hears(object, site)
    }

    fn start(
        &self,
        alloc: Global,
        _object: &Watched,
        _site: &Site,
        _request: &str,
    ) -> Result<Next<()>, KindFault> {
        Ok(Next::Answer {
            text: Str::of(String::new(alloc)),
        })
    }

    fn resume(
        &self,
        alloc: Global,
        _work: (),
        _reply: &NestedReply,
    ) -> Result<Next<()>, KindFault> {
        Ok(Next::Answer {
            text: Str::of(String::new(alloc)),
        })
    }

    ghost destroy_is_done = { λ class properties. refl };
}
