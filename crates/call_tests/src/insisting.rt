//! Component code that makes one nested call after the other.
ghost use Rattle.call_tests.specs.Insisting.{asking_of};
ghost use Rattle.kind_trait.specs.Meanings.{Calls, IsMove};
ghost use Rattle.std.specs.Prelude.{◌≡◌, ◌++◌, ◌∷◌, [], IfOk, OnOk, codes, false, refl};

use kind_trait::{KindFault, Kinds, NestedReply, Next, Site};
use prop_map::{Copies, List, OutOfMemory, Str};
use std::alloc::Global;

/// Component code for tests: it refuses nothing, and asks its reference `next` again, whatever the reply.
#[derive(Clone, Copy, Drop)]
pub struct Insisting;

/// What is left of a request, with the replies so far.
#[derive(Drop)]
pub struct Insisted {
    /// The instance that was asked.
    pub site: Site,
    /// What it was asked.
    pub request: Str,
    /// The replies.
    pub replies: List<NestedReply>,
}

fn again(alloc: Global, work: Insisted) -> Result<Next<Insisted>, OutOfMemory>
    ensures { IfOk result (IsMove asking_of (asking_of work) (Calls (codes "next") work.request)) }
{
    let reference = Str::spell(alloc, "next")?;
    let request = work.request.copy(alloc)?;
    Ok(Next::Call {
        reference,
        request,
        work,
    })
}

fn first(alloc: Global, site: &Site, request: &str) -> Result<Insisted, OutOfMemory>
    ensures site { IfOk result (λ work. work.site ≡ site.now) }
    ensures request { IfOk result (λ work. work.request ≡ request.now) }
    ensures replies { IfOk result (λ work. work.replies ≡ []) }
{
    Ok(Insisted {
        site: site.copy(alloc)?,
        request: Str::spell(alloc, request)?,
        replies: List::of(Vec::new(alloc)),
    })
}

fn with_reply(alloc: Global, work: &mut Insisted, reply: &NestedReply) -> Result<(), OutOfMemory>
    ensures { OnOk result (work.new ≡ record work.old { replies = work.old.replies ++ reply.now ∷ [] }) }
{
    let reply = reply.copy(alloc)?;
    match work.replies.push(reply) {
        Ok(()) => Ok(()),
        Err((_, error)) => Err(error),
    }
}

impl Kinds for Insisting {
    type Object = ();

    type Work = Insisted;

    ghost refuses = { λ _ _ _. false };

    ghost made = { λ _ _. Unit {0} };

    ghost hears = { λ _ _ _ _. Unit {0} };

    ghost next = { λ _ _ request _. Calls (codes "next") request };

    ghost stands_for = { asking_of };

    fn create(&self, _alloc: Global, _site: &Site) -> Result<(), KindFault> {
        Ok(())
    }

    fn bind(
        &self,
        _alloc: Global,
        _object: &(),
        _site: &Site,
        _reference: &str,
        _service: u64,
    ) -> Result<(), KindFault> {
        Ok(())
    }

    fn updated(
        &self,
        _alloc: Global,
        _object: &(),
        _site: &Site,
        _reference: &str,
        _service: u64,
    ) -> Result<(), KindFault> {
        Ok(())
    }

    fn unbind(
        &self,
        _alloc: Global,
        _object: &(),
        _site: &Site,
        _reference: &str,
        _service: u64,
    ) -> Result<(), KindFault> {
        Ok(())
    }

    fn activate(&self, _alloc: Global, _object: &(), _site: &Site) -> Result<(), KindFault> {
        Ok(())
    }

    fn modified(&self, _alloc: Global, _object: &(), _site: &Site) -> Result<(), KindFault> {
        Ok(())
    }

    fn deactivate(&self, _alloc: Global, _object: &(), _site: &Site) -> Result<(), KindFault> {
        Ok(())
    }

    fn start(
        &self,
        alloc: Global,
        _object: &(),
        site: &Site,
        request: &str,
    ) -> Result<Next<Insisted>, KindFault> {
        let work = first(alloc, site, request)?;
        Ok(again(alloc, work)?)
    }

    fn resume(
        &self,
        alloc: Global,
        work: Insisted,
        reply: &NestedReply,
    ) -> Result<Next<Insisted>, KindFault> {
        let mut work = work;
        with_reply(alloc, &mut work, reply)?;
        Ok(again(alloc, work)?)
    }

    ghost destroy_is_done = { λ class properties. refl };
}
