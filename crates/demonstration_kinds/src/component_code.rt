//! The component code of the demonstration.
ghost use Rattle.kind_trait.specs.Meanings.{Calls, IsMove, RefusedWhere};
ghost use Rattle.demonstration_kinds.specs.Demonstrations.{next, refuses_told, refuses_word, relayed, text_at, unanswered};
ghost use Rattle.std.specs.Prelude.{◌≡◌, IfOk, codes, refl};

use kind_trait::{KindFault, Kinds, NestedReply, Next, Site};
use prop_map::{Copies, OutOfMemory, Str, Value};
use std::alloc::Global;

/// The component code of the demonstration.
///
/// An instance refuses the callback whose word is its text property `refuse`: `create`, `bind`, `updated`, `unbind`, `activate`,
/// `modified` or `deactivate`, and a call where it is `call`. The class `demo.Echo` answers what it is asked. `demo.Relay` asks
/// the service at its reference `next`, and answers `<t>` where that answers t, and else `no-service`, `no-object`, `gone` or
/// `refused`. Every other class answers its text property `text`, or the empty text.
#[derive(Clone, Copy, Debug, PartialEq, Eq, Drop)]
pub struct Demonstration;

/// A request that waits for the reply of the next service.
#[derive(Debug, PartialEq, Eq, Drop)]
pub struct Relay {
    /// The instance that was asked.
    pub site: Site,
    /// What it was asked.
    pub request: Str,
}

// The text of a property, empty where it has none.
fn text_at<'s>(site: &'s Site, key: &str) -> &'s str
    ensures { result.now ≡ text_at site.now.properties key.now }
{
    match site.properties.get(key) {
        Some(Value::Text(text)) => text.as_str(),
        _ => "",
    }
}

fn tell(site: &Site, word: &str) -> Result<(), KindFault>
    ensures { RefusedWhere (refuses_word site.now.properties word.now) result }
{
    if text_at(site, "refuse") == word {
        Err(KindFault::Refused)
    } else {
        Ok(())
    }
}

fn pass_on(alloc: Global, site: &Site, request: &str) -> Result<Next<Relay>, OutOfMemory>
    ensures { IfOk result (λ next. IsMove (λ work. unanswered work.site work.request) (unanswered site.now request.now) (Calls (codes "next") request.now) next) }
{
    Ok(Next::Call {
        reference: Str::spell(alloc, "next")?,
        request: Str::spell(alloc, request)?,
        work: Relay {
            site: site.copy(alloc)?,
            request: Str::spell(alloc, request)?,
        },
    })
}

fn relayed(alloc: Global, reply: &NestedReply) -> Result<Str, OutOfMemory>
    ensures { IfOk result (λ text. text ≡ relayed reply.now) }
{
    match reply {
        NestedReply::Text(text) => Ok(Str::of(format!(in alloc; "<{}>", text.as_str())?)),
        NestedReply::NoService => Str::spell(alloc, "no-service"),
        NestedReply::NoObject => Str::spell(alloc, "no-object"),
        NestedReply::Gone => Str::spell(alloc, "gone"),
        NestedReply::Refused => Str::spell(alloc, "refused"),
    }
}

impl Kinds for Demonstration {
    type Object = ();

    type Work = Relay;

    ghost refuses = { λ _ properties told. refuses_told properties told };

    ghost made = { λ _ _. Unit {0} };

    ghost hears = { λ _ _ _ _. Unit {0} };

    ghost next = { next };

    ghost stands_for = { λ work. unanswered work.site work.request };

    fn create(&self, _alloc: Global, site: &Site) -> Result<(), KindFault> {
        tell(site, "create")
    }

    fn bind(
        &self,
        _alloc: Global,
        _object: &(),
        site: &Site,
        _reference: &str,
        _service: u64,
    ) -> Result<(), KindFault> {
        tell(site, "bind")
    }

    fn updated(
        &self,
        _alloc: Global,
        _object: &(),
        site: &Site,
        _reference: &str,
        _service: u64,
    ) -> Result<(), KindFault> {
        tell(site, "updated")
    }

    fn unbind(
        &self,
        _alloc: Global,
        _object: &(),
        site: &Site,
        _reference: &str,
        _service: u64,
    ) -> Result<(), KindFault> {
        tell(site, "unbind")
    }

    fn activate(&self, _alloc: Global, _object: &(), site: &Site) -> Result<(), KindFault> {
        tell(site, "activate")
    }

    fn modified(&self, _alloc: Global, _object: &(), site: &Site) -> Result<(), KindFault> {
        tell(site, "modified")
    }

    fn deactivate(&self, _alloc: Global, _object: &(), site: &Site) -> Result<(), KindFault> {
        tell(site, "deactivate")
    }

    fn start(
        &self,
        alloc: Global,
        _object: &(),
        site: &Site,
        request: &str,
    ) -> Result<Next<Relay>, KindFault> {
        tell(site, "call")?;
        match site.class.as_str() {
            "demo.Echo" => Ok(Next::Answer {
                text: Str::spell(alloc, request)?,
            }),
            "demo.Relay" => Ok(pass_on(alloc, site, request)?),
            _ => Ok(Next::Answer {
                text: Str::spell(alloc, text_at(site, "text"))?,
            }),
        }
    }

    fn resume(
        &self,
        alloc: Global,
        _work: Relay,
        reply: &NestedReply,
    ) -> Result<Next<Relay>, KindFault> {
        Ok(Next::Answer {
            text: relayed(alloc, reply)?,
        })
    }

    ghost destroy_is_done = { λ class properties. refl };
}
