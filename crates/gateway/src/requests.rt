//! What the gateway's components answer.
ghost use Rattle.std.specs.Prelude.{◌≡◌, ◌++◌, ◌∷◌, [], IfOk, None, Some, codes};
ghost use Rattle.kind_trait.specs.Meanings.{Answers, Calls, IsMove, Moves};
ghost use Rattle.gateway.specs.declared.classes.Class.TheVariants.{Page};
ghost use Rattle.gateway.specs.Requests.{IsText, asked, first_move, second_move, third_move};

use crate::classes::Class;
use crate::refusals::text_at;
use kind_trait::{KindFault, NestedReply, Next, Site};
use prop_map::{Copies, OutOfMemory, Str};
use std::alloc::Global;

/// A request that waits for the reply of another service.
#[derive(Debug, PartialEq, Eq, Drop)]
pub struct Waiting {
    /// The instance that was asked.
    pub site: Site,
    /// What it was asked.
    pub request: Str,
    /// The reading that it has already, if it has one.
    pub reading: Option<Str>,
}

// What a request comes to at first.
pub(crate) fn begun(
    alloc: Global,
    class: Class,
    site: &Site,
    request: &str,
) -> Result<Next<Waiting>, KindFault>
    ensures { Moves (λ work. asked work.site work.request work.reading) (asked site.now request.now None)
        (first_move class site.now.properties request.now) result }
{
    match class {
        Class::Thermometer => Ok(Next::Answer {
            text: joined(alloc, text_at(site, "reading"), " C")?,
        }),
        Class::Hygrometer => Ok(Next::Answer {
            text: joined(alloc, text_at(site, "reading"), " %")?,
        }),
        Class::Aggregator => Ok(asks(alloc, site, request, "sensors")?),
        Class::Store => Ok(Next::Answer {
            text: joined(alloc, "kept ", request)?,
        }),
        Class::Page if request == "/" => Ok(asks(alloc, site, request, "aggregator")?),
        Class::Page => Err(KindFault::Refused),
    }
}

// What it comes to behind the first reply.
pub(crate) fn replied(
    alloc: Global,
    class: Class,
    site: Site,
    request: Str,
    reply: &NestedReply,
) -> Result<Next<Waiting>, KindFault>
    ensures { Moves (λ work. asked work.site work.request work.reading)
        (record (asked site request None) { replies = reply.now ∷ [] }) (second_move class reply.now) result }
{
    match class {
        Class::Aggregator => match reply {
            NestedReply::Text(reading) => Ok(keeps(alloc, site, request, reading.as_str())?),
            _ => Ok(Next::Answer {
                text: Str::spell(alloc, "no reading")?,
            }),
        },
        Class::Page => Ok(Next::Answer {
            text: shown(alloc, reply)?,
        }),
        _ => Err(KindFault::Refused),
    }
}

// What it comes to behind the store's reply to a reading.
pub(crate) fn stored(
    alloc: Global,
    class: Class,
    reading: Str,
    reply: &NestedReply,
) -> Result<Str, KindFault>
    ensures { IsText (third_move class reading reply.now) result }
{
    match class {
        Class::Aggregator => match reply {
            NestedReply::Text(kept) => Ok(kept.copy(alloc)?),
            _ => Ok(reading),
        },
        _ => Err(KindFault::Refused),
    }
}

fn joined(alloc: Global, front: &str, back: &str) -> Result<Str, OutOfMemory>
    ensures { IfOk result (λ text. text ≡ front.now ++ back.now) }
{
    Ok(Str::of(format!(in alloc; "{front}{back}")?))
}

// What a page shows of a reply.
fn shown(alloc: Global, reply: &NestedReply) -> Result<Str, OutOfMemory>
    ensures { IfOk result (λ text. second_move Page reply.now ≡ Answers text) }
{
    match reply {
        NestedReply::Text(text) => Ok(Str::of(format!(in alloc; "<p>{}</p>", text.as_str())?)),
        _ => Str::spell(alloc, "<p>no reading</p>"),
    }
}

// Asks the best service at a reference for its reading.
fn asks(
    alloc: Global,
    site: &Site,
    request: &str,
    reference: &str,
) -> Result<Next<Waiting>, OutOfMemory>
    ensures { IfOk result (λ next. IsMove (λ work. asked work.site work.request work.reading)
        (asked site.now request.now None) (Calls reference.now (codes "read")) next) }
{
    Ok(Next::Call {
        reference: Str::spell(alloc, reference)?,
        request: Str::spell(alloc, "read")?,
        work: Waiting {
            site: site.copy(alloc)?,
            request: Str::spell(alloc, request)?,
            reading: None,
        },
    })
}

// Hands a reading to the store.
fn keeps(
    alloc: Global,
    site: Site,
    request: Str,
    reading: &str,
) -> Result<Next<Waiting>, OutOfMemory>
    ensures { IfOk result (λ next. IsMove (λ work. asked work.site work.request work.reading)
        (asked site request (Some reading.now)) (Calls (codes "store") reading.now) next) }
{
    let reference = Str::spell(alloc, "store")?;
    let given = Str::spell(alloc, reading)?;
    let reading = Some(Str::spell(alloc, reading)?);
    Ok(Next::Call {
        reference,
        request: given,
        work: Waiting {
            site,
            request,
            reading,
        },
    })
}
