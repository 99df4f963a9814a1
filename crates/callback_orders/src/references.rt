//! What a reference wants next (OSGi Compendium 8, section 112.5 "Component Life Cycle").
ghost use Rattle.callback_orders.specs.References.{is_held, is_desired, holds_all, desires_all, differs, to_bind, to_unbind, to_tell, to_let_go};
ghost use Rattle.std.specs.Prelude.{◌≡◌};

use crate::ReferenceView;

fn is_held(reference: &ReferenceView, service: u64) -> bool
    ensures { result ≡ is_held reference.now service }
{
    reference
        .held
        .as_slice()
        .iter()
        .any(|held| held.service == service)
}

fn is_desired(reference: &ReferenceView, service: u64) -> bool
    ensures { result ≡ is_desired reference.now service }
{
    reference
        .desired
        .as_slice()
        .iter()
        .any(|wish| wish.service == service)
}

fn holds_all(reference: &ReferenceView) -> bool
    ensures { result ≡ holds_all reference.now }
{
    reference
        .desired
        .as_slice()
        .iter()
        .all(|wish| is_held(reference, wish.service))
}

fn desires_all(reference: &ReferenceView) -> bool
    ensures { result ≡ desires_all reference.now }
{
    reference
        .held
        .as_slice()
        .iter()
        .all(|held| is_desired(reference, held.service))
}

// Whether the held services aren't the desired ones.
pub(crate) fn differs(reference: &ReferenceView) -> bool
    ensures { result ≡ differs reference.now }
{
    !holds_all(reference) || !desires_all(reference)
}

// The service to bind.
pub(crate) fn to_bind(reference: &ReferenceView) -> Option<u64>
    ensures { result ≡ to_bind reference.now }
{
    for wish in reference.desired.as_slice() {
        if wish.ready && !is_held(reference, wish.service) {
            return Some(wish.service);
        }
    }
    None
}

// The service to unbind of an instance that goes on.
pub(crate) fn to_unbind(reference: &ReferenceView) -> Option<u64>
    ensures { result ≡ to_unbind reference.now }
{
    if !holds_all(reference) {
        return None;
    }
    let mut worst = None;
    for held in reference.held.as_slice() {
        if !is_desired(reference, held.service) {
            worst = Some(held.service);
        }
    }
    worst
}

// The service of whose properties the instance is to be told.
pub(crate) fn to_tell(reference: &ReferenceView) -> Option<u64>
    ensures { result ≡ to_tell reference.now }
{
    if !reference.told {
        return None;
    }
    for held in reference.held.as_slice() {
        if held.changed {
            return Some(held.service);
        }
    }
    None
}

// The service to unbind of an instance that ends.
pub(crate) fn to_let_go(reference: &ReferenceView) -> Option<u64>
    ensures { result ≡ to_let_go reference.now }
{
    let mut worst = None;
    for held in reference.held.as_slice() {
        worst = Some(held.service);
    }
    worst
}
