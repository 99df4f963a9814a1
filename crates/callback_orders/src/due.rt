//! The due callback of an instance, and the first due callback of all (OSGi Compendium 8, section 112.5 "Component Life Cycle").
ghost use Rattle.callback_orders.specs.Due.{bind_at, bind_or_unbind, tell_at, unbind_at, due_in_making, due_while_active, modified_if_stale, due_while_ending, due_of, first_due, let_go_at};
ghost use Rattle.prop_map.specs.Words.{first_some, with_places};
ghost use Rattle.std.specs.List.{last_or};
ghost use Rattle.std.specs.Prelude.{◌≡◌, filter_map, map};

use crate::references::{differs, to_bind, to_let_go, to_tell, to_unbind};
use crate::{InstanceView, Key, Phase, ReferenceView};

/// A callback that is due. A reference is named by its place in the instance's description.
#[derive(Clone, Copy, Debug, PartialEq, Eq, Drop)]
pub enum DueRef {
    /// A wanted key has no instance.
    Create {
        /// The key.
        key: Key,
    },
    /// A service is to be bound.
    Bind {
        /// The number of the instance.
        instance: u64,
        /// The place of the reference.
        reference: usize,
        /// The number of the service.
        service: u64,
    },
    /// The instance is to be told that a bound service changed.
    Updated {
        /// The number of the instance.
        instance: u64,
        /// The place of the reference.
        reference: usize,
        /// The number of the service.
        service: u64,
    },
    /// A held service is to be taken away.
    Unbind {
        /// The number of the instance.
        instance: u64,
        /// The place of the reference.
        reference: usize,
        /// The number of the service.
        service: u64,
    },
    /// The instance is to begin to be active.
    Activate {
        /// The number of the instance.
        instance: u64,
    },
    /// The instance is to be told that its properties changed.
    Modified {
        /// The number of the instance.
        instance: u64,
    },
    /// The instance is to be active no more.
    Deactivate {
        /// The number of the instance.
        instance: u64,
    },
    /// The instance is to cease.
    Destroy {
        /// The number of the instance.
        instance: u64,
    },
}

fn first_bind(instance: u64, references: &[ReferenceView]) -> Option<DueRef>
    ensures { result ≡ first_some (map (bind_at instance) (with_places 0 references.now)) }
{
    for (reference, view) in references.iter().enumerate() {
        if let Some(service) = to_bind(view) {
            return Some(DueRef::Bind {
                instance,
                reference,
                service,
            });
        }
    }
    None
}

fn first_unbind(instance: u64, references: &[ReferenceView]) -> Option<DueRef>
    ensures { result ≡ first_some (map (unbind_at instance) (with_places 0 references.now)) }
{
    for (reference, view) in references.iter().enumerate() {
        if let Some(service) = to_unbind(view) {
            return Some(DueRef::Unbind {
                instance,
                reference,
                service,
            });
        }
    }
    None
}

fn first_updated(instance: u64, references: &[ReferenceView]) -> Option<DueRef>
    ensures { result ≡ first_some (map (tell_at instance) (with_places 0 references.now)) }
{
    for (reference, view) in references.iter().enumerate() {
        if let Some(service) = to_tell(view) {
            return Some(DueRef::Updated {
                instance,
                reference,
                service,
            });
        }
    }
    None
}

// The last held service goes first; an instance that holds nothing ceases.
fn last_unbind_or_destroy(instance: u64, references: &[ReferenceView]) -> Option<DueRef>
    ensures { result ≡ last_or (Some (DueRef.Destroy instance)) (filter_map (let_go_at instance) (with_places 0 references.now)) }
{
    let mut due = Some(DueRef::Destroy { instance });
    for (reference, view) in references.iter().enumerate() {
        if let Some(service) = to_let_go(view) {
            due = Some(DueRef::Unbind {
                instance,
                reference,
                service,
            });
        }
    }
    due
}

fn bind_or_unbind(instance: u64, reference: usize, view: &ReferenceView) -> Option<DueRef>
    ensures { result ≡ bind_or_unbind instance (reference, view.now) }
{
    if let Some(service) = to_bind(view) {
        return Some(DueRef::Bind {
            instance,
            reference,
            service,
        });
    }
    if let Some(service) = to_unbind(view) {
        return Some(DueRef::Unbind {
            instance,
            reference,
            service,
        });
    }
    None
}

fn due_in_making(instance: u64, references: &[ReferenceView]) -> Option<DueRef>
    ensures { result ≡ due_in_making instance references.now }
{
    for (reference, view) in references.iter().enumerate() {
        if differs(view) {
            return bind_or_unbind(instance, reference, view);
        }
    }
    Some(DueRef::Activate { instance })
}

fn modified_if_stale(view: &InstanceView) -> Option<DueRef>
    ensures { result ≡ modified_if_stale view.now }
{
    if view.stale {
        Some(DueRef::Modified {
            instance: view.instance,
        })
    } else {
        None
    }
}

#[tactic(auto, using(crate::proofs::FirstSome::first_of_four))]
fn due_while_active(view: &InstanceView) -> Option<DueRef>
    ensures { result ≡ due_while_active view.now }
{
    let instance = view.instance;
    let references = view.references.as_slice();
    first_bind(instance, references)
        .or(first_unbind(instance, references))
        .or(first_updated(instance, references))
        .or(modified_if_stale(view))
}

fn due_while_ending(view: &InstanceView) -> Option<DueRef>
    ensures { result ≡ due_while_ending view.now view.now.phase }
{
    let instance = view.instance;
    match view.phase {
        Phase::Active if view.unheld && view.drained => Some(DueRef::Deactivate { instance }),
        Phase::Active => None,
        Phase::Making | Phase::Left => last_unbind_or_destroy(instance, view.references.as_slice()),
    }
}

/// The one callback of an instance that is due, if one is. It takes no memory.
///
/// Nothing is due while a callback is outstanding. An ending instance is deactivated once nobody holds it and its drain
/// is posted, then lets go of its services, the last reference and the worst service first, and then ceases. An instance in the making
/// binds and unbinds until it holds what it desires, one reference after the other, and then is activated. An active one
/// binds first, in the order of its references, then unbinds, then is told of changed services, then of its own changed properties.
pub fn due_of(view: &InstanceView) -> Option<DueRef>
    ensures { result ≡ due_of view.now }
{
    if view.outstanding {
        return None;
    }
    if view.ending {
        return due_while_ending(view);
    }
    match view.phase {
        Phase::Making => due_in_making(view.instance, view.references.as_slice()),
        Phase::Active => due_while_active(view),
        Phase::Left => None,
    }
}

/// The first due callback: of the views, which stand by instance, the first that has one due, else the Create of the first
/// of the wanted keys without an instance, which stand by configuration, then by consumer bundle. It takes no memory.
pub fn first_due(views: &[InstanceView], wanted: &[Key]) -> Option<DueRef>
    ensures { result ≡ first_due views.now wanted.now }
{
    for view in views {
        if let Some(due) = due_of(view) {
            return Some(due);
        }
    }
    wanted.first().map(|key| DueRef::Create { key: *key })
}
