//! The code of components.
ghost use Rattle.kind_trait.specs.Meanings.{Told, Create, Bind, Updated, Unbind, Activate, Modified, Deactivate, Destroy, Asking, Move, Moves, RefusedWhere};
ghost use Rattle.kind_trait.specs.declared.kind_fault.KindFault.{KindFault};
ghost use Rattle.kind_trait.specs.declared.nested_reply.NestedReply.{NestedReply};
ghost use Rattle.turn_work.specs.declared.site.Site.{Site};
ghost use Rattle.prop_map.specs.declared.properties.Property.{Property};
ghost use Rattle.std.specs.Prelude.{ℕ, List, [], ◌∷◌, ◌++◌, ◌≡◌, Bool, IfOk, Result, false};

use crate::{KindFault, NestedReply, Next, Site};
use std::alloc::Global;

/// The code of components (OSGi Compendium 8, section 112.5 "Component Life Cycle"): what instances do when they are told
/// of a change, and what they answer.
///
/// Two meanings fix it. `refuses` says which callbacks an instance of a class with these properties refuses; a Destroy is
/// never refused, since an instance ceases by being let go. `next` says what a request comes to, from the request and the
/// replies of the nested calls so far. An object is shared by its callers and keeps what it needs behind locks of its own;
/// no clause speaks of what it keeps.
///
/// # Errors
/// Refused comes exactly where these meanings say so, and OutOfMemory only where there was no memory.
pub trait Kinds {
    /// What stands for an instance.
    type Object: Send + Sync + Drop;

    /// What is left of a request while it waits for the reply of a nested call.
    type Work: Drop;

    /// Whether an instance of a class with these properties refuses a callback.
    ghost refuses: { List ℕ → List Property → Told → Bool };

    /// What it is that an object was made for the class and the properties of a site. Whoever knows nothing of the component code
    /// knows this of an object alone that came from a `create` with just that site.
    ghost made: { Self.Object → Site → Type 0 };

    /// What it is that an object of an instance is told something and answers. Whoever knows nothing of the component code knows
    /// this of an answer alone that came from a call with just that object.
    ghost hears: { Self.Object → Site → Told → Result (Unit {0}) KindFault → Type 0 };

    /// What a request to an instance of a class with these properties comes to, after these replies.
    ghost next: { List ℕ → List Property → List ℕ → List NestedReply → Move };

    /// The request that a work stands for, with the replies so far.
    ghost stands_for: { Self.Work → Asking };

    /// Makes an instance.
    fn create(&self, alloc: Global, site: &Site) -> Result<Self::Object, KindFault>
        ensures refused { RefusedWhere (refuses site.now.class site.now.properties Create) result }
        ensures made { IfOk result (λ object. made object site.now) };

    /// Tells an instance that it has a service for a reference from now on.
    fn bind(
        &self,
        alloc: Global,
        object: &Self::Object,
        site: &Site,
        reference: &str,
        service: u64,
    ) -> Result<(), KindFault>
        ensures refused { RefusedWhere (refuses site.now.class site.now.properties (Bind reference.now service)) result }
        ensures heard { hears object.now site.now (Bind reference.now service) result };

    /// Tells an instance that the properties of a service that it has for a reference changed.
    fn updated(
        &self,
        alloc: Global,
        object: &Self::Object,
        site: &Site,
        reference: &str,
        service: u64,
    ) -> Result<(), KindFault>
        ensures refused { RefusedWhere (refuses site.now.class site.now.properties (Updated reference.now service)) result }
        ensures heard { hears object.now site.now (Updated reference.now service) result };

    /// Tells an instance that it has a service for a reference no more.
    fn unbind(
        &self,
        alloc: Global,
        object: &Self::Object,
        site: &Site,
        reference: &str,
        service: u64,
    ) -> Result<(), KindFault>
        ensures refused { RefusedWhere (refuses site.now.class site.now.properties (Unbind reference.now service)) result }
        ensures heard { hears object.now site.now (Unbind reference.now service) result };

    /// Tells an instance that it is active from now on.
    fn activate(&self, alloc: Global, object: &Self::Object, site: &Site) -> Result<(), KindFault>
        ensures refused { RefusedWhere (refuses site.now.class site.now.properties Activate) result }
        ensures heard { hears object.now site.now Activate result };

    /// Tells an instance that its component properties changed: those of the site are the new ones.
    fn modified(&self, alloc: Global, object: &Self::Object, site: &Site) -> Result<(), KindFault>
        ensures refused { RefusedWhere (refuses site.now.class site.now.properties Modified) result }
        ensures heard { hears object.now site.now Modified result };

    /// Tells an instance that it is active no more.
    fn deactivate(&self, alloc: Global, object: &Self::Object, site: &Site) -> Result<(), KindFault>
        ensures refused { RefusedWhere (refuses site.now.class site.now.properties Deactivate) result }
        ensures heard { hears object.now site.now Deactivate result };

    /// Takes up a request to an instance.
    fn start(
        &self,
        alloc: Global,
        object: &Self::Object,
        site: &Site,
        request: &str,
    ) -> Result<Next<Self::Work>, KindFault>
        ensures { Moves stands_for (record { class = site.now.class; properties = site.now.properties; request = request.now; replies = [] }) (next site.now.class site.now.properties request.now []) result };

    /// Goes on with a request once its nested call has its reply.
    fn resume(
        &self,
        alloc: Global,
        work: Self::Work,
        reply: &NestedReply,
    ) -> Result<Next<Self::Work>, KindFault>
        ensures { let before = stands_for work in let replies = before.replies ++ reply.now ∷ [] in
            Moves stands_for (record before { replies = replies }) (next before.class before.properties before.request replies) result };

    /// A Destroy is never refused.
    ghost destroy_is_done: { (class : List ℕ) (properties : List Property) → refuses class properties Destroy ≡ false };
}
