//! A reference of the whiteboard's component configuration with what it needs: its filter is read once.
ghost use Rattle.component_dto.specs.declared.description.Reference.{Reference};
ghost use Rattle.prop_map.specs.declared.properties.Property.{Property};
ghost use Rattle.reference_match.specs.Needs.{need_of};
ghost use Rattle.reference_match.specs.declared.need.Need.{Need};
ghost use Rattle.scr_world.specs.Whiteboard.{whiteboard_component};
ghost use Rattle.std.specs.Option.{option_copied};
ghost use Rattle.std.specs.Prelude.{◌≡◌, IfOk, IsTrue, List, Some};

use component_dto::Reference;
use prop_map::{OutOfMemory, Properties};
use reference_match::{Need, need_of};
use std::alloc::Global;
use std::marker::Model;

/// A reference with what it needs by the properties of the whiteboard's component configuration.
#[derive(Drop)]
pub(crate) struct KnownNeed {
    reference: Reference,
    need: Need,
}

impl Model for KnownNeed {
    ghost use Rattle.component_dto.specs.declared.description.Reference.{Reference};
    ghost use Rattle.reference_match.specs.Needs.{need_of};
    ghost use Rattle.scr_world.specs.Whiteboard.{whiteboard_component};
    ghost use Rattle.std.specs.Prelude.{◌≡◌};

    ghost Value = { Reference };

    ghost view = { λ k. k.reference };

    ghost invariant = { λ k. k.need ≡ need_of whiteboard_component.properties k.reference };
}

impl KnownNeed {
    /// The reference with what it needs.
    ///
    /// # Errors
    /// Only want of memory. The reference is dropped then.
    pub(crate) fn of(
        alloc: Global,
        properties: &Properties,
        reference: Reference,
    ) -> Result<KnownNeed, OutOfMemory>
        requires properties { properties.now ≡ whiteboard_component.properties }
        ensures { IfOk result (λ known. known ≡ reference) }
    {
        let need = need_of(alloc, properties, &reference)?;
        Ok(KnownNeed { reference, need })
    }

    /// What a reference needs that needs the same as this one: none of any other reference.
    pub(crate) fn need_of(&self, reference: &Reference) -> Option<&Need>
        ensures { (need : Need) → option_copied result ≡ Some need → need ≡ need_of whiteboard_component.properties reference.now }
    {
        if needs_the_same(&self.reference, reference) {
            Some(&self.need)
        } else {
            None
        }
    }
}

// Whether two references need the same, whatever the properties are: all that a need is made of is the same.
fn needs_the_same(one: &Reference, other: &Reference) -> bool
    ensures { IsTrue result → (properties : List Property) → need_of properties one.now ≡ need_of properties other.now }
{
    have_same_names(one, other) && have_same_words(one, other)
}

fn have_same_names(one: &Reference, other: &Reference) -> bool
    ensures { IsTrue result → (one.now.name ≡ other.now.name) × (one.now.interface_name ≡ other.now.interface_name) }
{
    one.name == other.name && one.interface_name == other.interface_name
}

fn have_same_words(one: &Reference, other: &Reference) -> bool
    ensures { IsTrue result → (one.now.cardinality ≡ other.now.cardinality) × (one.now.policy ≡ other.now.policy) × (one.now.policy_option ≡ other.now.policy_option) }
{
    one.cardinality == other.cardinality
        && one.policy == other.policy
        && one.policy_option == other.policy_option
}
