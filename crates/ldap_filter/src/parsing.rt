//! A filter read from its text (OSGi Core 8, section 3.2.7 "Filter Syntax").
ghost use Rattle.ldap_filter.specs.Machine.{accepted, whole};
ghost use Rattle.ldap_filter.specs.Nodes.{tree_of};
ghost use Rattle.ldap_filter.specs.Parsing.{Parses};
ghost use Rattle.ldap_filter.specs.Reading.{stack_of, mode_of};
ghost use Rattle.ldap_filter.specs.Texts.{IsReadingOf, Tells, reading};
ghost use Rattle.ldap_filter.specs.Trees.{Tree};
ghost use Rattle.ldap_filter.specs.declared.filter_fault.FilterFault.{FilterFault};
ghost use Rattle.std.specs.Prelude.{◌≡◌, ℕ, List, Result, option_map};

use crate::mode::{Frame, Mode, Stop};
use crate::node::Node;
use crate::reader::read;
use crate::{Filter, FilterFault};
use std::alloc::Global;

impl Filter {
    /// The filter that a text spells. It spells no other one.
    ///
    /// # Errors
    /// TooDeep exactly where a bracket opens a filter while 64 others stand open and no bad place comes before it, with
    /// the place of the first such bracket. Else BadFilter exactly where the text spells no filter, with the length in
    /// bytes of its longest beginning that some filter has too, and whether that is the whole text. OutOfMemory may come
    /// at any place.
    pub fn parse(alloc: Global, text: &str) -> Result<Filter, FilterFault>
        ensures { Parses text.now result }
    {
        let mut frames = Vec::new(alloc);
        let mut mode = Mode::Wanted;
        for (at, c) in text.char_indices() {
            mode = match read(alloc, &mut frames, mode, c) {
                Ok(next) => next,
                Err(Stop::Unexpected) => return Err(FilterFault::BadFilter { at, ended: false }),
                Err(Stop::TooDeep) => return Err(FilterFault::TooDeep { at }),
                Err(Stop::OutOfMemory) => return Err(FilterFault::OutOfMemory),
            };
        }
        let at = text.len();
        match whole(frames.as_slice(), mode) {
            Some(node) => Ok(Filter::of(node)),
            None => Err(FilterFault::BadFilter { at, ended: true }),
        }
    }
}

/// For contracts alone: a text is read, by the machine, as the tree that it spells within 64 levels, or as the place where
/// it ceases to be a filter or gets too deep. It is so in one way only, and `Filter::parse` tells it.
#[tactic(auto, using(crate::proofs::Texts::reading_is, crate::proofs::Texts::reading_only, crate::proofs::Texts::told))]
pub fn note_reading()
    ensures reads { (text : List ℕ) → IsReadingOf text (reading text) }
    ensures once { (text : List ℕ) (other : Result Tree ℕ) → IsReadingOf text other → other ≡ reading text }
    ensures parsed { (text : List ℕ) (answer : Result Tree FilterFault) → Parses text answer → Tells answer (reading text) }
{}

// The filter that was read to its end, where no other one stands open.
fn whole(frames: &[Frame], mode: Mode) -> Option<Node>
    ensures { option_map tree_of result ≡ accepted (stack_of frames.now) (mode_of mode) }
{
    match mode {
        Mode::After(node) => outermost(frames, node),
        _ => None,
    }
}

#[tactic(auto, using(crate::proofs::Outermost::outermost_is))]
fn outermost(frames: &[Frame], node: Node) -> Option<Node>
    ensures { option_map tree_of result ≡ whole (stack_of frames.now) (tree_of node) }
{
    if frames.is_empty() { Some(node) } else { None }
}
