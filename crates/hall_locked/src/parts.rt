//! The parts of instances.
ghost use Rattle.hall_locked.specs.OwnedCores.{parts_of};
ghost use Rattle.hall_locked.specs.Parts.{ArePartsLeft, ArePartsWith, parts_but, parts_told};
ghost use Rattle.std.specs.Arc.{arc_value};
ghost use Rattle.std.specs.List.{find, position};
ghost use Rattle.std.specs.Option.{option_copied};
ghost use Rattle.std.specs.Prelude.{◌≡◌, ◌==◌, ◌<◌, ◌≤◌, Some, vec_capacity, vec_len};

use crate::part::Part;
use crate::room::let_go;
use std::sync::Arc;
use turn_work::TurnWork;

// The place of the first part of this instance.
fn place_of<O>(parts: &[Part<O>], instance: u64) -> Option<usize>
    ensures { result ≡ position (λ part. part.instance == instance) parts.now }
{
    parts.iter().position(|part| part.instance == instance)
}

// The part of this instance, the first one.
pub(crate) fn part_of<O>(parts: &[Part<O>], instance: u64) -> Option<&Part<O>>
    ensures { option_copied result ≡ find (λ part. part.instance == instance) parts.now }
{
    parts.iter().find(|part| part.instance == instance)
}

// Tells the part of a turn's instance, if there is one, what the instance is told of itself.
pub(crate) fn tell_site<O: Drop>(parts: &mut Vec<Part<O>>, work: TurnWork)
    requires { parts_of parts.old.items work.instance ≤ 1 }
    ensures { parts.new.items ≡ parts_told work.instance work.site parts.old.items }
{
    let TurnWork {
        number: _,
        callback,
        instance,
        name,
        site,
    } = work;
    let_go(callback);
    let_go(name);
    match place_of(parts.as_slice(), instance) {
        Some(place) => parts[place].site = site,
        None => let_go(site),
    }
}

// Keeps the object that a turn made, and lets that of an instance go that was destroyed.
pub(crate) fn keep<O: Drop>(parts: &mut Vec<Part<O>>, work: TurnWork, made: Option<Arc<O>>)
    requires { vec_len parts.old < vec_capacity parts.old }
    ensures { ArePartsLeft arc_value (Some work) made parts.old.items parts.new.items }
{
    let instance = work.instance;
    let is_destroyed = work.callback.is_destroy();
    keep_made(parts, work, made);
    if is_destroyed {
        let_part_go(parts, instance);
    }
}

// Keeps the object that a turn made.
fn keep_made<O: Drop>(parts: &mut Vec<Part<O>>, work: TurnWork, made: Option<Arc<O>>)
    requires { vec_len parts.old < vec_capacity parts.old }
    ensures { ArePartsWith arc_value work made parts.old.items parts.new.items }
{
    let TurnWork {
        number: _,
        callback,
        instance,
        name,
        site,
    } = work;
    let_go(callback);
    let_go(name);
    match made {
        Some(object) => parts.push_reserved(Part {
            instance,
            object,
            site,
        }),
        None => let_go(site),
    }
}

// Lets the part of an instance go.
fn let_part_go<O: Drop>(parts: &mut Vec<Part<O>>, instance: u64)
    ensures { parts.new.items ≡ parts_but instance parts.old.items }
{
    parts.retain(|part| part.instance != instance);
}
