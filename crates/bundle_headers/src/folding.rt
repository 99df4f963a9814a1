//! Lines that are continued by others.
ghost use Rattle.std.specs.Prelude.{◌≡◌, [], ◌∷◌, ◌++◌, IfOk, OnOk, if◌then◌else◌};
ghost use Rattle.bundle_headers.specs.Folding.{alone, longer, unfold_lines};

use crate::line::Line;
use prop_map::{List, OutOfMemory};
use std::alloc::Global;
use std::mem;

/// A line and those that continue it.
#[derive(Drop)]
pub(crate) struct Folded {
    pub(crate) first: Line,
    pub(crate) more: List<Line>,
}

fn alone(alloc: Global, line: Line) -> Folded
    ensures { result ≡ alone line }
{
    Folded {
        first: line,
        more: List::of(Vec::new(alloc)),
    }
}

/// Each line with those that continue it.
pub(crate) fn unfold_lines(alloc: Global, lines: &[Line]) -> Result<Vec<Folded>, OutOfMemory>
    ensures { IfOk result (λ folded. folded.items ≡ unfold_lines lines.now) }
{
    let mut all = Vec::new(alloc);
    if lines.is_empty() {
        return Ok(all);
    }
    let mut last = alone(alloc, lines[0]);
    let (_, rest) = lines.split_at(1);
    for line in rest {
        add(alloc, &mut all, &mut last, *line)?;
    }
    all.push(last)?;
    Ok(all)
}

// One more line: it goes on with the last, or begins anew.
fn add(
    alloc: Global,
    front: &mut Vec<Folded>,
    last: &mut Folded,
    line: Line,
) -> Result<(), OutOfMemory>
    ensures { OnOk result (front.new.items ++ last.new ∷ [] ≡ (if line.continues
        then front.old.items ++ longer last.old line ∷ []
        else (front.old.items ++ last.old ∷ []) ++ alone line ∷ [])) }
{
    if line.continues {
        last.more.push(line).map_err(|(_, fault)| fault)?;
    } else {
        front.push(mem::replace(last, alone(alloc, line)))?;
    }
    Ok(())
}
