//! The wiring of all bundles (OSGi Core 8, chapter 3 "Module Layer", "Resolving Process").
ghost use Rattle.bundle_wiring.specs.ByNeed.{wired_of};
ghost use Rattle.kept_wirings.specs.KeptRows.{AreKept};
ghost use Rattle.std.specs.Prelude.{◌≡◌, ◌++◌, length, map, option_map, IfOk, OnOk};
ghost use Rattle.wiring_reader.specs.Lines.{head_line, head_lines, paired, resolved_wires};
ghost use Rattle.wiring_reader.specs.Telling.{TellsWiring};

use crate::WiringLine;
use crate::missing::missing;
use crate::parts::{Head, heads_of};
use crate::wires::push_resolved;
use bundle_wiring::{WireNeed, WiredNeed, wire_needs};
use kept_wirings::{KeptWirings, wirings_of};
use prop_map::{Copies, List, OutOfMemory};
use scr_world::Contents;
use std::alloc::Global;

/// The wiring of the bundles with these documents, in their order: for each bundle whether it resolves, and if not,
/// which need keeps it from it, or whether its manifest is faulty; then, by bundle and by need, each wire of the
/// bundles that resolve. These are the greatest set in which each need that isn't optional has a candidate, among the
/// bundles of the set and the platform; the state of a bundle doesn't count. A bundle without a manifest needs and
/// offers nothing; one whose manifest is faulty takes no part. The manifests are read anew.
///
/// # Errors
/// Only want of memory.
pub fn wiring_lines(alloc: Global, documents: &[Contents]) -> Result<List<WiringLine>, OutOfMemory>
    ensures { IfOk result (λ lines. TellsWiring documents.now lines) }
{
    let kept = wirings_of(alloc, documents)?;
    kept_wiring_lines(alloc, documents, &kept)
}

/// The same where this is kept of what the manifests say. None of them is read.
///
/// # Errors
/// Only want of memory.
pub fn kept_wiring_lines(
    alloc: Global,
    documents: &[Contents],
    kept: &KeptWirings,
) -> Result<List<WiringLine>, OutOfMemory>
    requires { AreKept documents.now kept.now }
    ensures { IfOk result (λ lines. TellsWiring documents.now lines) }
{
    let heads = heads_of(alloc, documents, kept.faults.as_slice())?;
    let wired = wire_needs(alloc, kept.bundles.as_slice())?;
    let lines = lines_of(alloc, heads.as_slice(), wired.as_slice())?;
    Ok(List::of(lines))
}

fn lines_of(
    alloc: Global,
    heads: &[Head],
    wired: &[List<WiredNeed>],
) -> Result<Vec<WiringLine>, OutOfMemory>
    requires { length heads.now ≡ length wired.now }
    ensures { IfOk result (λ lines. lines.items ≡ paired head_lines heads.now (map (map wired_of) wired.now) ++ paired resolved_wires heads.now (map (map wired_of) wired.now)) }
{
    let mut lines = Vec::new(alloc);
    push_heads(alloc, &mut lines, heads, wired)?;
    push_wires(alloc, &mut lines, heads, wired)?;
    Ok(lines)
}

fn push_heads(
    alloc: Global,
    lines: &mut Vec<WiringLine>,
    heads: &[Head],
    wired: &[List<WiredNeed>],
) -> Result<(), OutOfMemory>
    requires { length heads.now ≡ length wired.now }
    ensures { OnOk result (lines.new.items ≡ lines.old.items ++ paired head_lines heads.now (map (map wired_of) wired.now)) }
{
    for (place, head) in heads.iter().enumerate() {
        let need = missing(wired[place].as_slice());
        lines.push(head_line(alloc, *head, need)?)?;
    }
    Ok(())
}

fn push_wires(
    alloc: Global,
    lines: &mut Vec<WiringLine>,
    heads: &[Head],
    wired: &[List<WiredNeed>],
) -> Result<(), OutOfMemory>
    requires { length heads.now ≡ length wired.now }
    ensures { OnOk result (lines.new.items ≡ lines.old.items ++ paired resolved_wires heads.now (map (map wired_of) wired.now)) }
{
    for (place, head) in heads.iter().enumerate() {
        push_resolved(alloc, lines, *head, wired[place].as_slice())?;
    }
    Ok(())
}

fn head_line(alloc: Global, head: Head, need: Option<&WireNeed>) -> Result<WiringLine, OutOfMemory>
    ensures { IfOk result (λ line. line ≡ head_line head (option_map (λ n. n.now) need.entry)) }
{
    let bundle = head.bundle;
    if head.faulty {
        return Ok(WiringLine::Faulty { bundle });
    }
    match need {
        Some(need) => Ok(WiringLine::Unresolved {
            bundle,
            need: need.name.copy(alloc)?,
        }),
        None => Ok(WiringLine::Resolved { bundle }),
    }
}
