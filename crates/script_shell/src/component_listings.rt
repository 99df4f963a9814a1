//! What the lines `list`, `details` and `descriptions` ask.
ghost use Rattle.component_dto.specs.declared.description.Description.{Description};
ghost use Rattle.platform_hall.specs.Platforms.{world};
ghost use Rattle.script_shell.specs.Carries.{CarriesReading};
ghost use Rattle.script_shell.specs.ComponentListings.{description_line, description_lines, descriptions_reply, descriptions_told, details_reply, listed_line, listed_lines};
ghost use Rattle.prop_map.specs.Words.{with_places};
ghost use Rattle.std.specs.Prelude.{◌≡◌, IfOk, false, map, slice_index_or};

use crate::readings::no_component;
use component_dto::Description;
use prop_map::{Copies, List, OutOfMemory, Str};
use scr_readers::ListedComponent;
use scr_report::{Core, ReportFault, details_text};
use scr_world::{Contents, CoreFault};
use shell_lang::{DescriptionLine, ListedLine, Refusal, ShellReply};
use std::alloc::Global;
use turn_runner::SettleFault;

// The component configurations with what they wait for.
pub(crate) fn listed(alloc: Global, core: &Core) -> Result<ShellReply, SettleFault>
    ensures { CarriesReading (ShellReply.Listed (listed_lines (world core.now))) result }
{
    let listed = core.listed_components(alloc)?;
    let lines = listed_lines(alloc, listed)?;
    Ok(ShellReply::Listed(lines))
}

fn listed_lines(
    alloc: Global,
    listed: List<ListedComponent>,
) -> Result<List<ListedLine>, OutOfMemory>
    ensures { IfOk result (λ lines. lines ≡ map listed_line listed) }
{
    let mut lines = Vec::new(alloc);
    for component in listed.items() {
        lines.push(listed_line(component))?;
    }
    Ok(List::of(lines))
}

fn listed_line(component: ListedComponent) -> ListedLine
    ensures { result ≡ listed_line component }
{
    ListedLine {
        number: component.number,
        bundle: component.bundle,
        state: component.state,
        name: component.name,
        interfaces: component.interfaces,
        waits: component.waits,
    }
}

// All that is told of a component configuration.
pub(crate) fn detailed(
    alloc: Global,
    core: &Core,
    configuration: u64,
) -> Result<ShellReply, SettleFault>
    ensures { CarriesReading (details_reply (world core.now) configuration) result }
{
    match details_text(alloc, core, configuration) {
        Ok(text) => Ok(ShellReply::Details(Str::of(text))),
        Err(ReportFault::NoComponent { id }) => no_component(alloc, id),
        Err(ReportFault::OutOfMemory) => Err(SettleFault::OutOfMemory),
    }
}

// The descriptions of a bundle, where it is installed.
pub(crate) fn descriptions(
    alloc: Global,
    core: &Core,
    bundle: u64,
) -> Result<ShellReply, SettleFault>
    ensures { CarriesReading (descriptions_reply (world core.now) bundle) result }
{
    match core.contents(bundle) {
        Some(contents) => descriptions_told(alloc, core, contents),
        None => {
            let fault = CoreFault::NoBundle { bundle };
            Ok(ShellReply::Refused(Refusal::Core { fault }))
        }
    }
}

fn descriptions_told(
    alloc: Global,
    core: &Core,
    contents: &Contents,
) -> Result<ShellReply, SettleFault>
    ensures { CarriesReading (descriptions_told (world core.now) contents.now) result }
{
    let descriptions = contents.document.get().descriptions.as_slice();
    let lines = description_lines(alloc, core, contents, descriptions)?;
    Ok(ShellReply::Descriptions(List::of(lines)))
}

fn description_lines(
    alloc: Global,
    core: &Core,
    contents: &Contents,
    descriptions: &[Description],
) -> Result<Vec<DescriptionLine>, OutOfMemory>
    ensures { IfOk result (λ v. v.items ≡ map (description_line (world core.now) contents.now) (with_places 0 descriptions.now)) }
{
    let mut lines = Vec::new(alloc);
    for (at, description) in descriptions.iter().enumerate() {
        lines.push(description_line(alloc, core, contents, at, description)?)?;
    }
    Ok(lines)
}

fn description_line(
    alloc: Global,
    core: &Core,
    contents: &Contents,
    index: usize,
    description: &Description,
) -> Result<DescriptionLine, OutOfMemory>
    ensures { IfOk result (λ line. line ≡ description_line (world core.now) contents.now (index, description.now)) }
{
    let name = description.name.copy(alloc)?;
    let pids = description.configuration_pids.copy(alloc)?;
    let numbers = core.described_numbers(alloc, contents.bundle, index as u64)?;
    Ok(DescriptionLine {
        name,
        enabled: is_enabled_at(contents.enabled.as_slice(), index),
        immediate: description.immediate,
        policy: description.configuration_policy,
        pids,
        numbers,
    })
}

fn is_enabled_at(enabled: &[bool], index: usize) -> bool
    ensures { result ≡ slice_index_or enabled.now index false }
{
    index < enabled.len() && enabled[index]
}
