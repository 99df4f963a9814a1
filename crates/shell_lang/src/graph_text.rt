//! The lines of a graph, in the language DOT of Graphviz.
ghost use Rattle.shell_lang.specs.GraphTexts.{box_text, diamond_text, ellipse_text, graph_text, holds_text, interfaces_label, lacks_text, node_text, numbered_text, of_bundle_text, stated_label, stated_text, told_interfaces};
ghost use Rattle.std.specs.Prelude.{◌≡◌, IfOk, string_bytes};

use crate::joined_text::joined;
use crate::quoted_text::quoted_text;
use crate::row_text::Row;
use crate::{GraphLine, GraphNode};
use prop_map::{OutOfMemory, Str};
use std::alloc::Global;

impl Row for GraphLine {
    ghost row_text = { graph_text };

    fn text(&self, alloc: Global) -> Result<String, OutOfMemory> {
        match self {
            GraphLine::Opening => String::from_str(alloc, "digraph osgi {\n"),
            GraphLine::Bundle {
                bundle,
                location,
                state,
            } => bundle_drawn(alloc, *bundle, location.as_str(), *state),
            GraphLine::Service {
                service,
                interfaces,
            } => service_drawn(alloc, *service, interfaces.names()),
            GraphLine::Component {
                configuration,
                name,
                state,
            } => component_drawn(alloc, *configuration, name.as_str(), *state),
            GraphLine::OfBundle {
                bundle,
                configuration,
            } => of_bundle_text(alloc, *bundle, *configuration),
            GraphLine::Holds {
                configuration,
                node,
                reference,
            } => hold_drawn(alloc, *configuration, *node, reference.as_str()),
            GraphLine::Lacks {
                configuration,
                interface,
                reference,
            } => lack_drawn(
                alloc,
                *configuration,
                interface.as_str(),
                reference.as_str(),
            ),
            GraphLine::Closing => String::from_str(alloc, "}\n"),
        }
    }
}

fn bundle_drawn(
    alloc: Global,
    bundle: u64,
    location: &str,
    state: u32,
) -> Result<String, OutOfMemory>
    ensures { IfOk result (λ text. string_bytes text ≡ graph_text (GraphLine.Bundle bundle location.now state)) }
{
    let label = stated_label(alloc, bundle, location, u64::from(state))?;
    box_text(alloc, bundle, label.as_str())
}

fn service_drawn(alloc: Global, service: u64, interfaces: &[Str]) -> Result<String, OutOfMemory>
    ensures { IfOk result (λ text. string_bytes text ≡ graph_text (GraphLine.Service service interfaces.now)) }
{
    let label = interfaces_label(alloc, service, interfaces)?;
    diamond_text(alloc, service, label.as_str())
}

fn component_drawn(
    alloc: Global,
    configuration: u64,
    name: &str,
    state: u8,
) -> Result<String, OutOfMemory>
    ensures { IfOk result (λ text. string_bytes text ≡ graph_text (GraphLine.Component configuration name.now state)) }
{
    let label = stated_label(alloc, configuration, name, u64::from(state))?;
    ellipse_text(alloc, configuration, label.as_str())
}

fn hold_drawn(
    alloc: Global,
    configuration: u64,
    node: GraphNode,
    reference: &str,
) -> Result<String, OutOfMemory>
    ensures { IfOk result (λ text. string_bytes text ≡ graph_text (GraphLine.Holds configuration node reference.now)) }
{
    let node = node_text(alloc, node)?;
    let label = quoted_text(alloc, reference)?;
    holds_text(alloc, configuration, node.as_str(), label.as_str())
}

fn lack_drawn(
    alloc: Global,
    configuration: u64,
    interface: &str,
    reference: &str,
) -> Result<String, OutOfMemory>
    ensures { IfOk result (λ text. string_bytes text ≡ graph_text (GraphLine.Lacks configuration interface.now reference.now)) }
{
    let interface = quoted_text(alloc, interface)?;
    let label = quoted_text(alloc, reference)?;
    lacks_text(alloc, configuration, interface.as_str(), label.as_str())
}

// A number, a name and a state in quotes.
fn stated_label(alloc: Global, number: u64, name: &str, state: u64) -> Result<String, OutOfMemory>
    ensures { IfOk result (λ label. string_bytes label ≡ stated_label number name.now state) }
{
    let told = stated_text(alloc, number, name, state)?;
    quoted_text(alloc, told.as_str())
}

fn stated_text(alloc: Global, number: u64, name: &str, state: u64) -> Result<String, OutOfMemory>
    ensures { IfOk result (λ text. string_bytes text ≡ stated_text number name.now state) }
{
    format!(in alloc; "{number} {name} {state}")
}

// A service's number and its interfaces in quotes.
fn interfaces_label(alloc: Global, service: u64, interfaces: &[Str]) -> Result<String, OutOfMemory>
    ensures { IfOk result (λ label. string_bytes label ≡ interfaces_label service interfaces.now) }
{
    let told = told_interfaces(alloc, service, interfaces)?;
    quoted_text(alloc, told.as_str())
}

fn told_interfaces(alloc: Global, service: u64, interfaces: &[Str]) -> Result<String, OutOfMemory>
    ensures { IfOk result (λ text. string_bytes text ≡ told_interfaces service interfaces.now) }
{
    let names = joined(alloc, ",", interfaces)?;
    numbered_text(alloc, service, names.as_str())
}

fn numbered_text(alloc: Global, number: u64, text: &str) -> Result<String, OutOfMemory>
    ensures { IfOk result (λ told. string_bytes told ≡ numbered_text number text.now) }
{
    format!(in alloc; "{number} {text}")
}

fn node_text(alloc: Global, node: GraphNode) -> Result<String, OutOfMemory>
    ensures { IfOk result (λ text. string_bytes text ≡ node_text node) }
{
    match node {
        GraphNode::Component(configuration) => format!(in alloc; "c{configuration}"),
        GraphNode::Service(service) => format!(in alloc; "s{service}"),
    }
}

fn box_text(alloc: Global, bundle: u64, label: &str) -> Result<String, OutOfMemory>
    ensures { IfOk result (λ text. string_bytes text ≡ box_text bundle label.now) }
{
    format!(in alloc; "b{bundle} [shape=box,label={label}]\n")
}

fn diamond_text(alloc: Global, service: u64, label: &str) -> Result<String, OutOfMemory>
    ensures { IfOk result (λ text. string_bytes text ≡ diamond_text service label.now) }
{
    format!(in alloc; "s{service} [shape=diamond,label={label}]\n")
}

fn ellipse_text(alloc: Global, configuration: u64, label: &str) -> Result<String, OutOfMemory>
    ensures { IfOk result (λ text. string_bytes text ≡ ellipse_text configuration label.now) }
{
    format!(in alloc; "c{configuration} [label={label}]\n")
}

fn of_bundle_text(alloc: Global, bundle: u64, configuration: u64) -> Result<String, OutOfMemory>
    ensures { IfOk result (λ text. string_bytes text ≡ of_bundle_text bundle configuration) }
{
    format!(in alloc; "b{bundle} -> c{configuration}\n")
}

fn holds_text(
    alloc: Global,
    configuration: u64,
    node: &str,
    label: &str,
) -> Result<String, OutOfMemory>
    ensures { IfOk result (λ text. string_bytes text ≡ holds_text configuration node.now label.now) }
{
    format!(in alloc; "c{configuration} -> {node} [label={label}]\n")
}

fn lacks_text(
    alloc: Global,
    configuration: u64,
    interface: &str,
    label: &str,
) -> Result<String, OutOfMemory>
    ensures { IfOk result (λ text. string_bytes text ≡ lacks_text configuration interface.now label.now) }
{
    format!(in alloc; "c{configuration} -> {interface} [style=dashed,label={label}]\n")
}
