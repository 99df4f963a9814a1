//! The reading of a filter, one character after another.
ghost use Rattle.ldap_filter.specs.Machine.{Frame as OpenFrame, Wanted, Opened, Attribute, Operator, Valued, Escaped, After, value_tree, on_wanted, on_opened, on_attribute, on_operator, on_valued, on_after, closed, continued, step};
ghost use Rattle.ldap_filter.specs.Nodes.{tree_of};
ghost use Rattle.ldap_filter.specs.Reading.{stack_of, mode_of, Took, wide, read_char, is_star_alone};
ghost use Rattle.ldap_filter.specs.Spelling.{has_stars, is_attribute};
ghost use Rattle.std.specs.Prelude.{◌≡◌, ◌++◌, ◌∷◌, ◌<◌, ◌≤◌, [], List, if◌then◌else◌, option_map, IfOk, Some, encode_utf8, string_bytes};

use crate::Comparison;
use crate::mode::{Comparing, Frame, Mode, Stop};
use crate::node::Node;
use prop_map::{List, OutOfMemory, Str};
use std::alloc::Global;

// How many brackets may stand open.
const LEVELS: usize = 64;

fn is_attribute(c: char) -> bool
    ensures { result ≡ is_attribute c }
{
    !matches!(c, '=' | '>' | '<' | '~' | '(' | ')')
}

fn pushed(mut text: String, c: char) -> Result<String, OutOfMemory>
    ensures { IfOk result (λ longer. string_bytes longer ≡ string_bytes text ++ encode_utf8 c) }
{
    text.push(c)?;
    Ok(text)
}

fn pushed_ascii(text: String, c: char) -> Result<String, OutOfMemory>
    requires { c < 128 }
    ensures { IfOk result (λ longer. string_bytes longer ≡ string_bytes text ++ c ∷ []) }
{
    let mut text = text;
    text.push(c)?;
    Ok(text)
}

fn on_wanted(frames: &[Frame], c: char) -> Result<Mode, Stop>
    ensures { Took result (stack_of frames.now) Wanted c (on_wanted (stack_of frames.now) c) (stack_of frames.now) }
{
    match c {
        ' ' => Ok(Mode::Wanted),
        '(' => {
            if frames.len() < LEVELS {
                Ok(Mode::Opened)
            } else {
                Err(Stop::TooDeep)
            }
        }
        _ => Err(Stop::Unexpected),
    }
}

fn on_opened(alloc: Global, frames: &mut Vec<Frame>, c: char) -> Result<Mode, Stop>
    requires { c < 128 }
    ensures { Took result (stack_of frames.old.items) Opened c (on_opened (stack_of frames.old.items) c) (stack_of frames.new.items) }
{
    match c {
        ' ' => Ok(Mode::Opened),
        '&' => {
            frames.push(Frame::Every(Vec::new(alloc)))?;
            Ok(Mode::Wanted)
        }
        '|' => {
            frames.push(Frame::Any(Vec::new(alloc)))?;
            Ok(Mode::Wanted)
        }
        '!' => {
            frames.push(Frame::Not)?;
            Ok(Mode::Wanted)
        }
        _ => {
            if is_attribute(c) {
                let name = pushed_ascii(String::new(alloc), c)?;
                let blanks = String::new(alloc);
                Ok(Mode::Attribute { name, blanks })
            } else {
                Err(Stop::Unexpected)
            }
        }
    }
}

fn on_operator(alloc: Global, comparison: Comparison, name: String, c: char) -> Result<Mode, Stop>
    ensures { (fs : List OpenFrame) → Took result fs (Operator comparison (string_bytes name)) c (on_operator fs comparison (string_bytes name) c) fs }
{
    match c {
        '=' => Ok(Mode::Valued(Comparing {
            comparison,
            name,
            parts: Vec::new(alloc),
            part: String::new(alloc),
        })),
        _ => Err(Stop::Unexpected),
    }
}

// A name without the blanks behind it goes on with them and one more character.
fn grown(mut name: String, blanks: String, c: char) -> Result<String, OutOfMemory>
    requires { c < 128 }
    ensures { IfOk result (λ longer. string_bytes longer ≡ string_bytes name ++ (string_bytes blanks ++ c ∷ [])) }
{
    let behind = pushed_ascii(blanks, c)?;
    name.push_str(behind.as_str())?;
    Ok(name)
}

fn on_attribute(alloc: Global, name: String, blanks: String, c: char) -> Result<Mode, Stop>
    requires { c < 128 }
    ensures { (fs : List OpenFrame) → Took result fs (Attribute (string_bytes name) (string_bytes blanks)) c (on_attribute fs (string_bytes name) (string_bytes blanks) c) fs }
{
    match c {
        ' ' => {
            let blanks = pushed_ascii(blanks, c)?;
            Ok(Mode::Attribute { name, blanks })
        }
        '=' => Ok(Mode::Valued(Comparing {
            comparison: Comparison::Equal,
            name,
            parts: Vec::new(alloc),
            part: String::new(alloc),
        })),
        '~' => Ok(Mode::Operator {
            comparison: Comparison::Like,
            name,
        }),
        '>' => Ok(Mode::Operator {
            comparison: Comparison::AtLeast,
            name,
        }),
        '<' => Ok(Mode::Operator {
            comparison: Comparison::AtMost,
            name,
        }),
        _ => {
            if is_attribute(c) {
                let name = grown(name, blanks, c)?;
                let blanks = String::new(alloc);
                Ok(Mode::Attribute { name, blanks })
            } else {
                Err(Stop::Unexpected)
            }
        }
    }
}

fn is_star_alone(parts: &[Str], part: &str) -> bool
    ensures { result ≡ is_star_alone parts.now part.now }
{
    match parts {
        [only] => only.as_str().is_empty() && part.is_empty(),
        _ => false,
    }
}

#[tactic(auto, using(crate::proofs::Values::value_tree_is))]
fn finished(value: Comparing) -> Result<Node, OutOfMemory>
    ensures { IfOk result (λ node. tree_of node ≡ value_tree value.comparison (string_bytes value.name) (value.parts.items ++ string_bytes value.part ∷ [])) }
{
    let Comparing {
        comparison,
        name,
        mut parts,
        part,
    } = value;
    let attribute = Str::of(name);
    if parts.is_empty() {
        return Ok(Node::Compare {
            comparison,
            attribute,
            value: Str::of(part),
        });
    }
    if is_star_alone(parts.as_slice(), part.as_str()) {
        return Ok(Node::Present(attribute));
    }
    parts.push(Str::of(part))?;
    Ok(Node::Parts {
        attribute,
        parts: List::of(parts),
    })
}

// The part begun ends at a star.
fn starred(alloc: Global, value: Comparing) -> Result<Comparing, OutOfMemory>
    ensures { IfOk result (λ next. (next.comparison ≡ value.comparison) × (string_bytes next.name ≡ string_bytes value.name) × (next.parts.items ≡ value.parts.items ++ string_bytes value.part ∷ []) × (string_bytes next.part ≡ [])) }
{
    let Comparing {
        comparison,
        name,
        mut parts,
        part,
    } = value;
    parts.push(Str::of(part))?;
    Ok(Comparing {
        comparison,
        name,
        parts,
        part: String::new(alloc),
    })
}

// A character goes into the part begun.
fn longer(value: Comparing, c: char) -> Result<Mode, OutOfMemory>
    ensures { IfOk result (λ next. mode_of next ≡ Valued value.comparison (string_bytes value.name) value.parts.items (string_bytes value.part ++ encode_utf8 c)) }
{
    let Comparing {
        comparison,
        name,
        parts,
        part,
    } = value;
    let part = pushed(part, c)?;
    Ok(Mode::Valued(Comparing {
        comparison,
        name,
        parts,
        part,
    }))
}

fn longer_ascii(value: Comparing, c: char) -> Result<Mode, OutOfMemory>
    requires { c < 128 }
    ensures { IfOk result (λ next. mode_of next ≡ Valued value.comparison (string_bytes value.name) value.parts.items (string_bytes value.part ++ c ∷ [])) }
{
    let Comparing {
        comparison,
        name,
        parts,
        part,
    } = value;
    let part = pushed_ascii(part, c)?;
    Ok(Mode::Valued(Comparing {
        comparison,
        name,
        parts,
        part,
    }))
}

fn on_star(alloc: Global, value: Comparing) -> Result<Mode, OutOfMemory>
    ensures { IfOk result (λ next. mode_of next ≡ (if has_stars value.comparison
        then Valued value.comparison (string_bytes value.name) (value.parts.items ++ string_bytes value.part ∷ []) []
        else Valued value.comparison (string_bytes value.name) value.parts.items (string_bytes value.part ++ 42 ∷ []))) }
{
    match value.comparison {
        Comparison::Equal => Ok(Mode::Valued(starred(alloc, value)?)),
        Comparison::Like | Comparison::AtLeast | Comparison::AtMost => longer_ascii(value, '*'),
    }
}

fn on_valued(alloc: Global, value: Comparing, c: char) -> Result<Mode, Stop>
    requires { c < 128 }
    ensures { (fs : List OpenFrame) → Took result fs (Valued value.comparison (string_bytes value.name) value.parts.items (string_bytes value.part)) c
        (on_valued fs value.comparison (string_bytes value.name) value.parts.items (string_bytes value.part) c) fs }
{
    match c {
        ')' => Ok(Mode::After(finished(value)?)),
        '\\' => Ok(Mode::Escaped(value)),
        '*' => Ok(on_star(alloc, value)?),
        '(' => Err(Stop::Unexpected),
        _ => Ok(longer_ascii(value, c)?),
    }
}

fn closed(alloc: Global, frames: &mut Vec<Frame>, node: Node) -> Result<Mode, Stop>
    ensures { Took result (stack_of frames.old.items) Wanted 41 (closed (stack_of frames.old.items) (tree_of node)) (stack_of frames.new.items) }
{
    match frames.pop() {
        Some(Frame::Every(mut nodes)) => {
            nodes.push(node)?;
            Ok(Mode::After(Node::Every(nodes)))
        }
        Some(Frame::Any(mut nodes)) => {
            nodes.push(node)?;
            Ok(Mode::After(Node::Any(nodes)))
        }
        Some(Frame::Not) => Ok(Mode::After(Node::Not(Box::new(alloc, node)?))),
        None => Err(Stop::Unexpected),
    }
}

fn continued(frames: &mut Vec<Frame>, node: Node) -> Result<Mode, Stop>
    ensures { Took result (stack_of frames.old.items) (After (tree_of node)) 40 (continued (stack_of frames.old.items) (tree_of node)) (stack_of frames.new.items) }
{
    let is_full = frames.len() >= LEVELS;
    match frames.pop() {
        Some(Frame::Every(mut nodes)) => {
            if is_full {
                return Err(Stop::TooDeep);
            }
            nodes.push(node)?;
            frames.push(Frame::Every(nodes))?;
            Ok(Mode::Opened)
        }
        Some(Frame::Any(mut nodes)) => {
            if is_full {
                return Err(Stop::TooDeep);
            }
            nodes.push(node)?;
            frames.push(Frame::Any(nodes))?;
            Ok(Mode::Opened)
        }
        Some(Frame::Not) | None => Err(Stop::Unexpected),
    }
}

fn on_after(alloc: Global, frames: &mut Vec<Frame>, node: Node, c: char) -> Result<Mode, Stop>
    ensures { Took result (stack_of frames.old.items) (After (tree_of node)) c (on_after (stack_of frames.old.items) (tree_of node) c) (stack_of frames.new.items) }
{
    match c {
        ' ' => Ok(Mode::After(node)),
        ')' => closed(alloc, frames, node),
        '(' => continued(frames, node),
        _ => Err(Stop::Unexpected),
    }
}

fn on_ascii(alloc: Global, frames: &mut Vec<Frame>, mode: Mode, c: char) -> Result<Mode, Stop>
    requires { c < 128 }
    ensures { Took result (stack_of frames.old.items) (mode_of mode) c (step (stack_of frames.old.items) (mode_of mode) c) (stack_of frames.new.items) }
{
    match mode {
        Mode::Wanted => on_wanted(frames.as_slice(), c),
        Mode::Opened => on_opened(alloc, frames, c),
        Mode::Attribute { name, blanks } => on_attribute(alloc, name, blanks, c),
        Mode::Operator { comparison, name } => on_operator(alloc, comparison, name, c),
        Mode::Valued(value) => on_valued(alloc, value, c),
        Mode::Escaped(value) => Ok(longer_ascii(value, c)?),
        Mode::After(node) => on_after(alloc, frames, node, c),
    }
}

fn on_wide(alloc: Global, mode: Mode, c: char) -> Result<Mode, Stop>
    requires { 128 ≤ c }
    ensures { (fs : List OpenFrame) → Took result fs (mode_of mode) c (option_map (λ m. (fs, m)) (wide (mode_of mode) (encode_utf8 c))) fs }
{
    match mode {
        Mode::Opened => {
            let name = pushed(String::new(alloc), c)?;
            let blanks = String::new(alloc);
            Ok(Mode::Attribute { name, blanks })
        }
        Mode::Attribute { mut name, blanks } => {
            let behind = pushed(blanks, c)?;
            name.push_str(behind.as_str())?;
            let blanks = String::new(alloc);
            Ok(Mode::Attribute { name, blanks })
        }
        Mode::Valued(value) | Mode::Escaped(value) => Ok(longer(value, c)?),
        Mode::Wanted | Mode::Operator { .. } | Mode::After(_) => Err(Stop::Unexpected),
    }
}

/// Reads one character. After a stop the open filters say nothing.
pub(crate) fn read(
    alloc: Global,
    frames: &mut Vec<Frame>,
    mode: Mode,
    c: char,
) -> Result<Mode, Stop>
    ensures { Took result (stack_of frames.old.items) (mode_of mode) c (read_char (stack_of frames.old.items) (mode_of mode) c) (stack_of frames.new.items) }
{
    if c.is_ascii() {
        on_ascii(alloc, frames, mode, c)
    } else {
        on_wide(alloc, mode, c)
    }
}
