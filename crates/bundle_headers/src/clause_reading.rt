//! A list of clauses, read byte by byte.
ghost use Rattle.std.specs.Prelude.{◌≡◌, ◌<◌, ◌++◌, ◌∷◌, [], IfOk, IsUtf8};
ghost use Rattle.bundle_headers.specs.Blanks.{is_blank};
ghost use Rattle.bundle_headers.specs.ClauseSteps.{after_part, behind_step, buffer_of, clauses_at_end, clauses_of, clauses_start, clauses_step, colon_step, empty_clause, has_arguments, name_in, open_step, quoted_step, token, typed_step, value_step, with_argument, with_path};
ghost use Rattle.bundle_headers.specs.Clauses.{ends_part, is_token_byte};

use crate::blanks::{is_blank, without_blanks};
use crate::header::str_of;
use crate::{Clause, Clauses};
use prop_map::{List, OutOfMemory, Str};
use std::alloc::Global;

/// What a name and a value are.
#[derive(Clone, Copy)]
pub(crate) enum Kind {
    Attribute,
    Directive,
}

/// The clauses before the part that is read.
#[derive(Drop)]
pub(crate) struct Front {
    /// The clauses that are whole.
    pub(crate) whole: List<Clause>,
    /// The clause of the part, without it.
    pub(crate) clause: Clause,
}

/// How far a part has been read.
#[derive(Drop)]
pub(crate) enum Part {
    /// In a path, or a name.
    Open(List<u8>),
    /// Behind the colon that ends a name.
    Colon(Str),
    /// In the type of a name.
    Typed(Str, List<u8>),
    /// In a value, or in the blanks before a quoted one.
    Value(Kind, Str, List<u8>),
    /// In a quoted value.
    Quoted(Kind, Str, List<u8>),
    /// Behind a backslash in a quoted value.
    Escaped(Kind, Str, List<u8>),
    /// Behind a quoted value.
    Behind(Kind, Str, Str),
}

/// How far a list of clauses has been read.
#[derive(Drop)]
pub(crate) struct ClausesReading {
    pub(crate) front: Front,
    pub(crate) part: Part,
}

impl ClausesReading {
    pub(crate) fn start(alloc: Global) -> ClausesReading
        ensures { result ≡ clauses_start }
    {
        ClausesReading {
            front: Front {
                whole: List::of(Vec::new(alloc)),
                clause: empty_clause(alloc),
            },
            part: Part::Open(List::of(Vec::new(alloc))),
        }
    }

    /// With one more byte, or none where no list goes on with it.
    pub(crate) fn step(self, alloc: Global, byte: u8) -> Result<Option<ClausesReading>, OutOfMemory>
        requires { byte < 128 → IsUtf8 (buffer_of self.part) }
        ensures { IfOk result (λ next. next ≡ clauses_step self byte) }
    {
        let ClausesReading { front, part } = self;
        match part {
            Part::Open(bytes) => open_step(alloc, front, bytes, byte),
            Part::Colon(name) => colon_step(alloc, front, name, byte),
            Part::Typed(name, bytes) => typed_step(alloc, front, name, bytes, byte),
            Part::Value(kind, name, bytes) => value_step(alloc, front, kind, name, bytes, byte),
            Part::Quoted(kind, name, bytes) => quoted_step(alloc, front, kind, name, bytes, byte),
            Part::Escaped(kind, name, bytes) => {
                let part = Part::Quoted(kind, name, longer(bytes, byte)?);
                Ok(Some(ClausesReading { front, part }))
            }
            Part::Behind(kind, name, value) => behind_step(alloc, front, kind, name, value, byte),
        }
    }

    /// The clauses, where they may end here.
    pub(crate) fn clauses(self, alloc: Global) -> Result<Option<Clauses>, OutOfMemory>
        requires { IsUtf8 (buffer_of self.part) }
        ensures { IfOk result (λ clauses. clauses ≡ clauses_at_end self) }
    {
        let ClausesReading { front, part } = self;
        match part {
            Part::Open(bytes) => match with_path(alloc, front, bytes)? {
                Some(front) => Ok(Some(front.clauses()?)),
                None => Ok(None),
            },
            Part::Value(kind, name, bytes) => match token(alloc, bytes)? {
                Some(value) => Ok(Some(front.with_argument(kind, name, value)?.clauses()?)),
                None => Ok(None),
            },
            Part::Behind(kind, name, value) => {
                Ok(Some(front.with_argument(kind, name, value)?.clauses()?))
            }
            _ => Ok(None),
        }
    }
}

impl Front {
    // Behind the semicolon or the comma that ends a part.
    fn after_part(self, alloc: Global, byte: u8) -> Result<ClausesReading, OutOfMemory>
        ensures { IfOk result (λ next. next ≡ after_part self byte) }
    {
        let part = Part::Open(List::of(Vec::new(alloc)));
        if byte != b',' {
            return Ok(ClausesReading { front: self, part });
        }
        let Front { mut whole, clause } = self;
        whole.push(clause).map_err(|refused| refused.1)?;
        let front = Front {
            whole,
            clause: empty_clause(alloc),
        };
        Ok(ClausesReading { front, part })
    }

    fn with_argument(mut self, kind: Kind, name: Str, value: Str) -> Result<Front, OutOfMemory>
        ensures { IfOk result (λ front. front ≡ with_argument self kind name value) }
    {
        match kind {
            Kind::Attribute => self
                .clause
                .attributes
                .push((name, value))
                .map_err(|refused| refused.1)?,
            Kind::Directive => self
                .clause
                .directives
                .push((name, value))
                .map_err(|refused| refused.1)?,
        }
        Ok(self)
    }

    fn clauses(self) -> Result<Clauses, OutOfMemory>
        ensures { IfOk result (λ clauses. clauses ≡ clauses_of self) }
    {
        let Front { mut whole, clause } = self;
        whole.push(clause).map_err(|refused| refused.1)?;
        Ok(Clauses { list: whole })
    }
}

fn empty_clause(alloc: Global) -> Clause
    ensures { result ≡ empty_clause }
{
    Clause {
        paths: List::of(Vec::new(alloc)),
        attributes: List::of(Vec::new(alloc)),
        directives: List::of(Vec::new(alloc)),
    }
}

fn longer(mut bytes: List<u8>, byte: u8) -> Result<List<u8>, OutOfMemory>
    ensures { IfOk result (λ longer. longer ≡ bytes ++ byte ∷ []) }
{
    bytes.push(byte).map_err(|refused| refused.1)?;
    Ok(bytes)
}

fn ends_part(byte: u8) -> bool
    ensures { result ≡ ends_part byte }
{
    byte == b',' || byte == b';'
}

fn is_token_byte(byte: u8) -> bool
    ensures { result ≡ is_token_byte byte }
{
    !(ends_part(byte) || byte == b'=' || byte == b':' || byte == b'"')
}

// What stands between blanks, if anything does.
fn token(alloc: Global, bytes: List<u8>) -> Result<Option<Str>, OutOfMemory>
    requires { IsUtf8 bytes }
    ensures { IfOk result (λ text. text ≡ token bytes) }
{
    if is_blank(bytes.as_slice()) {
        return Ok(None);
    }
    Ok(Some(str_of(alloc, without_blanks(bytes.as_slice()))?))
}

// The clauses with one more path, where one may stand here.
fn with_path(alloc: Global, mut front: Front, bytes: List<u8>) -> Result<Option<Front>, OutOfMemory>
    requires { IsUtf8 bytes }
    ensures { IfOk result (λ next. next ≡ with_path front bytes) }
{
    if has_arguments(&front.clause) {
        return Ok(None);
    }
    match token(alloc, bytes)? {
        Some(path) => {
            front.clause.paths.push(path).map_err(|refused| refused.1)?;
            Ok(Some(front))
        }
        None => Ok(None),
    }
}

fn has_arguments(clause: &Clause) -> bool
    ensures { result ≡ has_arguments clause.now }
{
    !(clause.attributes.as_slice().is_empty() && clause.directives.as_slice().is_empty())
}

// The name of an attribute or a directive, where one may stand here.
fn name_in(alloc: Global, front: &Front, bytes: List<u8>) -> Result<Option<Str>, OutOfMemory>
    requires { IsUtf8 bytes }
    ensures { IfOk result (λ name. name ≡ name_in front.now bytes) }
{
    if front.clause.paths.as_slice().is_empty() {
        return Ok(None);
    }
    token(alloc, bytes)
}

fn open_step(
    alloc: Global,
    front: Front,
    bytes: List<u8>,
    byte: u8,
) -> Result<Option<ClausesReading>, OutOfMemory>
    requires { byte < 128 → IsUtf8 bytes }
    ensures { IfOk result (λ next. next ≡ open_step front bytes byte) }
{
    match byte {
        b',' | b';' => match with_path(alloc, front, bytes)? {
            Some(front) => Ok(Some(front.after_part(alloc, byte)?)),
            None => Ok(None),
        },
        b'=' => Ok(name_in(alloc, &front, bytes)?.map(|name| ClausesReading {
            front,
            part: Part::Value(Kind::Attribute, name, List::of(Vec::new(alloc))),
        })),
        b':' => Ok(name_in(alloc, &front, bytes)?.map(|name| ClausesReading {
            front,
            part: Part::Colon(name),
        })),
        b'"' => Ok(None),
        _ => {
            let part = Part::Open(longer(bytes, byte)?);
            Ok(Some(ClausesReading { front, part }))
        }
    }
}

fn colon_step(
    alloc: Global,
    front: Front,
    name: Str,
    byte: u8,
) -> Result<Option<ClausesReading>, OutOfMemory>
    ensures { IfOk result (λ next. next ≡ colon_step front name byte) }
{
    let nothing = List::of(Vec::new(alloc));
    if byte == b'=' {
        let part = Part::Value(Kind::Directive, name, nothing);
        return Ok(Some(ClausesReading { front, part }));
    }
    if !is_token_byte(byte) {
        return Ok(None);
    }
    let part = Part::Typed(name, longer(nothing, byte)?);
    Ok(Some(ClausesReading { front, part }))
}

fn typed_step(
    alloc: Global,
    front: Front,
    name: Str,
    bytes: List<u8>,
    byte: u8,
) -> Result<Option<ClausesReading>, OutOfMemory>
    ensures { IfOk result (λ next. next ≡ typed_step front name bytes byte) }
{
    if byte == b'=' {
        if is_blank(bytes.as_slice()) {
            return Ok(None);
        }
        let part = Part::Value(Kind::Attribute, name, List::of(Vec::new(alloc)));
        return Ok(Some(ClausesReading { front, part }));
    }
    if !is_token_byte(byte) {
        return Ok(None);
    }
    let part = Part::Typed(name, longer(bytes, byte)?);
    Ok(Some(ClausesReading { front, part }))
}

fn value_step(
    alloc: Global,
    front: Front,
    kind: Kind,
    name: Str,
    bytes: List<u8>,
    byte: u8,
) -> Result<Option<ClausesReading>, OutOfMemory>
    requires { byte < 128 → IsUtf8 bytes }
    ensures { IfOk result (λ next. next ≡ value_step front kind name bytes byte) }
{
    match byte {
        b',' | b';' => match token(alloc, bytes)? {
            Some(value) => {
                let front = front.with_argument(kind, name, value)?;
                Ok(Some(front.after_part(alloc, byte)?))
            }
            None => Ok(None),
        },
        b'"' if is_blank(bytes.as_slice()) => {
            let part = Part::Quoted(kind, name, List::of(Vec::new(alloc)));
            Ok(Some(ClausesReading { front, part }))
        }
        b'"' => Ok(None),
        _ => {
            let part = Part::Value(kind, name, longer(bytes, byte)?);
            Ok(Some(ClausesReading { front, part }))
        }
    }
}

fn quoted_step(
    alloc: Global,
    front: Front,
    kind: Kind,
    name: Str,
    bytes: List<u8>,
    byte: u8,
) -> Result<Option<ClausesReading>, OutOfMemory>
    requires { byte < 128 → IsUtf8 bytes }
    ensures { IfOk result (λ next. next ≡ quoted_step front kind name bytes byte) }
{
    let part = match byte {
        b'"' => Part::Behind(kind, name, str_of(alloc, bytes.as_slice())?),
        b'\\' => Part::Escaped(kind, name, bytes),
        _ => Part::Quoted(kind, name, longer(bytes, byte)?),
    };
    Ok(Some(ClausesReading { front, part }))
}

fn behind_step(
    alloc: Global,
    front: Front,
    kind: Kind,
    name: Str,
    value: Str,
    byte: u8,
) -> Result<Option<ClausesReading>, OutOfMemory>
    ensures { IfOk result (λ next. next ≡ behind_step front kind name value byte) }
{
    match byte {
        b',' | b';' => {
            let front = front.with_argument(kind, name, value)?;
            Ok(Some(front.after_part(alloc, byte)?))
        }
        b' ' => {
            let part = Part::Behind(kind, name, value);
            Ok(Some(ClausesReading { front, part }))
        }
        _ => Ok(None),
    }
}
