//! The clauses of a header.
ghost use Rattle.std.specs.Prelude.{◌≡◌};
ghost use Rattle.bundle_headers.specs.Clauses.{ReadsClauses};

use crate::clause_reading::ClausesReading;
use crate::{HeaderFault, pairs};
use prop_map::{Copies, List, OutOfMemory, Str};
use std::alloc::Global;

/// A clause: one or more paths, and what is said of them.
#[derive(Debug, Drop, PartialEq, Eq)]
pub struct Clause {
    /// In the order of the text.
    pub paths: List<Str>,
    /// Names and values, in the order of the text. A name's type is passed over.
    pub attributes: List<(Str, Str)>,
    /// Names and values, in the order of the text.
    pub directives: List<(Str, Str)>,
}

/// The clauses of a header.
#[derive(Debug, Drop, PartialEq, Eq)]
pub struct Clauses {
    /// In the order of the text.
    pub list: List<Clause>,
}

impl Clauses {
    /// Reads a list of clauses with commas between them (OSGi Core 8, section 1.3.2). A clause is parts with semicolons
    /// between them: one or more paths, then attributes `name=value` and directives `name:=value`. A name may have a
    /// type behind a colon, as in `size:Long=3`, which is passed over. A value may be quoted; in quotes a backslash
    /// takes the next character. Blanks round names, types, values and quotes don't count.
    ///
    /// # Errors
    /// `BadClause` exactly where the text spells no list of clauses, with the length of its longest prefix that some
    /// list continues.
    pub fn parse(alloc: Global, text: &str) -> Result<Clauses, HeaderFault>
        ensures { ReadsClauses text.now result }
    {
        let mut reading = ClausesReading::start(alloc);
        for (at, byte) in text.as_bytes().iter().enumerate() {
            match reading.step(alloc, *byte)? {
                Some(next) => reading = next,
                None => return Err(HeaderFault::BadClause { at }),
            }
        }
        match reading.clauses(alloc)? {
            Some(clauses) => Ok(clauses),
            None => Err(HeaderFault::BadClause { at: text.len() }),
        }
    }
}

impl Copies for Clause {
    fn copy(&self, alloc: Global) -> Result<Clause, OutOfMemory> {
        Ok(Clause {
            paths: self.paths.copy(alloc)?,
            attributes: pairs::copied(alloc, &self.attributes)?,
            directives: pairs::copied(alloc, &self.directives)?,
        })
    }
}

impl Copies for Clauses {
    fn copy(&self, alloc: Global) -> Result<Clauses, OutOfMemory> {
        Ok(Clauses {
            list: self.list.copy(alloc)?,
        })
    }
}
