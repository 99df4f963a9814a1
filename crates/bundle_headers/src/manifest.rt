//! Manifests.
ghost use Rattle.std.specs.Prelude.{◌≡◌, option_map};
ghost use Rattle.bundle_headers.specs.Headers.{Gives, header_value, manifest_of};

use crate::folding::unfold_lines;
use crate::header::{header, same_name};
use crate::headers::Headers;
use crate::line::section;
use crate::{HeaderFault, pairs};
use prop_map::{Copies, List, OutOfMemory, Str};
use std::alloc::Global;
use std::marker::Model;

/// The headers of a manifest. Contracts see their names and values, in the order of the text.
#[derive(Debug, PartialEq, Eq, Drop)]
pub struct Manifest {
    headers: List<(Str, Str)>,
}

impl Model for Manifest {
    ghost use Rattle.std.specs.Prelude.{List, ℕ};

    ghost Value = { List (List ℕ × List ℕ) };

    ghost view = { λ m. m.headers };

    ghost inverse = { λ headers. record { headers = headers } };
}

impl Manifest {
    /// Reads a manifest's main section. Its lines end with CRLF, LF or CR; one that begins with a blank continues the
    /// line before it without that blank; the first empty line ends the section. A header is a name of 1 to 70 letters,
    /// digits, `-` and `_`, then a colon and a blank, then its value, of which the blanks round it don't count.
    ///
    /// # Errors
    /// The first fault by line: `BadHeader` where a header begins wrongly or a line continues none, `NotUtf8` where a
    /// header is no text, `DuplicateHeader` where its name, without ASCII case, was there already.
    pub fn parse(alloc: Global, bytes: &[u8]) -> Result<Manifest, HeaderFault>
        ensures { Gives result (manifest_of bytes.now) }
    {
        let lines = section(alloc, bytes)?;
        let folded = unfold_lines(alloc, lines.as_slice())?;
        let mut headers = Headers::new(alloc);
        for lines in folded.as_slice() {
            let header = header(alloc, bytes, &headers, lines)?;
            headers = headers.with(alloc, header)?;
        }
        Ok(Manifest {
            headers: headers.list(),
        })
    }

    /// The value of the header with this name, without ASCII case. It takes no memory.
    pub fn get(&self, name: &str) -> Option<&str>
        ensures { option_map (λ value. value.now) result ≡ header_value self.now name.now }
    {
        self.headers
            .as_slice()
            .iter()
            .find(|header| same_name(header.0.as_str().as_bytes(), name.as_bytes()))
            .map(|header| header.1.as_str())
    }
}

impl Copies for Manifest {
    fn copy(&self, alloc: Global) -> Result<Manifest, OutOfMemory> {
        Ok(Manifest {
            headers: pairs::copied(alloc, &self.headers)?,
        })
    }
}
