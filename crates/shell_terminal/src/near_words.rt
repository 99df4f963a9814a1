//! Words that look like another one.

use prop_map::OutOfMemory;
use std::alloc::Global;
use strsim::osa_distance;

// How many letters a word may differ by, and up to which length just one.
const MOST: usize = 2;

const SHORT: usize = 3;

/// The nearest known word to one that is none of them, the first of several, where one looks like it: it differs by case
/// alone, or by two letters at most, one where the word is short.
#[derive(Clone, Copy)]
pub(crate) struct Nearest<'k> {
    known: Option<&'k str>,
    away: usize,
}

impl<'k> Nearest<'k> {
    pub(crate) fn none() -> Nearest<'k> {
        Nearest {
            known: None,
            away: MOST + 1,
        }
    }

    /// Looks at one more known word.
    pub(crate) fn look_at(
        &mut self,
        alloc: Global,
        word: &str,
        known: &'k str,
    ) -> Result<(), OutOfMemory> {
        let away = distance(alloc, word, known)?;
        if away < self.away {
            self.away = away;
            self.known = Some(known);
        }
        Ok(())
    }

    pub(crate) fn known(&self) -> Option<&'k str> {
        self.known
    }
}

// By how many letters the words differ, or more than are allowed.
fn distance(alloc: Global, word: &str, known: &str) -> Result<usize, OutOfMemory> {
    if word.eq_ignore_ascii_case(known) {
        return Ok(0);
    }
    let allowed = if word.len() > SHORT { MOST } else { 1 };
    if word.len().abs_diff(known.len()) > allowed {
        return Ok(MOST + 1);
    }
    let away = osa_distance(alloc, word, known)?;
    Ok(if away > allowed { MOST + 1 } else { away })
}
