//! What the lines `help` ask: rows of the table of lines.
ghost use Rattle.std.specs.Prelude.{◌≡◌, IfOk, MatchResult, Ok, Err, map, option_map};
ghost use Rattle.std.specs.List.{list_any};
ghost use Rattle.shell_lang.specs.Help.{begins_with, help_of, helping, line_word_at, lines, told};
ghost use Rattle.shell_lang.specs.LineFaults.{Reads};

use crate::arguments::owned;
use crate::line_table::LINES;
use crate::words::{Misfit, next_word, nothing_at, word_at};
use crate::{LineFault, ShellLine};
use prop_map::{List, OutOfMemory, Str};
use std::alloc::Global;

/// What is told of a line of the shell.
#[derive(Debug, PartialEq, Eq, Drop)]
pub struct LineHelp {
    /// Its words.
    pub words: Str,
    /// What it does.
    pub sentence: Str,
}

// The rows of all lines, or with a word those of the lines that begin with it.
pub(crate) fn helping(alloc: Global, rest: Option<&str>) -> Result<ShellLine, LineFault>
    ensures { Reads (helping (option_map (λ t. t.now) rest.entry)) result }
{
    match rest {
        Some(_) => {
            let (word, rest) = line_word_at(1, rest)?;
            nothing_at(2, rest)?;
            Ok(ShellLine::Help(rows_of(alloc, rows(), word)?))
        }
        None => Ok(ShellLine::Help(all_rows(alloc, rows())?)),
    }
}

fn rows() -> &'static [(&'static str, &'static str)]
    ensures { map (λ r. (r.0.now, r.1.now)) result.now ≡ lines }
{
    LINES
}

// The word at a place, with which some line begins, and what follows it.
fn line_word_at(at: usize, rest: Option<&str>) -> Result<(&str, Option<&str>), Misfit>
    ensures { MatchResult result (λ w. line_word_at at (option_map (λ t. t.now) rest.entry) ≡ Ok (w.0.now, option_map (λ t. t.now) w.1)) (λ misfit. line_word_at at (option_map (λ t. t.now) rest.entry) ≡ Err misfit) }
{
    let (word, rest) = word_at(at, rest)?;
    if is_known(rows(), word) {
        Ok((word, rest))
    } else {
        Err(Misfit { at })
    }
}

// Whether a line of the table begins with this word.
fn is_known(rows: &[(&str, &str)], word: &str) -> bool
    ensures { result ≡ list_any (begins_with word.now) (map (λ r. (r.0.now, r.1.now)) rows.now) }
{
    for row in rows {
        if begins_with(row, word) {
            return true;
        }
    }
    false
}

fn begins_with(row: &(&str, &str), word: &str) -> bool
    ensures { result ≡ begins_with word.now (row.now.0.now, row.now.1.now) }
{
    next_word(row.0).0 == word
}

fn all_rows(alloc: Global, rows: &[(&str, &str)]) -> Result<List<LineHelp>, OutOfMemory>
    ensures { IfOk result (λ told_rows. told_rows ≡ map told (map (λ r. (r.0.now, r.1.now)) rows.now)) }
{
    let mut found = Vec::new(alloc);
    for row in rows {
        found.push(told(alloc, row)?)?;
    }
    Ok(List::of(found))
}

fn rows_of(alloc: Global, rows: &[(&str, &str)], word: &str) -> Result<List<LineHelp>, OutOfMemory>
    ensures { IfOk result (λ told_rows. told_rows ≡ help_of (map (λ r. (r.0.now, r.1.now)) rows.now) word.now) }
{
    let mut found = Vec::new(alloc);
    for row in rows {
        if begins_with(row, word) {
            found.push(told(alloc, row)?)?;
        }
    }
    Ok(List::of(found))
}

fn told(alloc: Global, row: &(&str, &str)) -> Result<LineHelp, OutOfMemory>
    ensures { IfOk result (λ help. help ≡ told (row.now.0.now, row.now.1.now)) }
{
    let words = owned(alloc, row.0)?;
    let sentence = owned(alloc, row.1)?;
    Ok(LineHelp { words, sentence })
}
