//! The words that ask for a run.
ghost use Rattle.script_shell.specs.Forms.{IsLoad, IsWithin, after_bundles, after_commands, after_load, after_options, after_seed, form_of, no_options, number_within, with_option};
ghost use Rattle.std.specs.Prelude.{◌≡◌, ◌<◌, ◌≤◌, IfOk, IfSome, map};

use crate::{Form, LoadNumbers, ScriptOptions};
use fault_count::decimal;

const MOST_BUNDLES: u64 = 100;

const MOST_COMMANDS: u64 = 100_000;

/// The form that these words are: `script` with `--manual`, `--echo`, `--strict` and `--explain`, each at most once and in any
/// order, or `load SEED BUNDLES COMMANDS` with numbers of 1 to 20 decimal digits, a seed of 64 bits, 1 to 100 bundles and 0 to
/// 100,000 commands.
///
/// # Errors
/// Exactly where the words are no form: the number, from 0 on, of the first word with which no form continues, or how many
/// words there are where the next one is missing.
pub fn form_of(words: &[&str]) -> Result<Form, u64>
    ensures form { result ≡ form_of (map (λ word. word.now) words.now) }
    ensures within { IfOk result IsWithin }
{
    match words {
        [word, rest @ ..] if *word == "script" => script_behind(rest),
        [word, rest @ ..] if *word == "load" => load_behind(rest),
        _ => Err(0),
    }
}

// What follows `script`.
fn script_behind(words: &[&str]) -> Result<Form, u64>
    ensures form { result ≡ after_options no_options 1 (map (λ word. word.now) words.now) }
    ensures within { IfOk result IsWithin }
{
    let mut options = ScriptOptions::NONE;
    for (index, word) in words.iter().enumerate() {
        match with_option(options, word) {
            Some(more) => options = more,
            None => return Err(index as u64 + 1),
        }
    }
    Ok(Form::Script(options))
}

// With the option of this word too, where it is one that isn't there yet.
fn with_option(options: ScriptOptions, word: &str) -> Option<ScriptOptions>
    ensures { result ≡ with_option options word.now }
{
    if word == "--manual" && !options.manual {
        Some(ScriptOptions {
            manual: true,
            ..options
        })
    } else if word == "--echo" && !options.echo {
        Some(ScriptOptions {
            echo: true,
            ..options
        })
    } else if word == "--strict" && !options.strict {
        Some(ScriptOptions {
            strict: true,
            ..options
        })
    } else if word == "--explain" && !options.explain {
        Some(ScriptOptions {
            explain: true,
            ..options
        })
    } else {
        None
    }
}

// What follows `load`.
fn load_behind(words: &[&str]) -> Result<Form, u64>
    ensures form { result ≡ after_load (map (λ word. word.now) words.now) }
    ensures within { IfOk result IsWithin }
{
    match words {
        [] => Err(1),
        [word, rest @ ..] => match decimal(word.as_bytes()) {
            Some(seed) => bundles_behind(seed, rest),
            None => Err(1),
        },
    }
}

// What follows the seed.
fn bundles_behind(seed: u64, words: &[&str]) -> Result<Form, u64>
    ensures form { result ≡ after_seed seed (map (λ word. word.now) words.now) }
    ensures within { IfOk result IsWithin }
{
    match words {
        [] => Err(2),
        [word, rest @ ..] => match number_within(1, MOST_BUNDLES, word) {
            Some(bundles) => commands_behind(seed, bundles, rest),
            None => Err(2),
        },
    }
}

// What follows the number of bundles.
fn commands_behind(seed: u64, bundles: u64, words: &[&str]) -> Result<Form, u64>
    requires some { 0 < bundles }
    requires few { bundles ≤ 100 }
    ensures form { result ≡ after_bundles seed bundles (map (λ word. word.now) words.now) }
    ensures within { IfOk result IsWithin }
{
    match words {
        [] => Err(3),
        [word, rest @ ..] => match number_within(0, MOST_COMMANDS, word) {
            Some(commands) => load_alone(
                LoadNumbers {
                    seed,
                    bundles,
                    commands,
                },
                rest,
            ),
            None => Err(3),
        },
    }
}

// Nothing follows the number of commands.
fn load_alone(load: LoadNumbers, words: &[&str]) -> Result<Form, u64>
    requires { IsLoad load }
    ensures form { result ≡ after_commands load (map (λ word. word.now) words.now) }
    ensures within { IfOk result IsWithin }
{
    match words {
        [] => Ok(Form::Load(load)),
        [_, ..] => Err(4),
    }
}

// The number that a word spells, where it lies within these.
fn number_within(least: u64, most: u64, word: &str) -> Option<u64>
    ensures number { result ≡ number_within least most word.now }
    ensures within { IfSome result (λ n. (least ≤ n) × (n ≤ most)) }
{
    match decimal(word.as_bytes()) {
        Some(number) if least <= number && number <= most => Some(number),
        _ => None,
    }
}
