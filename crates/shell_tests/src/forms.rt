//! The forms of words.

use script_shell::{Form, LoadNumbers, ScriptOptions, form_of};

const GREATEST: LoadNumbers = LoadNumbers {
    seed: 18_446_744_073_709_551_615,
    bundles: 100,
    commands: 100_000,
};

const BY_HAND: ScriptOptions = ScriptOptions {
    manual: true,
    ..ScriptOptions::NONE
};

fn is_form(words: &[&str], form: Form) -> bool {
    match form_of(words) {
        Ok(found) => found == form,
        Err(_) => false,
    }
}

#[test]
fn words_are_forms(rt: HostRuntime) {
    let words = ["load", "18446744073709551615", "100", "100000"];
    assert!(rt;
        is_form(&words, Form::Load(GREATEST))
            && is_form(&["script", "--manual"], Form::Script(BY_HAND))
            && is_form(&["script"], Form::Script(ScriptOptions::NONE))
    );
}

// Whether no form continues with the word of this place.
fn is_no_form(words: &[&str], place: u64) -> bool {
    match form_of(words) {
        Ok(_) => false,
        Err(found) => found == place,
    }
}

fn are_no_forms(rows: &[(&[&str], u64)]) -> bool {
    for (words, place) in rows {
        if !is_no_form(words, *place) {
            return false;
        }
    }
    true
}

const NO_FORMS: &[(&[&str], u64)] = &[
    (&["scrip"], 0),
    (&["script", "--manual", "x"], 2),
    (&["script", "--manual", "--manual"], 2),
    (&["script", "--"], 1),
    (&["script", "--manual=1"], 1),
    (&["load", "x", "1", "1"], 1),
    (&["load", "+7", "2", "0"], 1),
    (&["load", "7", "2"], 3),
    (&["load", "7", "101", "0"], 2),
    (&["load", "7", "2", "0", "0"], 4),
];

#[test]
fn words_are_no_forms(rt: HostRuntime) {
    assert!(rt; are_no_forms(NO_FORMS));
}
