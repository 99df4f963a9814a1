//! The texts of the lines of `load`, by the numbers that are drawn.
ghost use Rattle.std.specs.Prelude.{◌≡◌, ◌<◌, IfOk, string_bytes};
ghost use Rattle.shell_lang.specs.Loads.{after_command, after_install, command_at, command_line, drawn, install_line, kind_at, next_of, policy_text, reference_text, references_at, start_line};

use prop_map::{OutOfMemory, Str};
use std::alloc::Global;

// The number that is drawn behind another one.
fn next_of(number: u64) -> u64
    requires { number < 2147483648 }
    ensures next { result ≡ next_of number }
    ensures below { result < 2147483648 }
{
    (1_103_515_245 * number + 12_345) % 2_147_483_648
}

// What a number gives below a limit.
fn drawn(number: u64, below: u64) -> u64
    requires { 0 < below }
    ensures drawn { result ≡ drawn number below }
    ensures below { result < below }
{
    number / 65_536 % below
}

fn policy_text(policy: u64) -> &'static str
    ensures { result.now ≡ policy_text policy }
{
    match policy {
        0 => "\"static\",\"policyOption\":\"reluctant\"",
        1 => "\"static\",\"policyOption\":\"greedy\"",
        2 => "\"dynamic\",\"policyOption\":\"reluctant\"",
        _ => "\"dynamic\",\"policyOption\":\"greedy\"",
    }
}

// A reference on the interface of a bundle.
fn reference_text(alloc: Global, bundle: u64, policy: &str) -> Result<String, OutOfMemory>
    ensures { IfOk result (λ text. string_bytes text ≡ reference_text bundle policy.now) }
{
    format!(in alloc;
        ",\"references\":[{{\"name\":\"r\",\"interfaceName\":\"I{bundle}\",\"policy\":{policy}}}]"
    )
}

// The references of a bundle: the first one has none, any other one on the interface of a bundle before it.
fn references_at(alloc: Global, number: u64, bundle: u64) -> Result<String, OutOfMemory>
    requires number { number < 2147483648 }
    requires bundle { 0 < bundle }
    ensures { IfOk result (λ text. string_bytes text ≡ references_at number bundle) }
{
    if bundle == 1 {
        return Ok(String::new(alloc));
    }
    let first = next_of(number);
    let second = next_of(first);
    let policy = policy_text(drawn(second, 4));
    reference_text(alloc, drawn(first, bundle - 1) + 1, policy)
}

// The line that installs a bundle.
pub(crate) fn install_at(alloc: Global, number: u64, bundle: u64) -> Result<Str, OutOfMemory>
    requires number { number < 2147483648 }
    requires bundle { 0 < bundle }
    ensures { IfOk result (λ text. text ≡ install_line bundle (references_at number bundle)) }
{
    let references = references_at(alloc, number, bundle)?;
    let text = install_line(alloc, bundle, references.as_str())?;
    Ok(Str::of(text))
}

fn install_line(alloc: Global, bundle: u64, references: &str) -> Result<String, OutOfMemory>
    ensures { IfOk result (λ text. string_bytes text ≡ install_line bundle references.now) }
{
    format!(in alloc;
        "install {{\"location\":\"g{bundle}\",\"components\":{{\"a\":{{\"name\":\"g{bundle}\",\"implementationClass\":\"G\",\"immediate\":true,\"serviceInterfaces\":[\"I{bundle}\"]{references}}}}}}}"
    )
}

// The number behind what is drawn for a bundle.
pub(crate) fn after_install(number: u64, bundle: u64) -> u64
    requires { number < 2147483648 }
    ensures number { result ≡ after_install number bundle }
    ensures below { result < 2147483648 }
{
    if bundle == 1 {
        number
    } else {
        next_of(next_of(number))
    }
}

// The line that starts a bundle.
pub(crate) fn start_line(alloc: Global, bundle: u64) -> Result<Str, OutOfMemory>
    ensures { IfOk result (λ text. text ≡ start_line bundle) }
{
    let text = format!(in alloc; "start {bundle}")?;
    Ok(Str::of(text))
}

// A command by its kind, its bundle and a value.
fn command_line(alloc: Global, kind: u64, bundle: u64, value: u64) -> Result<String, OutOfMemory>
    ensures { IfOk result (λ text. string_bytes text ≡ command_line kind bundle value) }
{
    match kind {
        0 => format!(in alloc; "stop {bundle}"),
        1 => format!(in alloc; "start {bundle}"),
        2 => format!(in alloc; "config g{bundle} {{\"v\":{value}}}"),
        _ => format!(in alloc; "unconfig g{bundle}"),
    }
}

// The kind of the next command.
fn kind_at(number: u64) -> u64
    requires { number < 2147483648 }
    ensures { result ≡ kind_at number }
{
    drawn(next_of(next_of(number)), 4)
}

// The number behind what is drawn for a command: a value is drawn for a configuration alone.
pub(crate) fn after_command(number: u64) -> u64
    requires { number < 2147483648 }
    ensures number { result ≡ after_command number }
    ensures below { result < 2147483648 }
{
    let second = next_of(next_of(number));
    if drawn(second, 4) == 2 {
        next_of(second)
    } else {
        second
    }
}

// The line of the next command.
pub(crate) fn command_at(alloc: Global, number: u64, bundles: u64) -> Result<Str, OutOfMemory>
    requires number { number < 2147483648 }
    requires bundles { 0 < bundles }
    ensures { IfOk result (λ text. text ≡ command_at number bundles) }
{
    let kind = kind_at(number);
    let bundle = drawn(next_of(number), bundles) + 1;
    let value = drawn(after_command(number), 100);
    Ok(Str::of(command_line(alloc, kind, bundle, value)?))
}
