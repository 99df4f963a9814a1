//! The forms of lines, by their first word.
ghost use Rattle.std.specs.Prelude.{◌≡◌, option_map};
ghost use Rattle.shell_lang.specs.LineFaults.{Reads};
ghost use Rattle.shell_lang.specs.ShellLines.{alone, asking_configuration, bundle_line, calling, carrying_line, configuring, configuring_factory, configuring_line, finding, installing, listening, listing_line, named_line, paired_line, reading_line, registering, setting, telling_line, unconfiguring, updating, wiring, worded_line};

use crate::arguments::{owned, read_document, read_filter, read_properties};
use crate::interfaces::interfaces_at;
use crate::line_help::helping;
use crate::requesting::requesting;
use crate::words::{
    nothing_at, number_and_text, number_and_word, number_at, only_number, only_word, text_at,
    two_numbers, two_numbers_and_text, two_words_and_text, word_and_text, word_at,
};
use crate::{LineFault, ShellLine};
use scr_world::Command;
use std::alloc::Global;

// What a line asks by its first word and what follows it.
pub(crate) fn worded_line(
    alloc: Global,
    word: &str,
    rest: Option<&str>,
) -> Result<ShellLine, LineFault>
    ensures { Reads (worded_line word.now (option_map (λ t. t.now) rest.entry)) result }
{
    match word {
        "quit" => alone(ShellLine::Quit, rest),
        "bundles" => alone(ShellLine::Bundles, rest),
        "services" => alone(ShellLine::Services, rest),
        "components" => alone(ShellLine::Components, rest),
        "routes" => alone(ShellLine::Routes, rest),
        "settle" => alone(ShellLine::Settle, rest),
        "begin" => alone(ShellLine::Begin, rest),
        "help" => helping(alloc, rest),
        _ => listing_line(alloc, word, rest),
    }
}

fn listing_line(alloc: Global, word: &str, rest: Option<&str>) -> Result<ShellLine, LineFault>
    ensures { Reads (listing_line word.now (option_map (λ t. t.now) rest.entry)) result }
{
    match word {
        "list" => alone(ShellLine::ListComponents, rest),
        "graph" => alone(ShellLine::Graph, rest),
        "configs" => alone(ShellLine::Configurations, rest),
        "listeners" => alone(ShellLine::Listeners, rest),
        "journal" => alone(ShellLine::Journal, rest),
        _ => bundle_line(alloc, word, rest),
    }
}

// A line of its word alone.
fn alone(line: ShellLine, rest: Option<&str>) -> Result<ShellLine, LineFault>
    ensures { Reads (alone line (option_map (λ t. t.now) rest.entry)) result }
{
    nothing_at(1, rest)?;
    Ok(line)
}

fn bundle_line(alloc: Global, word: &str, rest: Option<&str>) -> Result<ShellLine, LineFault>
    ensures { Reads (bundle_line word.now (option_map (λ t. t.now) rest.entry)) result }
{
    match word {
        "start" => Ok(ShellLine::Command(Command::Start {
            bundle: only_number(rest)?,
        })),
        "stop" => Ok(ShellLine::Command(Command::Stop {
            bundle: only_number(rest)?,
        })),
        "uninstall" => Ok(ShellLine::Command(Command::Uninstall {
            bundle: only_number(rest)?,
        })),
        "unlisten" => Ok(ShellLine::Command(Command::Unlisten {
            listener: only_number(rest)?,
        })),
        _ => reading_line(alloc, word, rest),
    }
}

fn reading_line(alloc: Global, word: &str, rest: Option<&str>) -> Result<ShellLine, LineFault>
    ensures { Reads (reading_line word.now (option_map (λ t. t.now) rest.entry)) result }
{
    match word {
        "report" => Ok(ShellLine::Report {
            configuration: only_number(rest)?,
        }),
        "held" => Ok(ShellLine::Held {
            configuration: only_number(rest)?,
        }),
        "trace" => Ok(ShellLine::Trace {
            after: only_number(rest)?,
        }),
        "bundle-events" => Ok(ShellLine::BundleEvents {
            after: only_number(rest)?,
        }),
        "finish" => Ok(ShellLine::Finish {
            turn: only_number(rest)?,
        }),
        "wiring" => wiring(rest),
        _ => telling_line(alloc, word, rest),
    }
}

fn telling_line(alloc: Global, word: &str, rest: Option<&str>) -> Result<ShellLine, LineFault>
    ensures { Reads (telling_line word.now (option_map (λ t. t.now) rest.entry)) result }
{
    match word {
        "details" => Ok(ShellLine::Details {
            configuration: only_number(rest)?,
        }),
        "service" => Ok(ShellLine::AboutService {
            service: only_number(rest)?,
        }),
        "descriptions" => Ok(ShellLine::Descriptions {
            bundle: only_number(rest)?,
        }),
        _ => paired_line(alloc, word, rest),
    }
}

// Without a number the wiring of all bundles is asked for.
fn wiring(rest: Option<&str>) -> Result<ShellLine, LineFault>
    ensures { Reads (wiring (option_map (λ t. t.now) rest.entry)) result }
{
    match rest {
        Some(_) => Ok(ShellLine::BundleWiring {
            bundle: only_number(rest)?,
        }),
        None => Ok(ShellLine::Wiring),
    }
}

fn paired_line(alloc: Global, word: &str, rest: Option<&str>) -> Result<ShellLine, LineFault>
    ensures { Reads (paired_line word.now (option_map (λ t. t.now) rest.entry)) result }
{
    match word {
        "unregister" => {
            let (bundle, service) = two_numbers(rest)?;
            Ok(ShellLine::Command(Command::Unregister { bundle, service }))
        }
        "get" => {
            let (bundle, service) = two_numbers(rest)?;
            Ok(ShellLine::Command(Command::Get { bundle, service }))
        }
        "unget" => {
            let (bundle, service) = two_numbers(rest)?;
            Ok(ShellLine::Command(Command::Unget { bundle, service }))
        }
        "events" => {
            let (listener, after) = two_numbers(rest)?;
            Ok(ShellLine::Events { listener, after })
        }
        _ => named_line(alloc, word, rest),
    }
}

fn named_line(alloc: Global, word: &str, rest: Option<&str>) -> Result<ShellLine, LineFault>
    ensures { Reads (named_line word.now (option_map (λ t. t.now) rest.entry)) result }
{
    match word {
        "enable" => {
            let (bundle, name) = number_and_word(rest)?;
            let name = owned(alloc, name)?;
            Ok(ShellLine::Command(Command::Enable { bundle, name }))
        }
        "disable" => {
            let (bundle, name) = number_and_word(rest)?;
            let name = owned(alloc, name)?;
            Ok(ShellLine::Command(Command::Disable { bundle, name }))
        }
        _ => carrying_line(alloc, word, rest),
    }
}

fn carrying_line(alloc: Global, word: &str, rest: Option<&str>) -> Result<ShellLine, LineFault>
    ensures { Reads (carrying_line word.now (option_map (λ t. t.now) rest.entry)) result }
{
    match word {
        "install" => installing(alloc, rest),
        "update" => updating(alloc, rest),
        "register" => registering(alloc, rest),
        "set" => setting(alloc, rest),
        "listen" => listening(alloc, rest),
        "find" => finding(alloc, rest),
        "call" => calling(alloc, rest),
        "http" => requesting(alloc, rest),
        _ => configuring_line(alloc, word, rest),
    }
}

fn configuring_line(alloc: Global, word: &str, rest: Option<&str>) -> Result<ShellLine, LineFault>
    ensures { Reads (configuring_line word.now (option_map (λ t. t.now) rest.entry)) result }
{
    match word {
        "config" => configuring(alloc, rest),
        "factory" => configuring_factory(alloc, rest),
        "unconfig" => unconfiguring(alloc, rest),
        "configuration" => asking_configuration(alloc, rest),
        _ => Err(LineFault::UnknownCommand),
    }
}

fn installing(alloc: Global, rest: Option<&str>) -> Result<ShellLine, LineFault>
    ensures { Reads (installing (option_map (λ t. t.now) rest.entry)) result }
{
    let text = text_at(1, rest)?;
    let doc = read_document(alloc, text)?;
    Ok(ShellLine::Command(Command::Install { doc }))
}

fn updating(alloc: Global, rest: Option<&str>) -> Result<ShellLine, LineFault>
    ensures { Reads (updating (option_map (λ t. t.now) rest.entry)) result }
{
    let (bundle, text) = number_and_text(rest)?;
    let doc = read_document(alloc, text)?;
    Ok(ShellLine::Command(Command::Update { bundle, doc }))
}

fn registering(alloc: Global, rest: Option<&str>) -> Result<ShellLine, LineFault>
    ensures { Reads (registering (option_map (λ t. t.now) rest.entry)) result }
{
    let (bundle, rest) = number_at(1, rest)?;
    let (word, rest) = word_at(2, rest)?;
    let interfaces = interfaces_at(alloc, 2, word)??;
    let text = text_at(3, rest)?;
    let properties = read_properties(alloc, text)?;
    Ok(ShellLine::Command(Command::Register {
        bundle,
        interfaces,
        properties,
    }))
}

fn setting(alloc: Global, rest: Option<&str>) -> Result<ShellLine, LineFault>
    ensures { Reads (setting (option_map (λ t. t.now) rest.entry)) result }
{
    let (bundle, service, text) = two_numbers_and_text(rest)?;
    let properties = read_properties(alloc, text)?;
    Ok(ShellLine::Command(Command::SetProperties {
        bundle,
        service,
        properties,
    }))
}

fn listening(alloc: Global, rest: Option<&str>) -> Result<ShellLine, LineFault>
    ensures { Reads (listening (option_map (λ t. t.now) rest.entry)) result }
{
    let (bundle, text) = number_and_text(rest)?;
    let filter = read_filter(alloc, text)?;
    Ok(ShellLine::Command(Command::Listen { bundle, filter }))
}

fn finding(alloc: Global, rest: Option<&str>) -> Result<ShellLine, LineFault>
    ensures { Reads (finding (option_map (λ t. t.now) rest.entry)) result }
{
    let text = text_at(1, rest)?;
    let filter = read_filter(alloc, text)?;
    Ok(ShellLine::Find { filter })
}

fn configuring(alloc: Global, rest: Option<&str>) -> Result<ShellLine, LineFault>
    ensures { Reads (configuring (option_map (λ t. t.now) rest.entry)) result }
{
    let (pid, text) = word_and_text(rest)?;
    let properties = read_properties(alloc, text)?;
    let pid = owned(alloc, pid)?;
    Ok(ShellLine::Command(Command::Configure { pid, properties }))
}

fn configuring_factory(alloc: Global, rest: Option<&str>) -> Result<ShellLine, LineFault>
    ensures { Reads (configuring_factory (option_map (λ t. t.now) rest.entry)) result }
{
    let (factory, name, text) = two_words_and_text(rest)?;
    let properties = read_properties(alloc, text)?;
    let factory = owned(alloc, factory)?;
    let name = owned(alloc, name)?;
    Ok(ShellLine::Command(Command::ConfigureFactory {
        factory,
        name,
        properties,
    }))
}

fn calling(alloc: Global, rest: Option<&str>) -> Result<ShellLine, LineFault>
    ensures { Reads (calling (option_map (λ t. t.now) rest.entry)) result }
{
    let (bundle, service, text) = two_numbers_and_text(rest)?;
    let request = owned(alloc, text)?;
    Ok(ShellLine::Call {
        bundle,
        service,
        request,
    })
}

fn unconfiguring(alloc: Global, rest: Option<&str>) -> Result<ShellLine, LineFault>
    ensures { Reads (unconfiguring (option_map (λ t. t.now) rest.entry)) result }
{
    let pid = only_word(rest)?;
    let pid = owned(alloc, pid)?;
    Ok(ShellLine::Command(Command::Unconfigure { pid }))
}

fn asking_configuration(alloc: Global, rest: Option<&str>) -> Result<ShellLine, LineFault>
    ensures { Reads (asking_configuration (option_map (λ t. t.now) rest.entry)) result }
{
    let pid = only_word(rest)?;
    let pid = owned(alloc, pid)?;
    Ok(ShellLine::Configuration { pid })
}
