//! The lines of routes.
ghost use Rattle.std.specs.Prelude.{◌≡◌, IfOk, codes, string_bytes};
ghost use Rattle.shell_lang.specs.RouteTexts.{cause_text, effect_text, failed_text, route_text, shown_pattern};

use crate::RouteLine;
use crate::row_text::Row;
use prop_map::OutOfMemory;
use std::alloc::Global;
use wb_routes::RouteCause;

impl Row for RouteLine {
    ghost row_text = { route_text };

    fn text(&self, alloc: Global) -> Result<String, OutOfMemory> {
        match self {
            RouteLine::Route {
                path,
                pattern,
                service,
            } => effect_text(
                alloc,
                path.as_str(),
                shown_pattern(pattern.as_str()),
                *service,
            ),
            RouteLine::Failed { service, cause } => {
                failed_text(alloc, *service, cause_text(*cause))
            }
        }
    }
}

fn effect_text(alloc: Global, path: &str, shown: &str, service: u64) -> Result<String, OutOfMemory>
    ensures { IfOk result (λ text. string_bytes text ≡ effect_text path.now shown.now service) }
{
    format!(in alloc; "route {path} {shown} {service}\n")
}

// The empty pattern is told as two quotes.
fn shown_pattern(pattern: &str) -> &str
    ensures { result.now ≡ shown_pattern pattern.now }
{
    if pattern.is_empty() { "\"\"" } else { pattern }
}

fn failed_text(alloc: Global, service: u64, cause: &str) -> Result<String, OutOfMemory>
    ensures { IfOk result (λ text. string_bytes text ≡ failed_text service cause.now) }
{
    format!(in alloc; "failed {service} {cause}\n")
}

fn cause_text(cause: RouteCause) -> &'static str
    ensures { result.now ≡ cause_text cause }
{
    match cause {
        RouteCause::NoContext => "NoContext",
        RouteCause::Shadowed => "Shadowed",
        RouteCause::BadPattern => "BadPattern",
        RouteCause::BadContext => "BadContext",
    }
}
