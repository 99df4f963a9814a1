//! The lines of what is told of a service.
ghost use Rattle.shell_lang.specs.ServiceTexts.{holder_text, service_fact_text, uses_text};
ghost use Rattle.std.specs.Prelude.{◌≡◌, IfOk, string_bytes};

use crate::ServiceFact;
use crate::row_text::Row;
use prop_map::OutOfMemory;
use std::alloc::Global;

impl Row for ServiceFact {
    ghost row_text = { service_fact_text };

    fn text(&self, alloc: Global) -> Result<String, OutOfMemory> {
        match self {
            ServiceFact::Row(row) => row.text(alloc),
            ServiceFact::Component(number) => format!(in alloc; "component {number}\n"),
            ServiceFact::Direct => String::from_str(alloc, "direct\n"),
            ServiceFact::Properties(text) => format!(in alloc; "properties {}\n", text.as_str()),
            ServiceFact::Uses { bundle, count } => uses_text(alloc, *bundle, *count),
            ServiceFact::Held {
                configuration,
                instance,
                reference,
            } => holder_text(alloc, *configuration, *instance, reference.as_str()),
        }
    }
}

fn uses_text(alloc: Global, bundle: u64, count: u32) -> Result<String, OutOfMemory>
    ensures { IfOk result (λ text. string_bytes text ≡ uses_text bundle count) }
{
    format!(in alloc; "uses {bundle} {count}\n")
}

fn holder_text(
    alloc: Global,
    configuration: u64,
    instance: u64,
    reference: &str,
) -> Result<String, OutOfMemory>
    ensures { IfOk result (λ text. string_bytes text ≡ holder_text configuration instance reference.now) }
{
    format!(in alloc; "held {configuration} {instance} {reference}\n")
}
