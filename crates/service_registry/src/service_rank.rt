//! Which of two services is the better one (OSGi Core 8, section 5.2.5, `service.ranking`).
ghost use Rattle.service_registry.specs.Services.{better, ranked, ranking, ranking_in};
ghost use Rattle.std.specs.Option.{option_copied};
ghost use Rattle.std.specs.Prelude.{◌≡◌};

use crate::{Ranked, ServiceRow};
use prop_map::{Properties, Value};

/// The ranking that properties tell: `service.ranking` where it is a whole number of 32 bits with a sign, else 0. It
/// takes no memory.
pub fn ranking(properties: &Properties) -> i64
    ensures { result ≡ ranking properties.now }
{
    ranking_in(properties.get("service.ranking"))
}

fn ranking_in(value: Option<&Value>) -> i64
    ensures { result ≡ ranking_in (option_copied value.entry) }
{
    match value {
        Some(Value::Whole(number)) => {
            if -2147483648 <= *number && *number <= 2147483647 {
                *number
            } else {
                0
            }
        }
        _ => 0,
    }
}

/// Whether the first service is better: its ranking is higher, or both rank alike and its number is lower. It takes no
/// memory.
pub fn better(a: &ServiceRow, b: &ServiceRow) -> bool
    ensures { result ≡ better a.now b.now }
{
    let (x, y) = (ranking(&a.properties), ranking(&b.properties));
    y < x || (x == y && a.id < b.id)
}

/// What says how good a service is.
pub fn ranked(service: &ServiceRow) -> Ranked
    ensures { result ≡ ranked service.now }
{
    Ranked {
        ranking: ranking(&service.properties),
        id: service.id,
    }
}
