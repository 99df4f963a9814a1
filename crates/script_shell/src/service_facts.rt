//! What the line `service` asks.
ghost use Rattle.platform_hall.specs.Platforms.{world};
ghost use Rattle.script_shell.specs.Carries.{CarriesReading};
ghost use Rattle.script_shell.specs.ServiceFacts.{facts_reply, holder_fact, own_facts, properties_fact, provider_fact, service_facts, service_reply, use_fact};
ghost use Rattle.std.specs.Prelude.{◌≡◌, ◌++◌, IfOk, OnOk, map};

use prop_map::{Copies, List, OutOfMemory, Str};
use scr_readers::{ServiceHolder, ServiceUse, ServiceView};
use scr_report::{Core, properties_text};
use scr_world::CoreFault;
use service_registry::ServiceRow;
use shell_lang::{Refusal, ServiceFact, ShellReply};
use std::alloc::Global;
use turn_runner::SettleFault;

// What is told of a service, where it is registered and isn't that of the platform.
pub(crate) fn about_service(
    alloc: Global,
    core: &Core,
    service: u64,
) -> Result<ShellReply, SettleFault>
    ensures { CarriesReading (service_reply (world core.now) service) result }
{
    match core.service(alloc, service)? {
        Some(view) => facts_reply(alloc, &view),
        None => {
            let fault = CoreFault::NoService { service };
            Ok(ShellReply::Refused(Refusal::Core { fault }))
        }
    }
}

fn facts_reply(alloc: Global, view: &ServiceView) -> Result<ShellReply, SettleFault>
    ensures { CarriesReading (facts_reply view.now) result }
{
    let facts = service_facts(alloc, view)?;
    Ok(ShellReply::ServiceFacts(List::of(facts)))
}

fn service_facts(alloc: Global, view: &ServiceView) -> Result<Vec<ServiceFact>, OutOfMemory>
    ensures { IfOk result (λ v. v.items ≡ service_facts view.now) }
{
    let mut facts = Vec::new(alloc);
    add_facts(alloc, &mut facts, view)?;
    Ok(facts)
}

fn add_facts(
    alloc: Global,
    facts: &mut Vec<ServiceFact>,
    view: &ServiceView,
) -> Result<(), OutOfMemory>
    ensures { OnOk result (facts.new.items ≡ facts.old.items ++ service_facts view.now) }
{
    add_own_facts(alloc, facts, view)?;
    add_uses(facts, view.uses.as_slice())?;
    add_holders(alloc, facts, view.holders.as_slice())
}

// The service itself, its component configuration and its properties.
fn add_own_facts(
    alloc: Global,
    facts: &mut Vec<ServiceFact>,
    view: &ServiceView,
) -> Result<(), OutOfMemory>
    ensures { OnOk result (facts.new.items ≡ facts.old.items ++ own_facts view.now) }
{
    facts.push(ServiceFact::Row(view.row.copy(alloc)?))?;
    facts.push(provider_fact(view.provider))?;
    facts.push(properties_fact(alloc, &view.row)?)?;
    Ok(())
}

fn provider_fact(provider: Option<u64>) -> ServiceFact
    ensures { result ≡ provider_fact provider }
{
    match provider {
        Some(number) => ServiceFact::Component(number),
        None => ServiceFact::Direct,
    }
}

fn properties_fact(alloc: Global, row: &ServiceRow) -> Result<ServiceFact, OutOfMemory>
    ensures { IfOk result (λ fact. fact ≡ properties_fact row.now) }
{
    let text = properties_text(alloc, &row.properties)?;
    Ok(ServiceFact::Properties(Str::of(text)))
}

// The bundles that use it.
fn add_uses(facts: &mut Vec<ServiceFact>, uses: &[ServiceUse]) -> Result<(), OutOfMemory>
    ensures { OnOk result (facts.new.items ≡ facts.old.items ++ map use_fact uses.now) }
{
    for row in uses {
        facts.push(use_fact(row))?;
    }
    Ok(())
}

fn use_fact(row: &ServiceUse) -> ServiceFact
    ensures { result ≡ use_fact row.now }
{
    ServiceFact::Uses {
        bundle: row.bundle,
        count: row.count,
    }
}

// The instances that hold it.
fn add_holders(
    alloc: Global,
    facts: &mut Vec<ServiceFact>,
    holders: &[ServiceHolder],
) -> Result<(), OutOfMemory>
    ensures { OnOk result (facts.new.items ≡ facts.old.items ++ map holder_fact holders.now) }
{
    for row in holders {
        facts.push(holder_fact(alloc, row)?)?;
    }
    Ok(())
}

fn holder_fact(alloc: Global, row: &ServiceHolder) -> Result<ServiceFact, OutOfMemory>
    ensures { IfOk result (λ fact. fact ≡ holder_fact row.now) }
{
    Ok(ServiceFact::Held {
        configuration: row.configuration,
        instance: row.instance,
        reference: row.reference.copy(alloc)?,
    })
}
