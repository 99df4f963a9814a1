//! What the platform has of its own: the service of its condition (OSGi Core 8, "Condition Service Specification"), and the
//! component configuration of the whiteboard (OSGi Compendium 8, chapter 140).
ghost use Rattle.component_state.specs.declared.component.Component.{Component};
ghost use Rattle.scr_world.specs.Whiteboard.{condition, reference_to_all, whiteboard_component, whiteboard_description, whiteboard_references};
ghost use Rattle.reference_match.specs.Needs.{need_of};
ghost use Rattle.reference_match.specs.declared.need.Need.{Need};
ghost use Rattle.service_registry.specs.declared.row.ServiceRow.{ServiceRow};
ghost use Rattle.std.specs.Option.{option_copied};
ghost use Rattle.std.specs.Prelude.{◌≡◌, ◌∷◌, [], IfOk, Some, codes};

use crate::known_needs::KnownNeed;
use component_dto::{ConfigurationPolicy, Description, Reference, Scope};
use component_state::Component;
use prop_map::{
    Cardinality, List, OutOfMemory, Policy, PolicyOption, Properties, Shared, Str, Value,
};
use reference_match::Need;
use service_registry::{Interfaces, ServiceRow, with_service_properties};
use std::alloc::Global;
use std::marker::Model;

/// What the platform has of its own, which no journal changes. It is made once.
#[derive(Drop)]
pub struct OwnRows {
    service: ServiceRow,
    component: Component,
    contexts: KnownNeed,
    servlets: KnownNeed,
}

impl Model for OwnRows {
    ghost use Rattle.scr_world.specs.Whiteboard.{condition, whiteboard_component};
    ghost use Rattle.std.specs.Prelude.{◌≡◌};

    ghost Value = { Unit {0} };

    ghost view = { λ o. tt };

    ghost invariant = { λ o. (o.service ≡ condition) × (o.component ≡ whiteboard_component) };
}

impl OwnRows {
    /// What it has.
    ///
    /// # Errors
    /// Only want of memory.
    pub fn new(alloc: Global) -> Result<OwnRows, OutOfMemory> {
        Ok(OwnRows {
            service: condition(alloc)?,
            component: whiteboard_component(alloc)?,
            contexts: known_need(alloc, contexts(alloc)?)?,
            servlets: known_need(alloc, servlets(alloc)?)?,
        })
    }

    /// The service of the condition, which has the number 0.
    pub fn condition(&self) -> &ServiceRow
        ensures { result.now ≡ condition }
    {
        &self.service
    }

    /// The component configuration of the whiteboard, which has the number 0.
    pub fn whiteboard(&self) -> &Component
        ensures { result.now ≡ whiteboard_component }
    {
        &self.component
    }

    /// What a reference of the whiteboard needs: none of any other reference.
    pub(crate) fn need_of(&self, reference: &Reference) -> Option<&Need>
        ensures { (need : Need) → option_copied result ≡ Some need → need ≡ need_of whiteboard_component.properties reference.now }
    {
        self.contexts
            .need_of(reference)
            .or(self.servlets.need_of(reference))
    }
}

// A reference of the whiteboard with what it needs.
fn known_need(alloc: Global, reference: Reference) -> Result<KnownNeed, OutOfMemory>
    ensures { IfOk result (λ known. known ≡ reference) }
{
    let properties = whiteboard_properties(alloc)?;
    KnownNeed::of(alloc, &properties, reference)
}

fn text(alloc: Global, text: &str) -> Result<Str, OutOfMemory>
    ensures { IfOk result (λ copy. copy ≡ text.now) }
{
    Ok(Str::of(String::from_str(alloc, text)?))
}

fn condition(alloc: Global) -> Result<ServiceRow, OutOfMemory>
    ensures { IfOk result (λ row. row ≡ condition) }
{
    let mut interfaces = Vec::new(alloc);
    interfaces.push(text(alloc, "org.osgi.service.condition.Condition")?)?;
    let mut given = Properties::new(alloc);
    given.set(
        alloc,
        "osgi.condition.id",
        Value::Text(text(alloc, "true")?),
    )?;
    let properties = with_service_properties(alloc, 0, 0, &interfaces, "singleton", given)?;
    Ok(ServiceRow {
        id: 0,
        bundle: 0,
        interfaces: Interfaces::of(alloc, List::of(interfaces))?,
        properties,
        revision: 0,
        direct: true,
    })
}

fn reference_to_all(
    alloc: Global,
    name: &str,
    interface: &str,
    target: &str,
) -> Result<Reference, OutOfMemory>
    ensures { IfOk result (λ reference. reference ≡ reference_to_all name.now interface.now target.now) }
{
    Ok(Reference {
        name: text(alloc, name)?,
        interface_name: text(alloc, interface)?,
        cardinality: Cardinality::ZeroOrMore,
        policy: Policy::Dynamic,
        policy_option: PolicyOption::Reluctant,
        target: Some(text(alloc, target)?),
        updated: None,
    })
}

const CONTEXT_TARGET: &str =
    "(&(osgi.http.whiteboard.context.name=*)(osgi.http.whiteboard.context.path=*))";

const SERVLET_TARGET: &str = "(osgi.http.whiteboard.servlet.pattern=*)";

fn contexts(alloc: Global) -> Result<Reference, OutOfMemory>
    ensures { IfOk result (λ reference. reference ≡ reference_to_all (codes "contexts") (codes "org.osgi.service.http.context.ServletContextHelper") (codes "(&(osgi.http.whiteboard.context.name=*)(osgi.http.whiteboard.context.path=*))")) }
{
    reference_to_all(
        alloc,
        "contexts",
        "org.osgi.service.http.context.ServletContextHelper",
        CONTEXT_TARGET,
    )
}

fn servlets(alloc: Global) -> Result<Reference, OutOfMemory>
    ensures { IfOk result (λ reference. reference ≡ reference_to_all (codes "servlets") (codes "javax.servlet.Servlet") (codes "(osgi.http.whiteboard.servlet.pattern=*)")) }
{
    reference_to_all(alloc, "servlets", "javax.servlet.Servlet", SERVLET_TARGET)
}

fn whiteboard_references(alloc: Global) -> Result<List<Reference>, OutOfMemory>
    ensures { IfOk result (λ references. references ≡ whiteboard_references) }
{
    let mut references = Vec::new(alloc);
    references.push(contexts(alloc)?)?;
    references.push(servlets(alloc)?)?;
    Ok(List::of(references))
}

fn whiteboard_description(alloc: Global) -> Result<Description, OutOfMemory>
    ensures { IfOk result (λ description. description ≡ whiteboard_description) }
{
    Ok(Description {
        name: text(alloc, "whiteboard")?,
        scope: Scope::Singleton,
        implementation_class: text(alloc, "")?,
        default_enabled: true,
        immediate: true,
        service_interfaces: List::of(Vec::new(alloc)),
        properties: Properties::new(alloc),
        references: whiteboard_references(alloc)?,
        modified: None,
        configuration_policy: ConfigurationPolicy::Optional,
        configuration_pids: List::of(Vec::new(alloc)),
        implicit: false,
    })
}

fn whiteboard_properties(alloc: Global) -> Result<Properties, OutOfMemory>
    ensures { IfOk result (λ properties. properties ≡ whiteboard_component.properties) }
{
    let mut properties = Properties::new(alloc);
    let contexts = Value::Text(text(alloc, CONTEXT_TARGET)?);
    properties.set(alloc, "contexts.target", contexts)?;
    let servlets = Value::Text(text(alloc, SERVLET_TARGET)?);
    properties.set(alloc, "servlets.target", servlets)?;
    let name = Value::Text(text(alloc, "whiteboard")?);
    properties.set(alloc, "component.name", name)?;
    properties.set(alloc, "component.id", Value::Whole(0))?;
    Ok(properties)
}

fn whiteboard_component(alloc: Global) -> Result<Component, OutOfMemory>
    ensures { IfOk result (λ component. component ≡ whiteboard_component) }
{
    let description = whiteboard_description(alloc)?;
    Ok(Component {
        number: 0,
        bundle: 0,
        index: 0,
        pid: None,
        exists: true,
        description: Shared::of(alloc, description)?,
        configured: true,
        properties: whiteboard_properties(alloc)?,
        changed: None,
    })
}
