//! A description read from JSON.
ghost use Rattle.std.specs.Prelude.{◌≡◌, IfOk, map};
ghost use Rattle.serde_json.specs.View.{view};
ghost use Rattle.component_dto.specs.Descriptions.{described, description_of};
ghost use Rattle.component_dto.specs.Faults.{Reads};
ghost use Rattle.component_dto.specs.declared.references.ReferenceFields.{ReferenceFields};

use crate::given_fields::{GivenFields, given_fields};
use crate::references::ReferenceFields;
use crate::rules::is_implicit;
use crate::{Description, DescriptionFault, Reference};
use prop_map::{List, OutOfMemory, Str};
use serde_json::Value;
use std::alloc::Global;

/// Reads a description from a JSON value. A field that is null counts as missing, and fields that no rule names are passed
/// over. Repeated interfaces count once, and the empty target is none. `$` among the configuration PIDs stands for the name,
/// and then repeated ones count once, at their first place.
///
/// # Errors
/// The first fault, in this order. `WrongType` of `component` where the value is no object. Those of the fields: name,
/// factory, scope, implementationClass, defaultEnabled, immediate, serviceInterfaces, properties, references, activate,
/// deactivate, modified, configurationPolicy, configurationPid, and in each reference name, interfaceName, cardinality,
/// policy, policyOption, target, updated, scope: `WrongType` exactly where a field is given that isn't of its type (a list
/// as a whole before its items), `BadWord` where it is a text that is none of its words, `MissingField` where
/// implementationClass or interfaceName is missing or empty, `BadProperty` where a property is at fault. Then
/// `FactoryComponent` where a factory is named; `PrototypeReference` where a reference has another scope than `bundle`;
/// `SameReference` where a reference has the name of one before it; `ImmediateScope` where it is immediate, be it by
/// default, and the scope isn't `singleton`; `DelayedWithoutService` where it is given as not immediate and has no
/// interface; `BadTarget` of the first reference whose target is no filter; `TooManyPids` where there are more than
/// four different configuration PIDs. `OutOfMemory` may come at any place.
pub fn read_description(alloc: Global, json: &Value) -> Result<Description, DescriptionFault>
    ensures { Reads result (description_of (view json.now)) }
{
    if !json.is_object() {
        return Err(DescriptionFault::WrongType {
            field: Str::spell(alloc, "component")?,
        });
    }
    let fields = given_fields(alloc, json)?;
    fields.check_rules(alloc)?;
    Ok(fields.description(alloc)?)
}

impl GivenFields {
    // The description that these fields give.
    fn description(self, alloc: Global) -> Result<Description, OutOfMemory>
        ensures { IfOk result (λ description. description ≡ described self) }
    {
        let immediate = self.is_immediate();
        let implicit = is_implicit(self.references.as_slice());
        Ok(Description {
            name: self.name,
            scope: self.scope,
            implementation_class: self.implementation_class,
            default_enabled: self.default_enabled,
            immediate,
            service_interfaces: self.service_interfaces,
            properties: self.properties,
            references: references(alloc, self.references)?,
            modified: self.modified,
            configuration_policy: self.configuration_policy,
            configuration_pids: self.configuration_pids,
            implicit,
        })
    }
}

fn references(alloc: Global, fields: List<ReferenceFields>) -> Result<List<Reference>, OutOfMemory>
    ensures { IfOk result (λ references. references ≡ map (λ (r : ReferenceFields). r.reference) fields) }
{
    let references = fields.items().into_iter().map(|fields| fields.reference);
    Ok(List::of(references.collect(alloc)?))
}
