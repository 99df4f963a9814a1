//! References with what is in effect for them, as JSON (OSGi Compendium 8, chapter 112, "ReferenceDTO",
//! "SatisfiedReferenceDTO", "UnsatisfiedReferenceDTO").
ghost use Rattle.scr_report.specs.DetailData.{cardinality_text, policy_option_text, policy_text, reference_data, satisfied_details, unsatisfied_details};
ghost use Rattle.scr_report.specs.DetailMembers.{with_reference, with_services, with_words};
ghost use Rattle.serde_json.specs.View.{members_view, view};
ghost use Rattle.std.specs.Prelude.{◌≡◌, IfOk, OnOk};

use crate::lists::{list_of, numbers, put_text, text_or_null};
use prop_map::{Cardinality, OutOfMemory, Policy, PolicyOption};
use scr_readers::{ReferenceDetails, ReferenceState};
use serde_json::{Map, Value, put};
use std::alloc::Global;

/// Those with their minimum of targets, in order.
pub(crate) fn satisfied_details(
    alloc: Global,
    references: &[ReferenceDetails],
) -> Result<Value, OutOfMemory>
    ensures { IfOk result (λ value. view value ≡ satisfied_details references.now) }
{
    let mut items = Vec::new(alloc);
    for reference in references {
        if reference.state.satisfied {
            items.push(reference_value(alloc, reference)?)?;
        }
    }
    Ok(list_of(items))
}

/// The others, in order.
pub(crate) fn unsatisfied_details(
    alloc: Global,
    references: &[ReferenceDetails],
) -> Result<Value, OutOfMemory>
    ensures { IfOk result (λ value. view value ≡ unsatisfied_details references.now) }
{
    let mut items = Vec::new(alloc);
    for reference in references {
        if !reference.state.satisfied {
            items.push(reference_value(alloc, reference)?)?;
        }
    }
    Ok(list_of(items))
}

fn reference_value(alloc: Global, reference: &ReferenceDetails) -> Result<Value, OutOfMemory>
    ensures { IfOk result (λ value. view value ≡ reference_data reference.now) }
{
    let mut members = Map::new(alloc);
    put_members(alloc, &mut members, reference)?;
    Ok(Value::Object(members))
}

fn put_members(
    alloc: Global,
    members: &mut Map<String, Value>,
    reference: &ReferenceDetails,
) -> Result<(), OutOfMemory>
    ensures { OnOk result (members_view members.new.entries ≡ with_reference reference.now (members_view members.old.entries)) }
{
    put_words(alloc, members, reference)?;
    put_services(alloc, members, &reference.state)
}

// What the reference asks for.
fn put_words(
    alloc: Global,
    members: &mut Map<String, Value>,
    reference: &ReferenceDetails,
) -> Result<(), OutOfMemory>
    ensures { OnOk result (members_view members.new.entries ≡ with_words reference.now (members_view members.old.entries)) }
{
    put_text(
        alloc,
        members,
        "cardinality",
        cardinality_text(reference.cardinality),
    )?;
    put_text(
        alloc,
        members,
        "interfaceName",
        reference.interface_name.as_str(),
    )?;
    put(members, alloc, "minimum", Value::from(reference.minimum))?;
    put_text(alloc, members, "policy", policy_text(reference.policy))?;
    put_text(
        alloc,
        members,
        "policyOption",
        policy_option_text(reference.policy_option),
    )
}

// Its name, its target, what it can take and what is bound to it.
fn put_services(
    alloc: Global,
    members: &mut Map<String, Value>,
    state: &ReferenceState,
) -> Result<(), OutOfMemory>
    ensures { OnOk result (members_view members.new.entries ≡ with_services state.now (members_view members.old.entries)) }
{
    put(
        members,
        alloc,
        "boundServices",
        numbers(alloc, state.bound.as_slice())?,
    )?;
    put_text(alloc, members, "name", state.name.as_str())?;
    put(
        members,
        alloc,
        "target",
        text_or_null(alloc, state.target.as_ref())?,
    )?;
    put(
        members,
        alloc,
        "targetServices",
        numbers(alloc, state.targets.as_slice())?,
    )
}

fn cardinality_text(cardinality: Cardinality) -> &'static str
    ensures { result.now ≡ cardinality_text cardinality }
{
    match cardinality {
        Cardinality::ZeroOrOne => "0..1",
        Cardinality::One => "1..1",
        Cardinality::ZeroOrMore => "0..n",
        Cardinality::OneOrMore => "1..n",
    }
}

fn policy_text(policy: Policy) -> &'static str
    ensures { result.now ≡ policy_text policy }
{
    match policy {
        Policy::Static => "static",
        Policy::Dynamic => "dynamic",
    }
}

fn policy_option_text(option: PolicyOption) -> &'static str
    ensures { result.now ≡ policy_option_text option }
{
    match option {
        PolicyOption::Reluctant => "reluctant",
        PolicyOption::Greedy => "greedy",
    }
}
