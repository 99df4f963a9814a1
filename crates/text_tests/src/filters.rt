ghost use Rattle.std.specs.Prelude.{◌≡◌, ◌<◌};

use crate::shown::is_printed;
use ldap_filter::{Filter, FilterFault, Steps};
use prop_map::{Copies, Properties, Value};
use std::alloc::Global;
use std::marker::Brand;
use std::sync::ledger::{Blank, Ledger};

// Properties with 1 at `a`.
fn one_at_a(alloc: Global) -> Properties {
    let mut properties = Properties::new(alloc);
    let _set = properties.set(alloc, "a", Value::Whole(1)).is_ok();
    properties
}

fn copy_is_same(alloc: Global, filter: &Filter) -> bool {
    match filter.copy(alloc) {
        Ok(copy) => copy == *filter,
        Err(_) => false,
    }
}

// Whether the filter of a text has a copy that is the same, and matches 1 at `a`, and nothing where nothing is.
fn finds(alloc: Global, text: &str) -> bool {
    match Filter::parse(alloc, text) {
        Ok(filter) => {
            !filter.matches(&Properties::new(alloc))
                && filter.matches(&one_at_a(alloc))
                && copy_is_same(alloc, &filter)
        }
        Err(_) => false,
    }
}

#[test]
fn services_are_found_by_a_filter(rt: HostRuntime) {
    assert!(rt; finds(rt.alloc(), " ( & (A =1)(!(b=x*y)) ) "));
}

fn counted<L: Ledger>(blank: Blank, filter: &Filter, properties: &Properties) -> bool
    requires name { blank.name ≡ L.name }
    requires parts { blank.parts ≡ L.parts }
    requires some { 0 < blank.parts }
{
    let mut steps = Steps::<L>::new(blank);
    filter.matches_counted(properties, &mut steps)
}

#[test]
fn a_match_may_be_counted(rt: HostRuntime) {
    let alloc = rt.alloc();
    let filter = Filter::parse(alloc, "(!(a=*))").expect(&rt, "a filter");
    assert!(rt; counted::<Brand>(Blank::new(1), &filter, &Properties::new(alloc)));
}

fn ends_at(alloc: Global, text: &str, place: usize) -> bool {
    match Filter::parse(alloc, text) {
        Ok(_) => false,
        Err(fault) => {
            fault
                == FilterFault::BadFilter {
                    at: place,
                    ended: false,
                }
        }
    }
}

#[test]
fn a_fault_tells_its_place(rt: HostRuntime) {
    let alloc = rt.alloc();
    let deep = FilterFault::TooDeep { at: 128 };
    assert!(rt;
        ends_at(alloc, "(é=ü)é", 7)
            && is_printed(alloc, &deep, "the bracket at 128 is one too deep")
    );
}
