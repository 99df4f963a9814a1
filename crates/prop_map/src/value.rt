//! Values of properties (OSGi Core 8, section 5.2.5 "Service Properties").
ghost use Rattle.prop_map.specs.Sameness.{same_value, values_equiv};
ghost use Rattle.std.specs.Cmp.{partial_equiv_from_equiv};

use crate::{Copies, List, OutOfMemory, Str};
use std::alloc::Global;

/// The value of a property.
#[derive(Debug, Drop)]
pub enum Value {
    /// A text.
    Text(Str),
    /// A whole number.
    Whole(i64),
    /// A flag.
    Flag(bool),
    /// Texts in order. A list without items is this one.
    Texts(List<Str>),
    /// Whole numbers in order.
    Wholes(List<i64>),
    /// Flags in order.
    Flags(List<bool>),
}

impl PartialEq for Value {
    ghost eq = { same_value };

    ghost laws = { partial_equiv_from_equiv values_equiv };

    fn eq(&self, other: &Value) -> bool {
        match (self, other) {
            (Value::Text(a), Value::Text(b)) => a == b,
            (Value::Whole(a), Value::Whole(b)) => a == b,
            (Value::Flag(a), Value::Flag(b)) => a == b,
            (Value::Texts(a), Value::Texts(b)) => a == b,
            (Value::Wholes(a), Value::Wholes(b)) => a == b,
            (Value::Flags(a), Value::Flags(b)) => a == b,
            _ => false,
        }
    }
}

impl Eq for Value {
    ghost laws = { values_equiv };
}

impl Copies for i64 {
    fn copy(&self, _: Global) -> Result<i64, OutOfMemory> {
        Ok(*self)
    }
}

impl Copies for bool {
    fn copy(&self, _: Global) -> Result<bool, OutOfMemory> {
        Ok(*self)
    }
}

impl Copies for Value {
    fn copy(&self, alloc: Global) -> Result<Value, OutOfMemory> {
        match self {
            Value::Text(text) => Ok(Value::Text(text.copy(alloc)?)),
            Value::Whole(number) => Ok(Value::Whole(*number)),
            Value::Flag(flag) => Ok(Value::Flag(*flag)),
            Value::Texts(texts) => Ok(Value::Texts(texts.copy(alloc)?)),
            Value::Wholes(numbers) => Ok(Value::Wholes(numbers.copy(alloc)?)),
            Value::Flags(flags) => Ok(Value::Flags(flags.copy(alloc)?)),
        }
    }
}
