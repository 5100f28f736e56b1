//! Values beside values.

use crate::place::Place;
use policy_expressions::{Pattern, PatternElem};
use policy_ext::{DateTimeValue, Duration};
use policy_values::{Text, Value, ValueKind, read_decimal, read_ip};
use std::alloc::{AllocError, Global};

/// The value that is greater by a small number, if it is of a kind that is compared; of decimals one that is
/// far from it.
pub(crate) fn shifted(value: &Value, by: i64) -> Option<Value> {
    match value.kind() {
        ValueKind::Long(n) => Some(Value::long(n.checked_add(by)?)),
        ValueKind::DateTime(d) => {
            Some(Value::datetime(DateTimeValue::from_millis(d.millis().checked_add(by)?)))
        }
        ValueKind::Duration(d) => {
            Some(Value::duration(Duration::from_millis(d.millis().checked_add(by)?)))
        }
        ValueKind::Decimal(d) => match by {
            0 => Some(Value::decimal(*d)),
            i64::MIN..=-1 => Some(Value::decimal(read_decimal("-99999999.0")?)),
            _ => Some(Value::decimal(read_decimal("99999999.0")?)),
        },
        _ => None,
    }
}

/// A range of IP addresses, by a number.
pub(crate) fn range_by(number: usize) -> Option<Value> {
    let text = match number % 5 {
        0 => "127.0.0.1",
        1 => "10.0.0.1",
        2 => "::1",
        3 => "224.0.0.1",
        _ => "ff02::1",
    };
    Some(Value::ip(read_ip(text)?))
}

/// Another value of the type, where one is known.
pub(crate) fn another(
    at: &Place<'_, '_>,
    value: &Value,
    number: usize,
) -> Result<Option<Value>, AllocError> {
    match value.kind() {
        ValueKind::Bool(b) => Ok(Some(Value::bool(!*b))),
        ValueKind::String(text) => Ok(Some(Value::string(another_text(at.alloc, text)?))),
        ValueKind::EntityUID(uid) => match at.id(uid.entity_type(), number)? {
            Some(uid) => Ok(Some(Value::entity_uid(uid))),
            None => Ok(None),
        },
        ValueKind::Set(_) => Ok(Some(Value::set(Vec::new(at.alloc)))),
        ValueKind::Record(_) => Ok(None),
        ValueKind::IpAddr(_) => Ok(range_by(number)),
        ValueKind::Long(_)
        | ValueKind::Decimal(_)
        | ValueKind::DateTime(_)
        | ValueKind::Duration(_) => Ok(shifted(value, if number % 2 == 0 { 1 } else { -1 })),
    }
}

fn another_text(alloc: Global, text: &Text) -> Result<Text, AllocError> {
    if text.as_str().is_empty() {
        Text::from_str(alloc, "x")
    } else {
        Text::from_str(alloc, "")
    }
}

/// A text that the pattern matches: its wildcards stand for nothing.
pub(crate) fn matched(alloc: Global, pattern: &Pattern) -> Result<Value, AllocError> {
    let mut text = String::new(alloc);
    for element in pattern.elements() {
        match element {
            PatternElem::Char(c) => text.push(*c)?,
            PatternElem::Wildcard => {}
        }
    }
    Ok(Value::string(Text::from_string(text)?))
}

/// The elements of a set, and one more.
pub(crate) fn with_element(
    alloc: Global,
    set: &Value,
    element: Value,
) -> Result<Option<Value>, AllocError> {
    match set.kind() {
        ValueKind::Set(items) => {
            let mut all = Vec::new(alloc);
            for item in items {
                all.push(item.try_clone(alloc)?)?;
            }
            all.push(element)?;
            Ok(Some(Value::set(all)))
        }
        _ => {
            drop(element);
            Ok(None)
        }
    }
}

/// The elements of a set without one.
pub(crate) fn without_element(
    alloc: Global,
    set: &Value,
    element: &Value,
) -> Result<Option<Value>, AllocError> {
    match set.kind() {
        ValueKind::Set(items) => {
            let mut all = Vec::new(alloc);
            for item in items {
                if item != element {
                    all.push(item.try_clone(alloc)?)?;
                }
            }
            Ok(Some(Value::set(all)))
        }
        _ => Ok(None),
    }
}

/// An element of a set, by a number.
pub(crate) fn element_by(
    alloc: Global,
    set: &Value,
    number: usize,
) -> Result<Option<Value>, AllocError> {
    match set.kind() {
        ValueKind::Set(items) if !items.is_empty() => {
            Ok(Some(items[number % items.len()].try_clone(alloc)?))
        }
        _ => Ok(None),
    }
}
