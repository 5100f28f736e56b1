//! Values of types.

use crate::place::Place;
use policy_values::{Text, Value, read_datetime, read_decimal, read_duration, read_ip};
use schema_types::{Attributes, EntityRecordKind, Primitive, Type, TypeKind};
use std::alloc::{AllocError, Global};
use std::collections::BTreeMap;

/// A value of the type: false, 0, the empty text, the empty set, a record of what it requires, an id, or what a
/// text stands for.
#[cycle(default_value)]
pub(crate) fn default_value(at: &Place<'_, '_>, ty: &Type) -> Result<Option<Value>, AllocError> {
    match ty.kind() {
        TypeKind::Never => Ok(None),
        TypeKind::True => Ok(Some(Value::bool(true))),
        TypeKind::False => Ok(Some(Value::bool(false))),
        TypeKind::Primitive { primitive_type } => {
            Ok(Some(default_primitive(at.alloc, *primitive_type)?))
        }
        TypeKind::Set { .. } => Ok(Some(Value::set(Vec::new(at.alloc)))),
        TypeKind::EntityOrRecord(kind) => default_of_kind(at, kind),
        TypeKind::ExtensionType { name } => Ok(default_extension(name.as_str())),
    }
}

#[cycle(default_value)]
fn default_of_kind(
    at: &Place<'_, '_>,
    kind: &EntityRecordKind,
) -> Result<Option<Value>, AllocError> {
    match kind {
        EntityRecordKind::Record { attrs, .. } => match default_fields(at, attrs)? {
            Some(fields) => Ok(Some(Value::record(fields))),
            None => Ok(None),
        },
        EntityRecordKind::AnyEntity => Ok(None),
        EntityRecordKind::Entity(lub) => {
            let Some(entity_type) = lub.get_single_entity() else {
                return Ok(None);
            };
            match at.id(entity_type, 0)? {
                Some(uid) => Ok(Some(Value::entity_uid(uid))),
                None => Ok(None),
            }
        }
        EntityRecordKind::ActionEntity { .. } => {
            Ok(Some(Value::entity_uid(at.action.try_clone()?)))
        }
    }
}

/// Values of the attributes that have to be there.
#[cycle(default_value)]
pub(crate) fn default_fields(
    at: &Place<'_, '_>,
    attrs: &Attributes,
) -> Result<Option<BTreeMap<Text, Value>>, AllocError> {
    let mut fields = BTreeMap::new(at.alloc);
    for (key, attribute) in attrs.iter() {
        if !attribute.is_required {
            continue;
        }
        match default_value(at, &attribute.attr_type)? {
            Some(value) => {
                let key = key.try_clone()?;
                fields.insert(key, value)?;
            }
            None => {
                drop(fields);
                return Ok(None);
            }
        }
    }
    Ok(Some(fields))
}

fn default_primitive(alloc: Global, primitive: Primitive) -> Result<Value, AllocError> {
    match primitive {
        Primitive::Bool => Ok(Value::bool(false)),
        Primitive::Long => Ok(Value::long(0)),
        Primitive::String => Ok(Value::string(Text::from_str(alloc, "")?)),
    }
}

fn default_extension(name: &str) -> Option<Value> {
    match name {
        "decimal" => Some(Value::decimal(read_decimal("0.0")?)),
        "ipaddr" => Some(Value::ip(read_ip("10.0.0.1")?)),
        "datetime" => Some(Value::datetime(read_datetime("2024-01-01")?)),
        "duration" => Some(Value::duration(read_duration("0ms")?)),
        _ => None,
    }
}
