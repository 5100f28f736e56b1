//! What expressions say of a made up request and store, and how it is changed.

use crate::Witness;
use crate::defaults::default_value;
use crate::place::Place;
use crate::world::World;
use policy_core::{Outcome, evaluate};
use policy_expressions::{BinaryOp, Expr, ExprKind, Var};
use policy_values::{EntityUID, Text, Value, ValueKind, try_clone_fields};
use schema_types::{Attributes, EntityRecordKind, Type, TypeKind};
use std::alloc::AllocError;

/// The value of an expression; none, where it errs.
pub(crate) fn value_of(
    at: &Place<'_, '_>,
    shown: &Witness,
    e: &Expr<()>,
) -> Result<Option<Value>, AllocError> {
    if !shown.request.is_whole() {
        return Ok(None);
    }
    match evaluate(at.alloc, e, &shown.request, &shown.entities)? {
        Outcome::Value(value) => Ok(Some(value)),
        Outcome::Error(error) => {
            drop(error);
            Ok(None)
        }
    }
}

/// Whether an expression is true.
pub(crate) fn holds(at: &Place<'_, '_>, shown: &Witness, e: &Expr<()>) -> Result<bool, AllocError> {
    match value_of(at, shown, e)? {
        Some(value) => Ok(matches!(value.kind(), ValueKind::Bool(true))),
        None => Ok(false),
    }
}

/// The id that an expression comes to, if it comes to one.
pub(crate) fn id_at(
    at: &Place<'_, '_>,
    shown: &Witness,
    e: &Expr<()>,
) -> Result<Option<EntityUID>, AllocError> {
    match value_of(at, shown, e)? {
        Some(value) => match value.kind() {
            ValueKind::EntityUID(uid) => Ok(Some(uid.try_clone()?)),
            _ => Ok(None),
        },
        None => Ok(None),
    }
}

// The attributes that what stands at a path has.
fn attributes_at<'a>(at: &Place<'_, 'a>, e: &Expr<()>) -> Option<&'a Attributes> {
    match e.kind() {
        ExprKind::Var(Var::Principal) => at.attributes(at.principal),
        ExprKind::Var(Var::Resource) => at.attributes(at.resource),
        ExprKind::Var(Var::Context) => Some(at.context),
        ExprKind::GetAttr(x, key) => {
            let attribute = attributes_at(at, x)?.get_attr(key)?;
            attributes_of(at, &attribute.attr_type)
        }
        _ => None,
    }
}

// The attributes that the values of a type have.
fn attributes_of<'a>(at: &Place<'_, 'a>, ty: &'a Type) -> Option<&'a Attributes> {
    match ty.kind() {
        TypeKind::EntityOrRecord(EntityRecordKind::Record { attrs, .. }) => Some(attrs),
        TypeKind::EntityOrRecord(EntityRecordKind::Entity(lub)) => {
            at.attributes(lub.get_single_entity()?)
        }
        _ => None,
    }
}

// The type of an attribute of what stands at a path.
fn member_type<'a>(at: &Place<'_, 'a>, e: &Expr<()>, key: &Text) -> Option<&'a Type> {
    let attribute = attributes_at(at, e)?.get_attr(key)?;
    Some(&attribute.attr_type)
}

/// The type of what stands at a path.
pub(crate) fn path_type<'a>(
    at: &Place<'_, 'a>,
    shown: &Witness,
    e: &Expr<()>,
) -> Result<Option<&'a Type>, AllocError> {
    match e.kind() {
        ExprKind::GetAttr(x, key) => Ok(member_type(at, x, key)),
        ExprKind::BinaryApp(BinaryOp::GetTag, x, _) => match id_at(at, shown, x)? {
            Some(uid) => Ok(tag_type(at, &uid)),
            None => Ok(None),
        },
        _ => Ok(None),
    }
}

/// The value, or else one of the type of the attribute.
pub(crate) fn value_or_default(
    at: &Place<'_, '_>,
    e: &Expr<()>,
    key: &Text,
    value: Option<Value>,
) -> Result<Option<Value>, AllocError> {
    match (value, member_type(at, e, key)) {
        (Some(value), _) => Ok(Some(value)),
        (None, Some(ty)) => default_value(at, ty),
        (None, None) => Ok(None),
    }
}

/// Puts a value, or else one of its type, where a path leads; answers whether something is changed. Where what
/// holds it is not there yet, that is put there alone.
pub(crate) fn assign(
    at: &Place<'_, '_>,
    shown: &Witness,
    world: &mut World,
    e: &Expr<()>,
    value: Option<Value>,
) -> Result<bool, AllocError> {
    match e.kind() {
        ExprKind::Var(var) => assign_entry(at, world, *var, value),
        ExprKind::BinaryApp(BinaryOp::GetTag, x, key) => {
            assign_tag(at, shown, world, x, key, value)
        }
        ExprKind::BinaryApp(BinaryOp::Add, x, y) => match less(at, shown, value, y)? {
            Some(value) => assign(at, shown, world, x, Some(value)),
            None => Ok(false),
        },
        ExprKind::GetAttr(x, key) => {
            let Some(holder) = value_of(at, shown, x)? else {
                drop(value);
                return assign(at, shown, world, x, None);
            };
            let Some(value) = value_or_default(at, x, key, value)? else {
                return Ok(false);
            };
            match put_member(at, world, &holder, key, value)? {
                Some(record) => assign(at, shown, world, x, Some(record)),
                None => Ok(true),
            }
        }
        _ => Ok(false),
    }
}

// The number without what an expression comes to.
fn less(
    at: &Place<'_, '_>,
    shown: &Witness,
    value: Option<Value>,
    y: &Expr<()>,
) -> Result<Option<Value>, AllocError> {
    let (Some(value), Some(other)) = (value, value_of(at, shown, y)?) else {
        return Ok(None);
    };
    match (value.kind(), other.kind()) {
        (ValueKind::Long(n), ValueKind::Long(m)) => match n.checked_sub(*m) {
            Some(n) => Ok(Some(Value::long(n))),
            None => Ok(None),
        },
        _ => Ok(None),
    }
}

// Puts an id in the place of the principal or the resource, or a record in that of the context.
fn assign_entry(
    at: &Place<'_, '_>,
    world: &mut World,
    var: Var,
    value: Option<Value>,
) -> Result<bool, AllocError> {
    let Some(value) = value else {
        return Ok(false);
    };
    match (var, value.kind()) {
        (Var::Principal, ValueKind::EntityUID(uid)) if uid.entity_type() == at.principal => {
            world.add(at, uid)?;
            world.principal = uid.try_clone()?;
            Ok(true)
        }
        (Var::Resource, ValueKind::EntityUID(uid)) if uid.entity_type() == at.resource => {
            world.add(at, uid)?;
            world.resource = uid.try_clone()?;
            Ok(true)
        }
        (Var::Context, ValueKind::Record(fields)) => {
            world.context = try_clone_fields(at.alloc, fields)?;
            Ok(true)
        }
        _ => Ok(false),
    }
}

/// Puts a tag on the entity.
pub(crate) fn assign_tag(
    at: &Place<'_, '_>,
    shown: &Witness,
    world: &mut World,
    x: &Expr<()>,
    key: &Expr<()>,
    value: Option<Value>,
) -> Result<bool, AllocError> {
    let Some(uid) = id_at(at, shown, x)? else {
        return Ok(false);
    };
    let Some(key) = value_of(at, shown, key)? else {
        return Ok(false);
    };
    let value = match (value, tag_type(at, &uid)) {
        (Some(value), _) => Some(value),
        (None, Some(ty)) => default_value(at, ty)?,
        (None, None) => None,
    };
    world.add(at, &uid)?;
    match (key.kind(), value, world.entities.get_mut(&uid)) {
        (ValueKind::String(key), Some(value), Some(drafted)) => {
            drafted.tags.insert(key.try_clone()?, value)?;
            Ok(true)
        }
        _ => Ok(false),
    }
}

// The type of the entity's tags.
fn tag_type<'a>(at: &Place<'_, 'a>, uid: &EntityUID) -> Option<&'a Type> {
    at.schema.get_entity_type(uid.entity_type())?.tag_type()
}

/// Puts a value under a key of an entity; or answers the record that has it there.
pub(crate) fn put_member(
    at: &Place<'_, '_>,
    world: &mut World,
    holder: &Value,
    key: &Text,
    value: Value,
) -> Result<Option<Value>, AllocError> {
    match holder.kind() {
        ValueKind::EntityUID(uid) => {
            world.add(at, uid)?;
            if let Some(drafted) = world.entities.get_mut(uid) {
                drafted.attrs.insert(key.try_clone()?, value)?;
            }
            Ok(None)
        }
        ValueKind::Record(fields) => {
            let mut fields = try_clone_fields(at.alloc, fields)?;
            fields.insert(key.try_clone()?, value)?;
            Ok(Some(Value::record(fields)))
        }
        _ => Ok(None),
    }
}
