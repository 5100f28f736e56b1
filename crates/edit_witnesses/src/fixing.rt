//! Making a part of a condition true or false.

use crate::Witness;
use crate::defaults::default_value;
use crate::neighbours::{
    another, element_by, matched, range_by, shifted, with_element, without_element,
};
use crate::paths::{
    assign, assign_tag, holds, id_at, path_type, put_member, value_of, value_or_default,
};
use crate::place::Place;
use crate::world::World;
use policy_expressions::{
    BinaryFunction, BinaryOp, Expr, ExprKind, ExtensionFunction, UnaryOp, extension_function,
};
use policy_values::{EntityUID, Name, Text, Value, ValueKind, try_clone_fields};
use schema_types::TypeKind;
use std::alloc::AllocError;

/// Changes one thing on the way to making a condition true, or false. It looks for the part that has to change:
/// of two that will do it takes one by chance.
pub(crate) fn fix(
    at: &Place<'_, '_>,
    shown: &Witness,
    world: &mut World,
    e: &Expr<()>,
    wanted: bool,
) -> Result<bool, AllocError> {
    match e.kind() {
        ExprKind::UnaryApp(UnaryOp::Not, x) => fix(at, shown, world, x, !wanted),
        ExprKind::And(x, y) => {
            let first = if wanted {
                !holds(at, shown, x)?
            } else {
                world.dice.flip()
            };
            fix(at, shown, world, if first { x } else { y }, wanted)
        }
        ExprKind::Or(x, y) => {
            let first = if wanted {
                world.dice.flip()
            } else {
                holds(at, shown, x)?
            };
            fix(at, shown, world, if first { x } else { y }, wanted)
        }
        ExprKind::If(x, y, z) => {
            let is_true = holds(at, shown, x)?;
            if world.dice.flip() {
                fix(at, shown, world, x, !is_true)
            } else {
                fix(at, shown, world, if is_true { y } else { z }, wanted)
            }
        }
        _ => fix_test(at, shown, world, e, wanted),
    }
}

// The same of a test.
fn fix_test(
    at: &Place<'_, '_>,
    shown: &Witness,
    world: &mut World,
    e: &Expr<()>,
    wanted: bool,
) -> Result<bool, AllocError> {
    if provide(at, shown, world, e)? {
        return Ok(true);
    }
    match e.kind() {
        ExprKind::HasAttr(x, key) if wanted => give(at, shown, world, x, key),
        ExprKind::HasAttr(x, key) => take(at, shown, world, x, key),
        ExprKind::Like(x, pattern) => {
            let text = matched(at.alloc, pattern)?;
            let value = if wanted {
                Some(text)
            } else {
                another(at, &text, 0)?
            };
            assign_some(at, shown, world, x, value)
        }
        ExprKind::UnaryApp(UnaryOp::IsEmpty, x) => fix_empty(at, shown, world, x, wanted),
        ExprKind::ExtensionFunctionApp(name, args) => {
            fix_call(at, shown, world, name, args, wanted)
        }
        _ => fix_binary(at, shown, world, e, wanted),
    }
}

// The same of a test of two operands, or of a boolean that stands somewhere.
fn fix_binary(
    at: &Place<'_, '_>,
    shown: &Witness,
    world: &mut World,
    e: &Expr<()>,
    wanted: bool,
) -> Result<bool, AllocError> {
    let ExprKind::BinaryApp(op, x, y) = e.kind() else {
        return assign(at, shown, world, e, Some(Value::bool(wanted)));
    };
    match op {
        BinaryOp::Eq => fix_equal(at, shown, world, x, y, wanted),
        BinaryOp::Less => fix_order(at, shown, world, x, y, if wanted { -1 } else { 0 }),
        BinaryOp::LessEq => fix_order(at, shown, world, x, y, if wanted { 0 } else { 1 }),
        BinaryOp::In if wanted => fix_in(at, shown, world, x, y),
        BinaryOp::In => fix_not_in(at, shown, world, x, y),
        BinaryOp::Contains => fix_contains(at, shown, world, x, y, wanted),
        BinaryOp::ContainsAll => fix_contains_all(at, shown, world, x, y, wanted),
        BinaryOp::ContainsAny => fix_contains_any(at, shown, world, x, y, wanted),
        BinaryOp::HasTag => fix_tag(at, shown, world, x, y, wanted),
        _ => assign(at, shown, world, e, Some(Value::bool(wanted))),
    }
}

// Puts what an operand lacks, where one errs; answers whether something is changed.
fn provide(
    at: &Place<'_, '_>,
    shown: &Witness,
    world: &mut World,
    e: &Expr<()>,
) -> Result<bool, AllocError> {
    match e.kind() {
        ExprKind::BinaryApp(_, x, y) => {
            Ok(provide_one(at, shown, world, x)? || provide_one(at, shown, world, y)?)
        }
        ExprKind::HasAttr(x, _) | ExprKind::Like(x, _) | ExprKind::UnaryApp(_, x) => {
            provide_one(at, shown, world, x)
        }
        _ => Ok(false),
    }
}

fn provide_one(
    at: &Place<'_, '_>,
    shown: &Witness,
    world: &mut World,
    x: &Expr<()>,
) -> Result<bool, AllocError> {
    if value_of(at, shown, x)?.is_some() {
        return Ok(false);
    }
    assign(at, shown, world, x, None)
}

// Puts a value where a path leads, if there is a value.
fn assign_some(
    at: &Place<'_, '_>,
    shown: &Witness,
    world: &mut World,
    e: &Expr<()>,
    value: Option<Value>,
) -> Result<bool, AllocError> {
    match value {
        Some(value) => assign(at, shown, world, e, Some(value)),
        None => Ok(false),
    }
}

// Gives what holds it the attribute.
fn give(
    at: &Place<'_, '_>,
    shown: &Witness,
    world: &mut World,
    x: &Expr<()>,
    key: &Text,
) -> Result<bool, AllocError> {
    let Some(holder) = value_of(at, shown, x)? else {
        return assign(at, shown, world, x, None);
    };
    let Some(value) = value_or_default(at, x, key, None)? else {
        return Ok(false);
    };
    match put_member(at, world, &holder, key, value)? {
        Some(record) => assign(at, shown, world, x, Some(record)),
        None => Ok(true),
    }
}

// Takes the attribute from what holds it; of an entity that has to have it, the entity is taken away.
fn take(
    at: &Place<'_, '_>,
    shown: &Witness,
    world: &mut World,
    x: &Expr<()>,
    key: &Text,
) -> Result<bool, AllocError> {
    let Some(holder) = value_of(at, shown, x)? else {
        return Ok(false);
    };
    match holder.kind() {
        ValueKind::EntityUID(uid) => {
            if is_required(at, uid, key) {
                world.entities.remove(uid);
            } else if let Some(drafted) = world.entities.get_mut(uid) {
                drafted.attrs.remove(key);
            }
            Ok(true)
        }
        ValueKind::Record(fields) => {
            let mut fields = try_clone_fields(at.alloc, fields)?;
            fields.remove(key);
            assign(at, shown, world, x, Some(Value::record(fields)))
        }
        _ => Ok(false),
    }
}

// Whether the entity has to have the attribute.
fn is_required(at: &Place<'_, '_>, uid: &EntityUID, key: &Text) -> bool {
    match at.attributes(uid.entity_type()) {
        Some(attributes) => match attributes.get_attr(key) {
            Some(attribute) => attribute.is_required,
            None => false,
        },
        None => false,
    }
}

// Makes two values one, or makes one of them another.
fn fix_equal(
    at: &Place<'_, '_>,
    shown: &Witness,
    world: &mut World,
    x: &Expr<()>,
    y: &Expr<()>,
    wanted: bool,
) -> Result<bool, AllocError> {
    let (to, from) = if world.dice.flip() { (x, y) } else { (y, x) };
    Ok(copy_to(at, shown, world, to, from, wanted)? || copy_to(at, shown, world, from, to, wanted)?)
}

// Puts the value of an expression, or another, where a path leads.
fn copy_to(
    at: &Place<'_, '_>,
    shown: &Witness,
    world: &mut World,
    to: &Expr<()>,
    from: &Expr<()>,
    wanted: bool,
) -> Result<bool, AllocError> {
    let Some(value) = value_of(at, shown, from)? else {
        return Ok(false);
    };
    if wanted {
        return assign(at, shown, world, to, Some(value));
    }
    let number = world.dice.throw();
    let value = another(at, &value, number)?;
    assign_some(at, shown, world, to, value)
}

// Makes the first value so much more than the second, by changing one of them.
fn fix_order(
    at: &Place<'_, '_>,
    shown: &Witness,
    world: &mut World,
    x: &Expr<()>,
    y: &Expr<()>,
    by: i64,
) -> Result<bool, AllocError> {
    let by = if by < -1 || by > 1 { 0 } else { by };
    if world.dice.flip() {
        Ok(shift_to(at, shown, world, x, y, by)? || shift_to(at, shown, world, y, x, -by)?)
    } else {
        Ok(shift_to(at, shown, world, y, x, -by)? || shift_to(at, shown, world, x, y, by)?)
    }
}

// Puts what is so much more than the value of an expression where a path leads.
fn shift_to(
    at: &Place<'_, '_>,
    shown: &Witness,
    world: &mut World,
    to: &Expr<()>,
    from: &Expr<()>,
    by: i64,
) -> Result<bool, AllocError> {
    match value_of(at, shown, from)? {
        Some(value) => assign_some(at, shown, world, to, shifted(&value, by)),
        None => Ok(false),
    }
}

// Puts an entity in another, or makes it that.
fn fix_in(
    at: &Place<'_, '_>,
    shown: &Witness,
    world: &mut World,
    x: &Expr<()>,
    y: &Expr<()>,
) -> Result<bool, AllocError> {
    let Some(uid) = id_at(at, shown, x)? else {
        return assign(at, shown, world, x, None);
    };
    let Some(above) = value_of(at, shown, y)? else {
        return assign(at, shown, world, y, None);
    };
    let number = world.dice.throw();
    let above = match element_by(at.alloc, &above, number)? {
        Some(element) => element,
        None => above,
    };
    match above.kind() {
        ValueKind::EntityUID(above) if at.may_be_in(uid.entity_type(), above.entity_type()) => {
            world.add(at, &uid)?;
            if let Some(drafted) = world.entities.get_mut(&uid) {
                drafted.parents.insert(above.try_clone()?)?;
            }
            Ok(true)
        }
        ValueKind::EntityUID(above) => {
            let above = Value::entity_uid(above.try_clone()?);
            assign(at, shown, world, x, Some(above))
        }
        ValueKind::Set(_) => add_default(at, shown, world, y),
        _ => Ok(false),
    }
}

// Makes what an entity is in another, takes the entity out of all others, or makes it another.
fn fix_not_in(
    at: &Place<'_, '_>,
    shown: &Witness,
    world: &mut World,
    x: &Expr<()>,
    y: &Expr<()>,
) -> Result<bool, AllocError> {
    if world.dice.flip() && copy_to(at, shown, world, y, y, false)? {
        return Ok(true);
    }
    let Some(uid) = id_at(at, shown, x)? else {
        return Ok(false);
    };
    if let Some(drafted) = world.entities.get_mut(&uid)
        && !drafted.parents.is_empty()
    {
        drafted.parents.clear();
        return Ok(true);
    }
    copy_to(at, shown, world, x, x, false)
}

// Puts the empty set where a path leads.
fn empty(
    at: &Place<'_, '_>,
    shown: &Witness,
    world: &mut World,
    e: &Expr<()>,
) -> Result<bool, AllocError> {
    let none = Value::set(Vec::new(at.alloc));
    assign(at, shown, world, e, Some(none))
}

// Adds another element of the type to the set where a path leads.
fn add_default(
    at: &Place<'_, '_>,
    shown: &Witness,
    world: &mut World,
    e: &Expr<()>,
) -> Result<bool, AllocError> {
    let Some(ty) = path_type(at, shown, e)? else {
        return Ok(false);
    };
    let TypeKind::Set {
        element_type: Some(element),
    } = ty.kind()
    else {
        return Ok(false);
    };
    let Some(element) = default_value(at, element)? else {
        return Ok(false);
    };
    let number = world.dice.throw();
    match another(at, &element, number)? {
        Some(other) if number % 2 == 0 => add_to(at, shown, world, e, other),
        _ => add_to(at, shown, world, e, element),
    }
}

// Adds an element to the set where a path leads.
fn add_to(
    at: &Place<'_, '_>,
    shown: &Witness,
    world: &mut World,
    e: &Expr<()>,
    element: Value,
) -> Result<bool, AllocError> {
    match value_of(at, shown, e)? {
        Some(set) => {
            let value = with_element(at.alloc, &set, element)?;
            assign_some(at, shown, world, e, value)
        }
        None => {
            drop(element);
            assign(at, shown, world, e, None)
        }
    }
}

// Adds an element to a set or takes it from it; or makes the element one of the set, or another.
fn fix_contains(
    at: &Place<'_, '_>,
    shown: &Witness,
    world: &mut World,
    x: &Expr<()>,
    y: &Expr<()>,
    wanted: bool,
) -> Result<bool, AllocError> {
    let Some(element) = value_of(at, shown, y)? else {
        return assign(at, shown, world, y, None);
    };
    let Some(set) = value_of(at, shown, x)? else {
        return assign(at, shown, world, x, None);
    };
    let number = world.dice.throw();
    if wanted {
        let chosen = element_by(at.alloc, &set, number)?;
        return Ok(
            add_to(at, shown, world, x, element)? || assign_some(at, shown, world, y, chosen)?,
        );
    }
    let other = another(at, &element, number)?;
    let rest = without_element(at.alloc, &set, &element)?;
    Ok(assign_some(at, shown, world, x, rest)? || assign_some(at, shown, world, y, other)?)
}

// Makes the first set have the elements of the second, or not all of them.
fn fix_contains_all(
    at: &Place<'_, '_>,
    shown: &Witness,
    world: &mut World,
    x: &Expr<()>,
    y: &Expr<()>,
    wanted: bool,
) -> Result<bool, AllocError> {
    if wanted {
        return Ok(copy_to(at, shown, world, x, y, true)? || copy_to(at, shown, world, y, x, true)?);
    }
    if world.dice.flip() && add_default(at, shown, world, y)? {
        return Ok(true);
    }
    let (Some(set), Some(other)) = (value_of(at, shown, x)?, value_of(at, shown, y)?) else {
        return Ok(false);
    };
    let number = world.dice.throw();
    let Some(element) = element_by(at.alloc, &other, number)? else {
        return Ok(false);
    };
    let rest = without_element(at.alloc, &set, &element)?;
    assign_some(at, shown, world, x, rest)
}

// Makes the first set have an element of the second, or makes one of them empty.
fn fix_contains_any(
    at: &Place<'_, '_>,
    shown: &Witness,
    world: &mut World,
    x: &Expr<()>,
    y: &Expr<()>,
    wanted: bool,
) -> Result<bool, AllocError> {
    if !wanted {
        return Ok(empty(at, shown, world, x)? || empty(at, shown, world, y)?);
    }
    let number = world.dice.throw();
    let element = match value_of(at, shown, y)? {
        Some(other) => element_by(at.alloc, &other, number)?,
        None => None,
    };
    match element {
        Some(element) => add_to(at, shown, world, x, element),
        None => add_default(at, shown, world, y),
    }
}

// Gives an entity a tag, or takes it.
fn fix_tag(
    at: &Place<'_, '_>,
    shown: &Witness,
    world: &mut World,
    x: &Expr<()>,
    key: &Expr<()>,
    wanted: bool,
) -> Result<bool, AllocError> {
    if wanted {
        return assign_tag(at, shown, world, x, key, None);
    }
    let Some(uid) = id_at(at, shown, x)? else {
        return Ok(false);
    };
    let Some(key) = value_of(at, shown, key)? else {
        return Ok(false);
    };
    match (key.kind(), world.entities.get_mut(&uid)) {
        (ValueKind::String(key), Some(drafted)) => {
            drafted.tags.remove(key);
            Ok(true)
        }
        _ => Ok(false),
    }
}

// Makes a set empty, or gives it an element.
fn fix_empty(
    at: &Place<'_, '_>,
    shown: &Witness,
    world: &mut World,
    x: &Expr<()>,
    wanted: bool,
) -> Result<bool, AllocError> {
    if wanted {
        empty(at, shown, world, x)
    } else {
        add_default(at, shown, world, x)
    }
}

// Makes the test of an extension true, or false.
fn fix_call(
    at: &Place<'_, '_>,
    shown: &Witness,
    world: &mut World,
    name: &Name,
    args: &Vec<Expr<()>>,
    wanted: bool,
) -> Result<bool, AllocError> {
    let function = extension_function(name.as_str());
    match (function, args.as_slice()) {
        (Some(ExtensionFunction::Unary(_)), [x]) => {
            let range = range_by(world.dice.throw());
            assign_some(at, shown, world, x, range)
        }
        (Some(ExtensionFunction::Binary(function)), [x, y]) => match function {
            BinaryFunction::LessThan => {
                fix_order(at, shown, world, x, y, if wanted { -1 } else { 0 })
            }
            BinaryFunction::LessThanOrEqual => {
                fix_order(at, shown, world, x, y, if wanted { 0 } else { 1 })
            }
            BinaryFunction::GreaterThan => {
                fix_order(at, shown, world, y, x, if wanted { -1 } else { 0 })
            }
            BinaryFunction::GreaterThanOrEqual => {
                fix_order(at, shown, world, y, x, if wanted { 0 } else { 1 })
            }
            BinaryFunction::IsInRange => fix_equal(at, shown, world, x, y, wanted),
            BinaryFunction::Offset | BinaryFunction::DurationSince => Ok(false),
        },
        _ => Ok(false),
    }
}
