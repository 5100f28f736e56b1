//! What each operator makes of the values of its operands.

ghost use Rattle.std.specs.Prelude.{◌≡◌, IfOk, IfSome, ◌+ℤ◌, ◌-ℤ◌, ◌*ℤ◌, neg_ℤ, int_lt, int_le};
ghost use Rattle.std.specs.Option.{option_copied};
ghost use Rattle.policy_values.specs.Value.{entity, vals_of};
ghost use Rattle.policy_core.specs.Operators.{unary_value, fit, long_of, compared, calculated, contains_value, contains_all_value, contains_any_value, get_tag_value, has_tag_of, has_tag_value, in_value, binary_value, above, within, within_any, attr_value, found_or, has_value, like_value, is_value};
ghost use Rattle.std.specs.Ordering.{is_eq};
ghost use Rattle.policy_values.specs.Uid.{text_cmp};

use crate::like::is_like;
use crate::{
    BinaryOp, Entities, Entity, EntityType, EntityUID, EvalError, Outcome, Pattern, Text, UnaryOp,
    Value, ValueKind,
};
use std::alloc::{AllocError, Global};

/// What an operator makes of the value of its operand.
pub fn apply(op: UnaryOp, x: &Value) -> Outcome
    ensures { result ≡ unary_value op x.now }
{
    match op {
        UnaryOp::Not => match x.kind() {
            ValueKind::Bool(b) => Outcome::Value(Value::bool(!*b)),
            _ => Outcome::Error(EvalError::TypeFault),
        },
        UnaryOp::Neg => match x.kind() {
            ValueKind::Long(n) => long(negation(*n)),
            _ => Outcome::Error(EvalError::TypeFault),
        },
        UnaryOp::IsEmpty => match x.kind() {
            ValueKind::Set(_) => Outcome::Value(Value::bool(x.has_no_element())),
            _ => Outcome::Error(EvalError::TypeFault),
        },
    }
}

fn negation(n: i64) -> Option<i64>
    ensures { result ≡ fit (neg_ℤ n) }
{
    n.checked_neg()
}

fn sum(m: i64, n: i64) -> Option<i64>
    ensures { result ≡ fit (m +ℤ n) }
{
    m.checked_add(n)
}

fn difference(m: i64, n: i64) -> Option<i64>
    ensures { result ≡ fit (m -ℤ n) }
{
    m.checked_sub(n)
}

fn product(m: i64, n: i64) -> Option<i64>
    ensures { result ≡ fit (m *ℤ n) }
{
    m.checked_mul(n)
}

// A number, or the overflow.
fn long(n: Option<i64>) -> Outcome
    ensures { result ≡ long_of n }
{
    match n {
        Some(n) => Outcome::Value(Value::long(n)),
        None => Outcome::Error(EvalError::IntegerOverflow),
    }
}

/// What an operator makes of the values of its two operands. Errs where memory runs out.
pub fn apply_two(
    alloc: Global,
    op: BinaryOp,
    x: &Value,
    y: &Value,
    entities: &Entities,
) -> Result<Outcome, AllocError>
    ensures { IfOk result (λ o. o ≡ binary_value op x.now y.now entities.now) }
{
    match op {
        BinaryOp::Eq => Ok(Outcome::Value(Value::bool(*x == *y))),
        BinaryOp::Less => Ok(less(x, y)),
        BinaryOp::LessEq => Ok(less_eq(x, y)),
        BinaryOp::Add => Ok(add(x, y)),
        BinaryOp::Sub => Ok(sub(x, y)),
        BinaryOp::Mul => Ok(mul(x, y)),
        BinaryOp::In => Ok(in_value(x, y, entities)),
        BinaryOp::Contains => Ok(contains(x, y)),
        BinaryOp::ContainsAll => Ok(contains_all(x, y)),
        BinaryOp::ContainsAny => Ok(contains_any(x, y)),
        BinaryOp::GetTag => get_tag(alloc, x, y, entities),
        BinaryOp::HasTag => Ok(has_tag(x, y, entities)),
    }
}

fn less(x: &Value, y: &Value) -> Outcome
    ensures { result ≡ compared int_lt x.now y.now }
{
    match (x.kind(), y.kind()) {
        (ValueKind::Long(m), ValueKind::Long(n)) => Outcome::Value(Value::bool(*m < *n)),
        (ValueKind::DateTime(m), ValueKind::DateTime(n)) => Outcome::Value(Value::bool(*m < *n)),
        (ValueKind::Duration(m), ValueKind::Duration(n)) => Outcome::Value(Value::bool(*m < *n)),
        _ => Outcome::Error(EvalError::TypeFault),
    }
}

fn less_eq(x: &Value, y: &Value) -> Outcome
    ensures { result ≡ compared int_le x.now y.now }
{
    match (x.kind(), y.kind()) {
        (ValueKind::Long(m), ValueKind::Long(n)) => Outcome::Value(Value::bool(*m <= *n)),
        (ValueKind::DateTime(m), ValueKind::DateTime(n)) => Outcome::Value(Value::bool(*m <= *n)),
        (ValueKind::Duration(m), ValueKind::Duration(n)) => Outcome::Value(Value::bool(*m <= *n)),
        _ => Outcome::Error(EvalError::TypeFault),
    }
}

fn add(x: &Value, y: &Value) -> Outcome
    ensures { result ≡ calculated (λ m n. m +ℤ n) x.now y.now }
{
    match (x.kind(), y.kind()) {
        (ValueKind::Long(m), ValueKind::Long(n)) => long(sum(*m, *n)),
        _ => Outcome::Error(EvalError::TypeFault),
    }
}

fn sub(x: &Value, y: &Value) -> Outcome
    ensures { result ≡ calculated (λ m n. m -ℤ n) x.now y.now }
{
    match (x.kind(), y.kind()) {
        (ValueKind::Long(m), ValueKind::Long(n)) => long(difference(*m, *n)),
        _ => Outcome::Error(EvalError::TypeFault),
    }
}

fn mul(x: &Value, y: &Value) -> Outcome
    ensures { result ≡ calculated (λ m n. m *ℤ n) x.now y.now }
{
    match (x.kind(), y.kind()) {
        (ValueKind::Long(m), ValueKind::Long(n)) => long(product(*m, *n)),
        _ => Outcome::Error(EvalError::TypeFault),
    }
}

fn contains(x: &Value, y: &Value) -> Outcome
    ensures { result ≡ contains_value x.now y.now }
{
    match x.kind() {
        ValueKind::Set(_) => Outcome::Value(Value::bool(x.has_element(y))),
        _ => Outcome::Error(EvalError::TypeFault),
    }
}

fn contains_all(x: &Value, y: &Value) -> Outcome
    ensures { result ≡ contains_all_value x.now y.now }
{
    match (x.kind(), y.kind()) {
        (ValueKind::Set(_), ValueKind::Set(_)) => Outcome::Value(Value::bool(x.has_all_of(y))),
        _ => Outcome::Error(EvalError::TypeFault),
    }
}

fn contains_any(x: &Value, y: &Value) -> Outcome
    ensures { result ≡ contains_any_value x.now y.now }
{
    match (x.kind(), y.kind()) {
        (ValueKind::Set(_), ValueKind::Set(_)) => Outcome::Value(Value::bool(x.has_some_of(y))),
        _ => Outcome::Error(EvalError::TypeFault),
    }
}

// The tag of an entity under a key.
fn get_tag(alloc: Global, x: &Value, y: &Value, entities: &Entities) -> Result<Outcome, AllocError>
    ensures { IfOk result (λ o. o ≡ get_tag_value x.now y.now entities.now) }
{
    match (x.kind(), y.kind()) {
        (ValueKind::EntityUID(uid), ValueKind::String(key)) => match entities.entity(uid) {
            Some(entity) => found_or(alloc, EvalError::MissingTag, entity.get_tag(key)),
            None => missing(uid),
        },
        _ => Ok(Outcome::Error(EvalError::TypeFault)),
    }
}

// Whether an entity has a tag under a key.
fn has_tag(x: &Value, y: &Value, entities: &Entities) -> Outcome
    ensures { result ≡ has_tag_value x.now y.now entities.now }
{
    match (x.kind(), y.kind()) {
        (ValueKind::EntityUID(uid), ValueKind::String(key)) => {
            Outcome::Value(Value::bool(is_tagged(entities.entity(uid), key)))
        }
        _ => Outcome::Error(EvalError::TypeFault),
    }
}

// Whether an entity has a tag under a key; an absent entity has none.
fn is_tagged(entity: Option<&Entity>, key: &Text) -> bool
    ensures { result ≡ has_tag_of (option_copied entity.entry) key.now }
{
    match entity {
        Some(entity) => entity.get_tag(key).is_some(),
        None => false,
    }
}

fn in_value(x: &Value, y: &Value, entities: &Entities) -> Outcome
    ensures { result ≡ in_value x.now y.now entities.now }
{
    match (x.kind(), y.kind()) {
        (ValueKind::EntityUID(x), ValueKind::EntityUID(y)) => {
            Outcome::Value(Value::bool(is_in(x, y, entities)))
        }
        (ValueKind::EntityUID(x), ValueKind::Set(ys)) => is_in_any(x, ys, entities),
        _ => Outcome::Error(EvalError::TypeFault),
    }
}

// Whether the two are one, or the second is an ancestor of the first.
#[tactic(auto, using(crate::proofs::IdSteps::uid_eq_texts))]
fn is_in(x: &EntityUID, y: &EntityUID, entities: &Entities) -> bool
    ensures { result ≡ within x.now y.now entities.now }
{
    x == y || is_above(entities.entity(x), y)
}

// Whether an id is an ancestor of an entity; an absent entity has none.
fn is_above(entity: Option<&Entity>, uid: &EntityUID) -> bool
    ensures { result ≡ above (option_copied entity.entry) uid.now }
{
    match entity {
        Some(entity) => entity.has_ancestor(uid),
        None => false,
    }
}

// The same for some id of a set, which holds nothing else.
fn is_in_any(x: &EntityUID, ys: &Vec<Value>, entities: &Entities) -> Outcome
    ensures { result ≡ within_any x.now (vals_of ys.now.items) entities.now }
{
    let mut found = false;
    for y in ys {
        match y.kind() {
            ValueKind::EntityUID(y) => found = is_in(x, y, entities) || found,
            _ => return Outcome::Error(EvalError::TypeFault),
        }
    }
    Outcome::Value(Value::bool(found))
}

/// The attribute of an entity or the field of a record, as it stands there, where there is one.
#[tactic(auto, using(entity_store::proofs::FieldsFound::field_found))]
pub fn entry_of_value<'a>(x: &'a Value, name: &Text, entities: &'a Entities) -> Option<&'a Value>
    ensures { IfSome result (λ v. attr_value x.now name.now entities.now ≡ Outcome.Value v.now) }
{
    match x.kind() {
        ValueKind::EntityUID(uid) => entry_of_entity(uid, name, entities),
        ValueKind::Record(fields) => fields.get(name),
        _ => None,
    }
}

/// The attribute of an entity of the store, where there is one.
#[tactic(auto, using(entity_store::proofs::FieldsFound::field_found))]
pub fn entry_of_entity<'a>(
    uid: &EntityUID,
    name: &Text,
    entities: &'a Entities,
) -> Option<&'a Value>
    ensures { IfSome result (λ v. attr_value (entity uid.now) name.now entities.now ≡ Outcome.Value v.now) }
{
    match entities.entity(uid) {
        Some(found) => found.get(name),
        None => None,
    }
}

/// The attribute of an entity or the field of a record.
#[tactic(auto, using(entity_store::proofs::FieldsFound::field_found))]
pub fn attribute(
    alloc: Global,
    x: &Value,
    name: &Text,
    entities: &Entities,
) -> Result<Outcome, AllocError>
    ensures { IfOk result (λ o. o ≡ attr_value x.now name.now entities.now) }
{
    match x.kind() {
        ValueKind::EntityUID(uid) => match entities.entity(uid) {
            Some(entity) => found_or(alloc, EvalError::MissingAttribute, entity.get(name)),
            None => missing(uid),
        },
        ValueKind::Record(fields) => found_or(alloc, EvalError::MissingAttribute, fields.get(name)),
        _ => Ok(Outcome::Error(EvalError::TypeFault)),
    }
}

// The error that an entity is not in the store.
fn missing(uid: &EntityUID) -> Result<Outcome, AllocError>
    ensures { IfOk result (λ o. o ≡ Outcome.Error (EvalError.MissingEntity uid.now)) }
{
    let uid = uid.try_clone()?;
    Ok(Outcome::Error(EvalError::MissingEntity(uid)))
}

// What was found, or this error.
fn found_or(alloc: Global, error: EvalError, found: Option<&Value>) -> Result<Outcome, AllocError>
    ensures { IfOk result (λ o. o ≡ found_or error (option_copied found.entry)) }
{
    match found {
        Some(value) => Ok(Outcome::Value(value.try_clone(alloc)?)),
        None => Ok(Outcome::Error(error)),
    }
}

/// Whether an entity has an attribute, or a record a field.
#[tactic(auto, using(entity_store::proofs::FieldsFound::field_found))]
pub fn has_attribute(x: &Value, name: &Text, entities: &Entities) -> Outcome
    ensures { result ≡ has_value x.now name.now entities.now }
{
    match x.kind() {
        ValueKind::EntityUID(uid) => match entities.entity(uid) {
            Some(entity) => Outcome::Value(Value::bool(entity.get(name).is_some())),
            None => Outcome::Value(Value::bool(false)),
        },
        ValueKind::Record(fields) => Outcome::Value(Value::bool(fields.get(name).is_some())),
        _ => Outcome::Error(EvalError::TypeFault),
    }
}

/// Whether a string matches the pattern. Errs where memory runs out.
pub fn matches_pattern(alloc: Global, x: &Value, pattern: &Pattern) -> Result<Outcome, AllocError>
    ensures { IfOk result (λ o. o ≡ like_value x.now pattern.now) }
{
    match x.kind() {
        ValueKind::String(text) => {
            let is_like = is_like(alloc, text, pattern)?;
            Ok(Outcome::Value(Value::bool(is_like)))
        }
        _ => Ok(Outcome::Error(EvalError::TypeFault)),
    }
}

/// Whether an id is of the type.
pub fn is_of_type(x: &Value, entity_type: &EntityType) -> Outcome
    ensures { result ≡ is_value x.now entity_type.now }
{
    match x.kind() {
        ValueKind::EntityUID(uid) => Outcome::Value(Value::bool(is_type(uid, entity_type))),
        _ => Outcome::Error(EvalError::TypeFault),
    }
}

fn is_type(uid: &EntityUID, entity_type: &EntityType) -> bool
    ensures { result ≡ is_eq (text_cmp uid.now.entity_type entity_type.now) }
{
    uid.entity_type == *entity_type
}
