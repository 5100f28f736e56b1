//! What a type is a type of.

ghost use Rattle.std.specs.Prelude.{◌≡◌, ◌||◌};
ghost use Rattle.std.specs.Ordering.{is_eq};
ghost use Rattle.policy_values.specs.Uid.{text_cmp};
ghost use Rattle.type_relations.specs.Join as join;
ghost use Rattle.typing_spec.specs.Operands as operand;
ghost use Rattle.typing_spec.specs.Rules as rule;
ghost use Rattle.typing_spec.specs.Signatures.{long_type, same_type};
ghost use Rattle.typecheck_rules.specs.Expected as expectation;
ghost use Rattle.typecheck_rules.specs.Own as own;

use policy_values::Name;
use schema_types::{EntityRecordKind, Primitive, Type, TypeKind};
use std::cmp::Ordering;

/// Of booleans.
pub fn is_boolean(t: &Type) -> bool
    ensures { result ≡ operand.is_boolean t.now }
{
    match t.kind() {
        TypeKind::True
        | TypeKind::False
        | TypeKind::Primitive {
            primitive_type: Primitive::Bool,
        } => true,
        _ => false,
    }
}

/// Of longs.
pub fn is_long(t: &Type) -> bool
    ensures shape { result ≡ operand.is_long t.now }
    ensures same { result ≡ same_type t.now long_type }
{
    match t.kind() {
        TypeKind::Primitive {
            primitive_type: Primitive::Long,
        } => true,
        _ => false,
    }
}

/// Of strings.
pub fn is_string(t: &Type) -> bool
    ensures { result ≡ rule.is_string t.now }
{
    match t.kind() {
        TypeKind::Primitive {
            primitive_type: Primitive::String,
        } => true,
        _ => false,
    }
}

/// Of sets.
pub fn is_set(t: &Type) -> bool
    ensures { result ≡ rule.is_set t.now }
{
    match t.kind() {
        TypeKind::Set { .. } => true,
        _ => false,
    }
}

/// Of sets whose elements have a type.
pub fn is_typed_set(t: &Type) -> bool
    ensures { result ≡ expectation.is_typed_set t.now }
{
    match t.kind() {
        TypeKind::Set {
            element_type: Some(_),
        } => true,
        _ => false,
    }
}

/// Of records.
pub fn is_record(t: &Type) -> bool
    ensures { result ≡ join.is_record t.now }
{
    match t.kind() {
        TypeKind::EntityOrRecord(EntityRecordKind::Record { .. }) => true,
        _ => false,
    }
}

/// Of entities.
pub fn is_entity(t: &Type) -> bool
    ensures { result ≡ join.is_entity t.now }
{
    match t.kind() {
        TypeKind::EntityOrRecord(kind) => match kind {
            EntityRecordKind::Record { .. } => false,
            _ => true,
        },
        _ => false,
    }
}

/// Of sets of entities.
pub fn is_entity_set(t: &Type) -> bool
    ensures { result ≡ rule.is_entity_set t.now }
{
    match t.kind() {
        TypeKind::Set {
            element_type: Some(element),
        } => is_entity(element),
        _ => false,
    }
}

/// Of entities, or of sets of entities.
pub fn is_entity_or_set(t: &Type) -> bool
    ensures { result ≡ expectation.is_entity_or_set t.now }
{
    is_entity(t) || is_entity_set(t)
}

/// Of what has attributes.
pub fn has_attributes(t: &Type) -> bool
    ensures { result ≡ expectation.has_attributes t.now }
{
    is_entity(t) || is_record(t)
}

/// Of datetimes, or of durations.
pub fn is_comparable(t: &Type) -> bool
    ensures { result ≡ own.is_comparable t.now }
{
    match t.kind() {
        TypeKind::ExtensionType { name } => is_named(name, "datetime")
            || is_named(name, "duration"),
        _ => false,
    }
}

fn is_named(name: &Name, text: &str) -> bool
    ensures { result ≡ is_eq (text_cmp name.now text.now) }
{
    name.as_str().cmp(text) == Ordering::Equal
}
