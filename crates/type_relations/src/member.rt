//! Membership: which values a type has.

ghost use Rattle.std.specs.Prelude.{◌≡◌, ◌↔◌, IsTrue, option_copied, false};
ghost use Rattle.schema_types.specs.Ty.{primitive, extension};
ghost use Rattle.schema_types.specs.TyView.{kind_of, attrs_of};
ghost use Rattle.type_relations.specs.Subtype.{IsOpen};
ghost use Rattle.type_relations.specs.Member.{has_field, HasRequired, Member, Members, Typed};
ghost use Rattle.policy_values.specs.Value.{vals_of, fields_of};
ghost use Rattle.policy_values.specs.ValueView.{val_of};

use policy_values::{EntityType, Name, Text, Value, ValueKind};
use schema_types::{Attributes, EntityRecordKind, OpenTag, Primitive, Type, TypeKind};
use std::collections::BTreeMap;

#[tactic(auto, using(crate::proofs::MemberSteps::lookup_field))]
fn has_field(fields: &BTreeMap<Text, Value>, key: &Text) -> bool
    ensures { result ≡ has_field (fields_of fields.now.entries) key.now }
{
    fields.contains_key(key)
}

fn same_entity_type(a: &EntityType, b: &EntityType) -> bool
    ensures { IsTrue result ↔ (a.now ≡ b.now) }
{
    *a == *b
}

fn is_open(o: OpenTag) -> bool
    ensures { IsTrue result ↔ IsOpen o }
{
    match o {
        OpenTag::OpenAttributes => true,
        OpenTag::ClosedAttributes => false,
    }
}

fn is_false(b: bool) -> bool
    ensures { IsTrue result ↔ (b ≡ false) }
{
    !b
}

fn primitive_has(p: Primitive, v: &Value) -> bool
    ensures { IsTrue result ↔ Member (primitive p) v.now }
{
    match (p, v.kind()) {
        (Primitive::Bool, ValueKind::Bool(_)) => true,
        (Primitive::Long, ValueKind::Long(_)) => true,
        (Primitive::String, ValueKind::String(_)) => true,
        _ => false,
    }
}

fn is_called(name: &Name, text: &str) -> bool
    ensures { IsTrue result ↔ (name.now ≡ text.now) }
{
    name.as_str() == text
}

fn extension_has(name: &Name, v: &Value) -> bool
    ensures { IsTrue result ↔ Member (extension name.now) v.now }
{
    match v.kind() {
        ValueKind::Decimal(_) => is_called(name, "decimal"),
        ValueKind::IpAddr(_) => is_called(name, "ipaddr"),
        ValueKind::DateTime(_) => is_called(name, "datetime"),
        ValueKind::Duration(_) => is_called(name, "duration"),
        _ => false,
    }
}

/// Whether a type has a value.
#[cycle(member)]
pub fn has_value(t: &Type, v: &Value) -> bool
    ensures { IsTrue result ↔ Member t.now v.now }
{
    match (t.kind(), v.kind()) {
        (TypeKind::True, ValueKind::Bool(b)) => *b,
        (TypeKind::False, ValueKind::Bool(b)) => is_false(*b),
        (TypeKind::Primitive { primitive_type }, _) => primitive_has(*primitive_type, v),
        (TypeKind::Set { element_type: None }, ValueKind::Set(_)) => true,
        (
            TypeKind::Set {
                element_type: Some(element),
            },
            ValueKind::Set(items),
        ) => have_all(element, items),
        (TypeKind::EntityOrRecord(kind), _) => kind_has(kind, v),
        (TypeKind::ExtensionType { name }, _) => extension_has(name, v),
        _ => false,
    }
}

#[cycle(member)]
fn kind_has(k: &EntityRecordKind, v: &Value) -> bool
    ensures { IsTrue result ↔ Member (kind_of k.now) v.now }
{
    match (k, v.kind()) {
        (
            EntityRecordKind::Record {
                attrs,
                open_attributes,
            },
            ValueKind::Record(fields),
        ) => has_required(attrs, fields) && are_typed(attrs, *open_attributes, fields),
        (EntityRecordKind::AnyEntity, ValueKind::EntityUID(_)) => true,
        (EntityRecordKind::Entity(lub), ValueKind::EntityUID(uid)) => lub.contains(
            &uid.entity_type,
        ),
        (EntityRecordKind::ActionEntity { name, .. }, ValueKind::EntityUID(uid)) => {
            same_entity_type(&uid.entity_type, name)
        }
        _ => false,
    }
}

#[cycle(member)]
#[tactic(auto, using(crate::proofs::MemberSteps::size_in))]
fn have_all(t: &Type, items: &Vec<Value>) -> bool
    ensures { IsTrue result ↔ Members t.now (vals_of items.now.items) }
{
    for item in items {
        if !has_value(t, item) {
            return false;
        }
    }
    true
}

fn has_required(attrs: &Attributes, fields: &BTreeMap<Text, Value>) -> bool
    ensures { IsTrue result ↔ HasRequired attrs.now (fields_of fields.now.entries) }
{
    for (key, x) in attrs.entries().iter() {
        let there = !x.is_required || has_field(fields, key);
        if !there {
            return false;
        }
    }
    true
}

#[cycle(member)]
fn are_typed(attrs: &Attributes, o: OpenTag, fields: &BTreeMap<Text, Value>) -> bool
    ensures { IsTrue result ↔ Typed o attrs.now (fields_of fields.now.entries) }
{
    for (key, v) in fields.iter() {
        match attrs.get_attr(key) {
            None => {
                if !is_open(o) {
                    return false;
                }
            }
            Some(x) => {
                if !has_value(&x.attr_type, v) {
                    return false;
                }
            }
        }
    }
    true
}
