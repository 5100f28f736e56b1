//! Subtyping.

ghost use Rattle.std.specs.Prelude.{◌≡◌, ◌↔◌, ◌⊎◌, IsTrue};
ghost use Rattle.schema_types.specs.declared.kinds.Primitive.TheVariants.{Bool};
ghost use Rattle.schema_types.specs.TyView.{kind_of, attrs_of};
ghost use Rattle.type_relations.specs.Subtype.{IsPermissive, SubOpen, IsOpen, SubRequired, SubEntity, Subtype, SubAttrs, Covers};

use crate::SubtypeMode;
use policy_values::{EntityType, Name, Text};
use schema_types::{
    AttributeType, Attributes, EntityLUB, EntityRecordKind, OpenTag, Primitive, Type, TypeKind,
};
use std::cmp::Ordering;

fn is_bool(p: Primitive) -> bool
    ensures { IsTrue result ↔ (p ≡ Bool) }
{
    p == Primitive::Bool
}

fn same_primitive(p: Primitive, q: Primitive) -> bool
    ensures { IsTrue result ↔ (p ≡ q) }
{
    p == q
}

fn same_text(a: &Text, b: &Text) -> bool
    ensures { IsTrue result ↔ (a.now ≡ b.now) }
{
    *a == *b
}

fn same_name(a: &Name, b: &Name) -> bool
    ensures { IsTrue result ↔ (a.now ≡ b.now) }
{
    *a == *b
}

fn same_entity_type(a: &EntityType, b: &EntityType) -> bool
    ensures { IsTrue result ↔ (a.now ≡ b.now) }
{
    *a == *b
}

#[tactic(auto, using(crate::proofs::Ties::exact_attrs, crate::proofs::Ties::less_attrs, crate::proofs::Ties::greater_attrs))]
fn same_attributes(a: &Attributes, b: &Attributes) -> bool
    ensures { IsTrue result ↔ (a.now ≡ b.now) }
{
    match a.cmp(b) {
        Ordering::Less => false,
        Ordering::Equal => true,
        Ordering::Greater => false,
    }
}

#[tactic(auto, using(crate::proofs::Ties::exact_texts, crate::proofs::Ties::less_texts, crate::proofs::Ties::greater_texts))]
fn same_entities(a: &EntityLUB, b: &EntityLUB) -> bool
    ensures { IsTrue result ↔ (a.now ≡ b.now) }
{
    match a.cmp(b) {
        Ordering::Less => false,
        Ordering::Equal => true,
        Ordering::Greater => false,
    }
}

fn is_permissive(mode: SubtypeMode) -> bool
    ensures { IsTrue result ↔ IsPermissive mode }
{
    match mode {
        SubtypeMode::Strict => false,
        SubtypeMode::Permissive => true,
    }
}

fn is_open(o: OpenTag) -> bool
    ensures { IsTrue result ↔ IsOpen o }
{
    match o {
        OpenTag::OpenAttributes => true,
        OpenTag::ClosedAttributes => false,
    }
}

fn is_sub_open(o: OpenTag, p: OpenTag) -> bool
    ensures { IsTrue result ↔ SubOpen o p }
{
    match (o, p) {
        (OpenTag::OpenAttributes, OpenTag::ClosedAttributes) => false,
        _ => true,
    }
}

fn is_sub_required(mode: SubtypeMode, q: bool, r: bool) -> bool
    ensures { IsTrue result ↔ SubRequired mode q r }
{
    match mode {
        SubtypeMode::Strict => q == r,
        SubtypeMode::Permissive => q || !r,
    }
}

/// Whether a value of the first type may stand where the second is expected.
#[cycle(subtype)]
pub fn is_subtype(a: &Type, b: &Type, mode: SubtypeMode) -> bool
    ensures { IsTrue result ↔ Subtype mode a.now b.now }
{
    match (a.kind(), b.kind()) {
        (TypeKind::Never, _) => true,
        (TypeKind::True, TypeKind::True) => true,
        (TypeKind::True, TypeKind::Primitive { primitive_type: p }) => is_bool(*p),
        (TypeKind::False, TypeKind::False) => true,
        (TypeKind::False, TypeKind::Primitive { primitive_type: p }) => is_bool(*p),
        (TypeKind::Primitive { primitive_type: p }, TypeKind::Primitive { primitive_type: q }) =>
            same_primitive(*p, *q),
        (TypeKind::Set { .. }, TypeKind::Set { element_type: None }) => true,
        (
            TypeKind::Set {
                element_type: Some(x),
            },
            TypeKind::Set {
                element_type: Some(y),
            },
        ) => is_subtype(x, y, mode),
        (TypeKind::EntityOrRecord(x), TypeKind::EntityOrRecord(y)) => is_sub_kind(x, y, mode),
        (TypeKind::ExtensionType { name: x }, TypeKind::ExtensionType { name: y }) => same_name(
            x, y,
        ),
        _ => false,
    }
}

#[cycle(subtype)]
fn is_sub_kind(a: &EntityRecordKind, b: &EntityRecordKind, mode: SubtypeMode) -> bool
    ensures { IsTrue result ↔ Subtype mode (kind_of a.now) (kind_of b.now) }
{
    match (a, b) {
        (
            EntityRecordKind::Record {
                attrs: x,
                open_attributes: o,
            },
            EntityRecordKind::Record {
                attrs: y,
                open_attributes: p,
            },
        ) => is_sub_open(*o, *p) && is_sub_attributes(x, y, *p, mode),
        (EntityRecordKind::AnyEntity, EntityRecordKind::AnyEntity) => true,
        (EntityRecordKind::Entity(_), EntityRecordKind::AnyEntity) => is_permissive(mode),
        (EntityRecordKind::Entity(x), EntityRecordKind::Entity(y)) => is_sub_entity(x, y, mode),
        (EntityRecordKind::ActionEntity { .. }, EntityRecordKind::AnyEntity) => {
            is_permissive(mode)
        }
        (
            EntityRecordKind::ActionEntity { name: m, attrs: x },
            EntityRecordKind::ActionEntity { name: n, attrs: y },
        ) => same_entity_type(m, n) && same_attributes(x, y),
        _ => false,
    }
}

// Attributes of the same keys are also among those of an open record, so one walk is enough.
#[cycle(subtype)]
fn is_sub_attributes(a: &Attributes, b: &Attributes, p: OpenTag, mode: SubtypeMode) -> bool
    ensures { IsTrue result ↔
        ((IsPermissive mode × IsOpen p × Covers mode a.now b.now) ⊎ SubAttrs mode a.now b.now) }
{
    if is_permissive(mode) && is_open(p) {
        covers(a, b, mode)
    } else {
        is_sub_attrs(a, b, mode)
    }
}

#[cycle(subtype)]
fn is_sub_attrs(a: &Attributes, b: &Attributes, mode: SubtypeMode) -> bool
    ensures { IsTrue result ↔ SubAttrs mode a.now b.now }
{
    let mut rest = b.entries().iter();
    for (key, x) in a.entries().iter() {
        match rest.next() {
            None => return false,
            Some((other, y)) => {
                if !same_text(key, other) || !is_below(x, y, mode) {
                    return false;
                }
            }
        }
    }
    match rest.next() {
        None => true,
        Some(_) => false,
    }
}

#[cycle(subtype)]
fn is_below(x: &AttributeType, y: &AttributeType, mode: SubtypeMode) -> bool
    ensures { IsTrue result ↔ (Subtype mode x.now.attr_type y.now.attr_type ×
        SubRequired mode x.now.is_required y.now.is_required) }
{
    is_subtype(&x.attr_type, &y.attr_type, mode)
        && is_sub_required(mode, x.is_required, y.is_required)
}

#[cycle(subtype)]
fn covers(a: &Attributes, b: &Attributes, mode: SubtypeMode) -> bool
    ensures { IsTrue result ↔ Covers mode a.now b.now }
{
    let mut rest = b.entries().iter();
    let mut expected = rest.next();
    for (key, x) in a.entries().iter() {
        match expected {
            None => return true,
            Some((other, y)) => {
                if same_text(key, other) && is_below(x, y, mode) {
                    expected = rest.next();
                }
            }
        }
    }
    match expected {
        None => true,
        Some(_) => false,
    }
}

fn is_sub_entity(a: &EntityLUB, b: &EntityLUB, mode: SubtypeMode) -> bool
    ensures { IsTrue result ↔ SubEntity mode a.now b.now }
{
    match mode {
        SubtypeMode::Strict => same_entities(a, b),
        SubtypeMode::Permissive => a.is_subtype(b),
    }
}
