//! The order of types.

ghost use Rattle.std.specs.Prelude.{◌≡◌};
ghost use Rattle.schema_types.specs.TyView.{ty_of, kind_of};
ghost use Rattle.schema_types.specs.TyOrder.{place_of, open_place, rank, ty_cmp, attrs_cmp};

use crate::{Attributes, EntityRecordKind, OpenTag, Primitive, Type, TypeKind};
use std::cmp::Ordering;

pub fn place_of(p: Primitive) -> u8
    ensures { result ≡ place_of p }
{
    match p {
        Primitive::Bool => 0,
        Primitive::Long => 1,
        Primitive::String => 2,
    }
}

pub fn open_place(o: OpenTag) -> u8
    ensures { result ≡ open_place o }
{
    match o {
        OpenTag::OpenAttributes => 0,
        OpenTag::ClosedAttributes => 1,
    }
}

fn rank(k: &TypeKind) -> u8
    ensures { result ≡ rank (ty_of k.now) }
{
    match k {
        TypeKind::Never => 0,
        TypeKind::True => 1,
        TypeKind::False => 2,
        TypeKind::Primitive { .. } => 3,
        TypeKind::Set { element_type: None } => 4,
        TypeKind::Set {
            element_type: Some(_),
        } => 5,
        TypeKind::EntityOrRecord(kind) => rank_of_kind(kind),
        TypeKind::ExtensionType { .. } => 10,
    }
}

fn rank_of_kind(k: &EntityRecordKind) -> u8
    ensures { result ≡ rank (kind_of k.now) }
{
    match k {
        EntityRecordKind::Record { .. } => 6,
        EntityRecordKind::AnyEntity => 7,
        EntityRecordKind::Entity(_) => 8,
        EntityRecordKind::ActionEntity { .. } => 9,
    }
}

#[cycle(compare)]
pub fn compare(a: &Type, b: &Type) -> Ordering
    ensures { result ≡ ty_cmp a.now b.now }
{
    compare_type_kinds(a.kind(), b.kind())
}

#[cycle(compare)]
pub fn compare_type_kinds(a: &TypeKind, b: &TypeKind) -> Ordering
    ensures { result ≡ ty_cmp (ty_of a.now) (ty_of b.now) }
{
    match (a, b) {
        (TypeKind::Primitive { primitive_type: x }, TypeKind::Primitive { primitive_type: y }) =>
            place_of(*x).cmp(&place_of(*y)),
        (
            TypeKind::Set {
                element_type: Some(x),
            },
            TypeKind::Set {
                element_type: Some(y),
            },
        ) => compare(x, y),
        (TypeKind::EntityOrRecord(x), TypeKind::EntityOrRecord(y)) => compare_kinds(x, y),
        (TypeKind::ExtensionType { name: x }, TypeKind::ExtensionType { name: y }) => x.cmp(y),
        _ => rank(a).cmp(&rank(b)),
    }
}

#[cycle(compare)]
pub fn compare_kinds(a: &EntityRecordKind, b: &EntityRecordKind) -> Ordering
    ensures { result ≡ ty_cmp (kind_of a.now) (kind_of b.now) }
{
    match (a, b) {
        (
            EntityRecordKind::Record {
                attrs: x,
                open_attributes: o,
            },
            EntityRecordKind::Record {
                attrs: y,
                open_attributes: p,
            },
        ) => compare_attributes(x, y).then(open_place(*o).cmp(&open_place(*p))),
        (EntityRecordKind::Entity(x), EntityRecordKind::Entity(y)) => x.cmp(y),
        (
            EntityRecordKind::ActionEntity { name: m, attrs: x },
            EntityRecordKind::ActionEntity { name: n, attrs: y },
        ) => m.cmp(n).then(compare_attributes(x, y)),
        _ => rank_of_kind(a).cmp(&rank_of_kind(b)),
    }
}

#[cycle(compare)]
pub fn compare_attributes(a: &Attributes, b: &Attributes) -> Ordering
    ensures { result ≡ attrs_cmp a.now b.now }
{
    let mut rest = b.entries().iter();
    for (key, x) in a.entries().iter() {
        match rest.next() {
            None => return Ordering::Greater,
            Some((other, y)) => {
                let types = compare(&x.attr_type, &y.attr_type);
                let marks = types.then(x.is_required.cmp(&y.is_required));
                let first = key.cmp(other).then(marks);
                if first != Ordering::Equal {
                    return first;
                }
            }
        }
    }
    match rest.next() {
        None => Ordering::Equal,
        Some(_) => Ordering::Less,
    }
}
