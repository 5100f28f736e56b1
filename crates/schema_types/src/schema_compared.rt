//! Schema types are equal where the types are that they name.

ghost use Rattle.std.specs.Prelude.{◌≡◌};
ghost use Rattle.schema_types.specs.SchemaView.{schema_ty_of, place_among};
ghost use Rattle.schema_types.specs.TyOrder.{ty_cmp, attrs_cmp};

use crate::order::open_place;
use crate::{SchemaAttributes, SchemaType, SchemaTypeKind};
use std::cmp::Ordering;

impl PartialEq for SchemaType {
    ghost use Rattle.std.specs.Ordering.{is_eq};
    ghost use Rattle.std.specs.Cmp.{partial_equiv_from_equiv};
    ghost use Rattle.std.proofs.lemmas.Cmp.{eq_by_cmp_equiv};
    ghost use Rattle.schema_types.specs.TyOrder.{ty_cmp};
    ghost use Rattle.schema_types.specs.TyLaws.{ty_cmp_total};

    ghost eq = { λ a b. is_eq (ty_cmp a b) };

    ghost laws = { partial_equiv_from_equiv (eq_by_cmp_equiv ty_cmp_total) };

    fn eq(&self, other: &SchemaType) -> bool {
        schema_compare(self, other) == Ordering::Equal
    }
}

impl Eq for SchemaType {
    ghost use Rattle.std.proofs.lemmas.Cmp.{eq_by_cmp_equiv};
    ghost use Rattle.schema_types.specs.TyLaws.{ty_cmp_total};

    ghost laws = { eq_by_cmp_equiv ty_cmp_total };
}

// The place of a kind among the others.
fn place_among(k: &SchemaTypeKind) -> u8
    ensures { result ≡ place_among k.now }
{
    match k {
        SchemaTypeKind::Bool => 0,
        SchemaTypeKind::Long => 1,
        SchemaTypeKind::String => 2,
        SchemaTypeKind::EmptySet => 3,
        SchemaTypeKind::Set { .. } => 4,
        SchemaTypeKind::Record { .. } => 5,
        SchemaTypeKind::Entity { .. } => 6,
        SchemaTypeKind::Extension { .. } => 7,
    }
}

#[cycle(schema_compare)]
fn schema_compare(a: &SchemaType, b: &SchemaType) -> Ordering
    ensures { result ≡ ty_cmp a.now b.now }
{
    schema_compare_kinds(a.kind(), b.kind())
}

#[cycle(schema_compare)]
fn schema_compare_kinds(a: &SchemaTypeKind, b: &SchemaTypeKind) -> Ordering
    ensures { result ≡ ty_cmp (schema_ty_of a.now) (schema_ty_of b.now) }
{
    match (a, b) {
        (SchemaTypeKind::Set { element_ty: x }, SchemaTypeKind::Set { element_ty: y }) =>
            schema_compare(x, y),
        (
            SchemaTypeKind::Record {
                attrs: x,
                open_attributes: o,
            },
            SchemaTypeKind::Record {
                attrs: y,
                open_attributes: p,
            },
        ) => schema_compare_attributes(x, y).then(open_place(*o).cmp(&open_place(*p))),
        (SchemaTypeKind::Entity { ty: x }, SchemaTypeKind::Entity { ty: y }) => x
            .cmp(y)
            .then(Ordering::Equal),
        (SchemaTypeKind::Extension { name: x }, SchemaTypeKind::Extension { name: y }) => x.cmp(y),
        _ => place_among(a).cmp(&place_among(b)),
    }
}

#[cycle(schema_compare)]
fn schema_compare_attributes(a: &SchemaAttributes, b: &SchemaAttributes) -> Ordering
    ensures { result ≡ attrs_cmp a.now b.now }
{
    let mut rest = b.entries().iter();
    for (key, x) in a.entries().iter() {
        match rest.next() {
            None => return Ordering::Greater,
            Some((other, y)) => {
                let types = schema_compare(&x.attr_type, &y.attr_type);
                let marks = types.then(x.is_required.cmp(&y.is_required));
                let first = key.cmp(other).then(marks);
                if first != Ordering::Equal {
                    return first;
                }
            }
        }
    }
    match rest.next() {
        None => Ordering::Equal,
        Some(_) => Ordering::Less,
    }
}
