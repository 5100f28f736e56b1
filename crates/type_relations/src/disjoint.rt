//! Types that have no value in common.

ghost use Rattle.std.specs.Prelude.{◌≡◌, ◌∷◌, [], ◌↔◌, IsTrue};
ghost use Rattle.schema_types.specs.Names.{AreApart};
ghost use Rattle.schema_types.specs.TyView.{kind_of};
ghost use Rattle.type_relations.specs.Attributes.{names_of, AreApartIfKnown, AreDisjoint};

use policy_values::EntityType;
use schema_types::{EntityLUB, EntityRecordKind, Type, TypeKind};
use std::cmp::Ordering;

/// Whether it is sure that no value is of both types.
pub fn are_types_disjoint(a: &Type, b: &Type) -> bool
    ensures { IsTrue result ↔ AreDisjoint a.now b.now }
{
    match (a.kind(), b.kind()) {
        (TypeKind::EntityOrRecord(x), TypeKind::EntityOrRecord(y)) => are_kinds_disjoint(x, y),
        _ => false,
    }
}

fn are_kinds_disjoint(a: &EntityRecordKind, b: &EntityRecordKind) -> bool
    ensures { IsTrue result ↔ AreDisjoint (kind_of a.now) (kind_of b.now) }
{
    match (a, b) {
        (EntityRecordKind::Entity(x), EntityRecordKind::Entity(y)) => x.is_disjoint(y),
        (EntityRecordKind::Entity(x), EntityRecordKind::ActionEntity { name, .. }) => {
            is_without(x, name)
        }
        (EntityRecordKind::ActionEntity { name, .. }, EntityRecordKind::Entity(y)) => {
            is_outside(name, y)
        }
        (
            EntityRecordKind::ActionEntity { name: m, .. },
            EntityRecordKind::ActionEntity { name: n, .. },
        ) => differ(m, n),
        _ => false,
    }
}

fn is_without(lub: &EntityLUB, name: &EntityType) -> bool
    ensures { IsTrue result ↔ AreApart lub.now (name.now ∷ []) }
{
    !lub.contains(name)
}

fn is_outside(name: &EntityType, lub: &EntityLUB) -> bool
    ensures { IsTrue result ↔ AreApart (name.now ∷ []) lub.now }
{
    !lub.contains(name)
}

fn differ(a: &EntityType, b: &EntityType) -> bool
    ensures { IsTrue result ↔ AreApart (a.now ∷ []) (b.now ∷ []) }
{
    match b.cmp(a) {
        Ordering::Less => true,
        Ordering::Equal => false,
        Ordering::Greater => true,
    }
}
