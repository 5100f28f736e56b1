//! Levels.

ghost use Rattle.std.specs.Prelude.{◌≡◌, ◌<◌, IfSome};
ghost use Rattle.std.specs.Option.{option_copied};
ghost use Rattle.policy_values.specs.Uid.{uid_eq};
ghost use Rattle.policy_expressions.specs.Tree.{depth_of};
ghost use Rattle.type_relations.specs.Join.{is_entity};
ghost use Rattle.level_spec.specs.Levels.{is_reached, gives_entity, greater, one_more, literal_level};

use policy_expressions::{Expr, Literal};
use policy_values::EntityUID;
use schema_types::{EntityRecordKind, Type, TypeKind};
use std::cmp::Ordering;

/// Whether an expression is reached: then it has a type.
pub(crate) fn is_reached(e: &Expr<Option<Type>>) -> bool
    ensures { result ≡ is_reached e.now }
{
    e.data().is_some()
}

/// Whether an expression is typed as an entity.
pub(crate) fn gives_entity(e: &Expr<Option<Type>>) -> bool
    ensures { result ≡ gives_entity e.now }
{
    match e.data() {
        Some(of) => is_entity(of),
        None => false,
    }
}

fn is_entity(of: &Type) -> bool
    ensures { result ≡ is_entity of.now }
{
    match of.kind() {
        TypeKind::EntityOrRecord(EntityRecordKind::Record { .. }) => false,
        TypeKind::EntityOrRecord(_) => true,
        _ => false,
    }
}

/// The level of a literal: of the environment's action alone there is one.
pub(crate) fn literal_level(action: Option<&EntityUID>, literal: &Literal) -> Option<u32>
    ensures { result ≡ literal_level (option_copied action.entry) literal.now }
{
    match literal {
        Literal::EntityUID(uid) => match action {
            Some(action) if is_same(uid, action) => Some(0),
            _ => None,
        },
        Literal::Bool(_) | Literal::Long(_) | Literal::String(_) => None,
    }
}

fn is_same(one: &EntityUID, other: &EntityUID) -> bool
    ensures { result ≡ uid_eq one.now other.now }
{
    one.cmp(other) == Ordering::Equal
}

/// The greater level, where both are there.
pub(crate) fn greater(one: Option<u32>, other: Option<u32>) -> Option<u32>
    ensures { result ≡ greater one other }
{
    match (one, other) {
        (Some(one), Some(other)) => Some(one.max(other)),
        _ => None,
    }
}

/// One step further than an operand. Its level is below its depth, which is at most 400.
pub(crate) fn one_more(operand: &Expr<Option<Type>>, level: Option<u32>) -> Option<u32>
    requires { IfSome level (λ k. k < depth_of operand.now) }
    ensures { result ≡ one_more level }
{
    let _depth = operand.depth();
    match level {
        Some(level) => Some(level + 1),
        None => None,
    }
}
