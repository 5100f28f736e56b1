//! The rule of `in`.

ghost use Rattle.std.specs.Prelude.{◌≡◌, IfOk};
ghost use Rattle.std.specs.List.{list_any};
ghost use Rattle.std.specs.Option.{option_copied, option_map_or};
ghost use Rattle.schema_core.specs.RequestEnvs.{env_data_of};
ghost use Rattle.schema_core.specs.Schema.{type_below, action_below};
ghost use Rattle.schema_core.specs.Within as within;
ghost use Rattle.typing_spec.specs.Rules as rule;
ghost use Rattle.typing_spec.specs.Signatures.{bool_type};

use crate::booleans::possible;
use crate::environment::{known_id, listed_ids};
use crate::shapes::{is_entity, is_entity_or_set};
use policy_expressions::{Expr, ExprKind, Var};
use policy_values::{EntityType, EntityUID};
use schema_core::{RequestEnv, ValidatorSchema};
use schema_types::Type;
use std::alloc::{AllocError, Global};
use std::cmp::Ordering;

/// The type of `in`, by its operands and their types.
pub fn in_type<'a>(
    alloc: Global,
    schema: &ValidatorSchema,
    env: &RequestEnv<'a>,
    x: &'a Expr<()>,
    y: &'a Expr<()>,
    t: &Type,
    u: &Type,
) -> Result<Option<Type>, AllocError>
    ensures { IfOk result (λ o. o ≡ rule.in_type schema.now (env_data_of env.now) x.now y.now t.now u.now) }
{
    if is_entity(t) && is_entity_or_set(u) {
        match listed_ids(alloc, env, y)? {
            Some(ids) => Ok(Some(in_listed(schema, env, x, &ids))),
            None => Ok(Some(Type::primitive_boolean())),
        }
    } else {
        Ok(None)
    }
}

// With listed ids on the right.
fn in_listed<'a>(
    schema: &ValidatorSchema,
    env: &RequestEnv<'a>,
    x: &'a Expr<()>,
    ids: &[EntityUID],
) -> Type
    ensures { result ≡ rule.in_listed schema.now (env_data_of env.now) x.now ids.now }
{
    match x.kind() {
        ExprKind::Var(Var::Principal) => type_in(schema, env.principal_entity_type(), ids),
        ExprKind::Var(Var::Resource) => type_in(schema, env.resource_entity_type(), ids),
        _ => known_in(schema, known_id(env, x), ids),
    }
}

fn known_in(schema: &ValidatorSchema, uid: Option<&EntityUID>, ids: &[EntityUID]) -> Type
    ensures { result ≡
        option_map_or (λ u. rule.id_in schema.now u ids.now) (option_copied uid.entry) bool_type }
{
    match uid {
        Some(uid) => id_in(schema, uid, ids),
        None => Type::primitive_boolean(),
    }
}

fn type_in(schema: &ValidatorSchema, name: Option<&EntityType>, ids: &[EntityUID]) -> Type
    ensures { result ≡ rule.type_in schema.now (option_copied name.entry) ids.now }
{
    match name {
        Some(name) => possible(is_type_within_any(schema, name, ids)),
        None => Type::primitive_boolean(),
    }
}

fn id_in(schema: &ValidatorSchema, uid: &EntityUID, ids: &[EntityUID]) -> Type
    ensures { result ≡ rule.id_in schema.now uid.now ids.now }
{
    if uid.is_action() {
        possible(action_among(schema, uid, ids))
    } else {
        possible(entity_among(schema, uid, ids))
    }
}

// Whether the type is that of one of the ids, or among its descendants.
fn is_type_within_any(schema: &ValidatorSchema, name: &EntityType, ids: &[EntityUID]) -> bool
    ensures { result ≡ list_any (λ u. within.is_type_within schema.now name.now u.entity_type) ids.now }
{
    ids.iter()
        .any(|uid| is_type_within(schema, name, uid.entity_type()))
}

// Whether the action is one of the actions among the ids, or among its descendants.
fn action_among(schema: &ValidatorSchema, action: &EntityUID, ids: &[EntityUID]) -> bool
    ensures { result ≡ rule.action_among schema.now action.now ids.now }
{
    ids.iter().any(|uid| uid.is_action() && is_action_within(schema, action, uid))
}

// Whether the entity's type is that of one of the ids that are no actions, or among its descendants.
fn entity_among(schema: &ValidatorSchema, entity: &EntityUID, ids: &[EntityUID]) -> bool
    ensures { result ≡ rule.entity_among schema.now entity.now ids.now }
{
    ids.iter().any(|uid| {
        !uid.is_action() && is_type_within(schema, entity.entity_type(), uid.entity_type())
    })
}

fn is_type_within(schema: &ValidatorSchema, name: &EntityType, above: &EntityType) -> bool
    ensures { result ≡ within.is_type_within schema.now name.now above.now }
{
    name.cmp(above) == Ordering::Equal || is_type_below(schema, name, above)
}

fn is_type_below(schema: &ValidatorSchema, name: &EntityType, above: &EntityType) -> bool
    ensures { result ≡ type_below schema.now name.now above.now }
{
    match schema.get_entity_type(above) {
        Some(declared) => declared.descendants().contains(name),
        None => false,
    }
}

fn is_action_within(schema: &ValidatorSchema, action: &EntityUID, above: &EntityUID) -> bool
    ensures { result ≡ within.is_action_within schema.now action.now above.now }
{
    action.cmp(above) == Ordering::Equal || is_action_below(schema, action, above)
}

fn is_action_below(schema: &ValidatorSchema, action: &EntityUID, above: &EntityUID) -> bool
    ensures { result ≡ action_below schema.now action.now above.now }
{
    match schema.get_action_id(above) {
        Some(declared) => declared.descendants().contains(action),
        None => false,
    }
}
