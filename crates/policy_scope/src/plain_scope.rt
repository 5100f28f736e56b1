//! Scopes that are typed by their names alone.

ghost use Rattle.std.specs.Prelude.{◌≡◌, is_some};
ghost use Rattle.std.specs.List.{list_all};
ghost use Rattle.schema_core.specs.EnvData.{literal_type};
ghost use Rattle.policy_scope.specs.PlainScope.{are_plain_actions, is_action_of, is_plain_action, is_plain_reference, is_plain_scope, is_plain_side};

use crate::scope::same_type;
use policy_set::{ActionConstraint, EntityReference, PrincipalOrResourceConstraint};
use policy_values::{EntityType, EntityUID};
use schema_core::ValidatorSchema;

/// Whether each id of a scope has a type, in that it is of a declared entity type or is a declared action,
/// and a list of actions is not empty and has declared actions of one type alone. To type such a scope finds
/// nothing in any environment, and where the scope is not met it is false.
pub fn is_plain_scope(
    schema: &ValidatorSchema,
    principal: &PrincipalOrResourceConstraint,
    action: &ActionConstraint,
    resource: &PrincipalOrResourceConstraint,
) -> bool
    ensures { result ≡ is_plain_scope schema.now principal.now action.now resource.now }
{
    is_plain_side(schema, principal)
        && is_plain_action(schema, action)
        && is_plain_side(schema, resource)
}

fn is_plain_side(schema: &ValidatorSchema, constraint: &PrincipalOrResourceConstraint) -> bool
    ensures { result ≡ is_plain_side schema.now constraint.now }
{
    match constraint {
        PrincipalOrResourceConstraint::Any | PrincipalOrResourceConstraint::Is(_) => true,
        PrincipalOrResourceConstraint::Eq(entity)
        | PrincipalOrResourceConstraint::In(entity)
        | PrincipalOrResourceConstraint::IsIn(_, entity) => is_plain_reference(schema, entity),
    }
}

fn is_plain_reference(schema: &ValidatorSchema, entity: &EntityReference) -> bool
    ensures { result ≡ is_plain_reference schema.now entity.now }
{
    match entity {
        EntityReference::EUID(uid) => has_type(schema, uid),
        EntityReference::Slot => true,
    }
}

// Whether the id is that of a declared action, or of a declared entity type.
fn has_type(schema: &ValidatorSchema, uid: &EntityUID) -> bool
    ensures { result ≡ is_some (literal_type schema.now uid.now) }
{
    schema.get_action_id(uid).is_some() || schema.get_entity_type(uid.entity_type()).is_some()
}

fn is_plain_action(schema: &ValidatorSchema, constraint: &ActionConstraint) -> bool
    ensures { result ≡ is_plain_action schema.now constraint.now }
{
    match constraint {
        ActionConstraint::Any => true,
        ActionConstraint::Eq(uid) => has_type(schema, uid),
        ActionConstraint::In(uids) => are_plain_actions(schema, uids.as_slice()),
    }
}

// Whether there are actions, all of them declared and of the type of the first.
fn are_plain_actions(schema: &ValidatorSchema, uids: &[EntityUID]) -> bool
    ensures { result ≡ are_plain_actions schema.now uids.now }
{
    match uids.first() {
        Some(first) => are_actions_of(schema, first.entity_type(), uids),
        None => false,
    }
}

// Whether each of these is a declared action of the type.
fn are_actions_of(schema: &ValidatorSchema, ty: &EntityType, uids: &[EntityUID]) -> bool
    ensures { result ≡ list_all (is_action_of schema.now ty.now) uids.now }
{
    uids.iter().all(|uid| is_action_of(schema, ty, uid))
}

// Whether the id is that of a declared action, and of the type.
fn is_action_of(schema: &ValidatorSchema, ty: &EntityType, uid: &EntityUID) -> bool
    ensures { result ≡ is_action_of schema.now ty.now uid.now }
{
    schema.get_action_id(uid).is_some() && same_type(ty, uid.entity_type())
}
