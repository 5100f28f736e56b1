//! The scope of a policy: some declared action has to meet it.

ghost use Rattle.std.specs.Prelude.{◌≡◌, IfOk, is_some};
ghost use Rattle.std.specs.List.{list_all, list_any};
ghost use Rattle.std.specs.Ordering.{is_eq};
ghost use Rattle.policy_values.specs.Uid.{text_cmp, uid_eq};
ghost use Rattle.policy_set.specs.Condition.{written_of};
ghost use Rattle.schema_core.specs.Schema.{action_at, type_below};
ghost use Rattle.schema_core.specs.Within.{is_action_within};
ghost use Rattle.policy_scope.specs.Scope.{action_meets, equal_meets, in_meets, type_meets, are_met, types_for, only_descendants, in_would_fix, scope_findings, application_findings};

use crate::met::{Asked, some_met};
use findings::InvalidActionApplication;
use policy_set::{
    ActionConstraint, EntityReference, Policy, PrincipalOrResourceConstraint, Template,
};
use policy_values::{EntityType, EntityUID, Text};
use schema_core::{ValidatorActionId, ValidatorSchema};
use std::alloc::{AllocError, Global};
use std::cmp::Ordering;
use std::collections::BTreeSet;

/// What is found of the template's scope where no declared action meets it. An action meets a scope where it
/// meets the part for the action and has a principal type and a resource type that meet the other two parts:
/// each meets a part that asks for nothing and a slot, the named entity's own type `==`, that type and its
/// descendants `in`, and the named type `is`. A list of actions is met by these and their descendants, where
/// each is declared.
pub fn validate_template_action_application(
    alloc: Global,
    schema: &ValidatorSchema,
    template: &Template,
) -> Result<Vec<InvalidActionApplication>, AllocError>
    ensures { IfOk result (λ found. found.items ≡ application_findings schema.now template.now) }
{
    application(
        alloc,
        schema,
        template.id(),
        template.principal_constraint(),
        template.action_constraint(),
        template.resource_constraint(),
    )
}

/// The same of a policy's own scope, which has the ids of a link in the places of slots.
pub fn validate_linked_action_application(
    alloc: Global,
    schema: &ValidatorSchema,
    policy: &Policy,
) -> Result<Vec<InvalidActionApplication>, AllocError>
    ensures { IfOk result (λ found. found.items ≡ application_findings schema.now (written_of policy.now)) }
{
    application(
        alloc,
        schema,
        policy.id(),
        policy.principal_constraint(),
        policy.action_constraint(),
        policy.resource_constraint(),
    )
}

// What is found of a scope of these parts.
fn application(
    alloc: Global,
    schema: &ValidatorSchema,
    policy_id: &Text,
    principal: &PrincipalOrResourceConstraint,
    action: &ActionConstraint,
    resource: &PrincipalOrResourceConstraint,
) -> Result<Vec<InvalidActionApplication>, AllocError>
    ensures { IfOk result (λ found. found.items ≡
        scope_findings schema.now policy_id.now principal.now action.now resource.now) }
{
    let mut found = Vec::new(alloc);
    if !some_met(schema, action, &Asked::Applies(principal, resource)) {
        found.push(InvalidActionApplication {
            source_loc: None,
            policy_id: policy_id.try_clone()?,
            would_in_fix_principal: in_would_fix(schema, Side::Principal, action, principal),
            would_in_fix_resource: in_would_fix(schema, Side::Resource, action, resource),
        })?;
    }
    Ok(found)
}

/// Whether the action meets what a scope asks of the action: it is the named one, or it is one of the list or
/// a descendant of one, where each of the list is declared.
pub fn action_meets(
    schema: &ValidatorSchema,
    constraint: &ActionConstraint,
    action: &ValidatorActionId,
) -> bool
    ensures { result ≡ action_meets schema.now constraint.now action.now }
{
    match constraint {
        ActionConstraint::Any => true,
        ActionConstraint::Eq(uid) => same_id(uid, action.name()),
        ActionConstraint::In(uids) => {
            let uids = uids.as_slice();
            are_declared(schema, uids) && is_within_some(schema, action.name(), uids)
        }
    }
}

// Whether each of these actions is declared.
pub(crate) fn are_declared(schema: &ValidatorSchema, uids: &[EntityUID]) -> bool
    ensures { result ≡ list_all (λ u. is_some (action_at schema.now u)) uids.now }
{
    uids.iter().all(|uid| schema.get_action_id(uid).is_some())
}

// Whether the action is one of these, or among the descendants of one.
fn is_within_some(schema: &ValidatorSchema, uid: &EntityUID, uids: &[EntityUID]) -> bool
    ensures { result ≡ list_any (is_action_within schema.now uid.now) uids.now }
{
    uids.iter()
        .any(|above| is_action_within(schema, uid, above))
}

fn same_id(one: &EntityUID, other: &EntityUID) -> bool
    ensures { result ≡ uid_eq one.now other.now }
{
    one.cmp(other) == Ordering::Equal
}

// Whether the action is the other, or among its descendants.
fn is_action_within(schema: &ValidatorSchema, uid: &EntityUID, above: &EntityUID) -> bool
    ensures { result ≡ is_action_within schema.now uid.now above.now }
{
    if same_id(uid, above) {
        return true;
    }
    match schema.get_action_id(above) {
        Some(declared) => declared.descendants().contains(uid),
        None => false,
    }
}

// Whether the action has a principal type and a resource type that meet the other parts.
pub(crate) fn are_met(
    schema: &ValidatorSchema,
    principal: &PrincipalOrResourceConstraint,
    resource: &PrincipalOrResourceConstraint,
    action: &ValidatorActionId,
) -> bool
    ensures { result ≡ are_met schema.now principal.now resource.now action.now }
{
    some_meets(schema, principal, action.applies_to_principals())
        && some_meets(schema, resource, action.applies_to_resources())
}

// Whether some type of the set meets the part.
fn some_meets(
    schema: &ValidatorSchema,
    constraint: &PrincipalOrResourceConstraint,
    types: &BTreeSet<EntityType>,
) -> bool
    ensures { result ≡ list_any (type_meets schema.now constraint.now) types.now.keys }
{
    for ty in types {
        if type_meets(schema, constraint, ty) {
            return true;
        }
    }
    false
}

/// Whether the type meets what a scope asks of the principal, or of the resource: it is the named entity's
/// own for `==`, that one or a descendant of it for `in`, the named one for `is`. Each type meets a slot.
pub fn type_meets(
    schema: &ValidatorSchema,
    constraint: &PrincipalOrResourceConstraint,
    ty: &EntityType,
) -> bool
    ensures { result ≡ type_meets schema.now constraint.now ty.now }
{
    match constraint {
        PrincipalOrResourceConstraint::Any => true,
        PrincipalOrResourceConstraint::Eq(entity) => equal_meets(entity, ty),
        PrincipalOrResourceConstraint::In(entity) => in_meets(schema, entity, ty),
        PrincipalOrResourceConstraint::Is(own) => same_type(own, ty),
        PrincipalOrResourceConstraint::IsIn(own, entity) => {
            same_type(own, ty) && in_meets(schema, entity, ty)
        }
    }
}

// Whether an entity of the type may be this one.
fn equal_meets(entity: &EntityReference, ty: &EntityType) -> bool
    ensures { result ≡ equal_meets entity.now ty.now }
{
    match entity {
        EntityReference::EUID(uid) => same_type(uid.entity_type(), ty),
        EntityReference::Slot => true,
    }
}

// Whether an entity of the type may be this one, or have it as an ancestor.
fn in_meets(schema: &ValidatorSchema, entity: &EntityReference, ty: &EntityType) -> bool
    ensures { result ≡ in_meets schema.now entity.now ty.now }
{
    match entity {
        EntityReference::EUID(uid) => {
            let own = uid.entity_type();
            same_type(ty, own) || type_below(schema, ty, own)
        }
        EntityReference::Slot => true,
    }
}

pub(crate) fn same_type(one: &EntityType, other: &EntityType) -> bool
    ensures { result ≡ is_eq (text_cmp one.now other.now) }
{
    one.cmp(other) == Ordering::Equal
}

// Whether the type is among the descendants of the other.
fn type_below(schema: &ValidatorSchema, ty: &EntityType, above: &EntityType) -> bool
    ensures { result ≡ type_below schema.now ty.now above.now }
{
    match schema.get_entity_type(above) {
        Some(declared) => declared.descendants().contains(ty),
        None => false,
    }
}

// The part of a request that a constraint is on.
#[derive(Clone, Copy)]
pub(crate) enum Side {
    Principal,
    Resource,
}

// The types that the action applies to on this side.
pub(crate) fn types_for(side: Side, action: &ValidatorActionId) -> &BTreeSet<EntityType>
    ensures { result.now.keys ≡ types_for side action.now }
{
    match side {
        Side::Principal => action.applies_to_principals(),
        Side::Resource => action.applies_to_resources(),
    }
}

// Whether `in` would be met in place of `==`: of the types of the actions that meet the part for the action,
// none is the named entity's own, and some is a descendant of it.
fn in_would_fix(
    schema: &ValidatorSchema,
    side: Side,
    action: &ActionConstraint,
    constraint: &PrincipalOrResourceConstraint,
) -> bool
    ensures { result ≡ in_would_fix schema.now side action.now constraint.now }
{
    match constraint {
        PrincipalOrResourceConstraint::Eq(EntityReference::EUID(uid)) => {
            only_descendants(schema, side, action, uid.entity_type())
        }
        _ => false,
    }
}

// Whether the types of the actions that meet the constraint have not this type, but some descendant of it.
fn only_descendants(
    schema: &ValidatorSchema,
    side: Side,
    constraint: &ActionConstraint,
    ty: &EntityType,
) -> bool
    ensures { result ≡ only_descendants schema.now side constraint.now ty.now }
{
    !some_met(schema, constraint, &Asked::Type(side, ty))
        && some_met(schema, constraint, &Asked::Below(side, ty))
}

// Whether some type of the set is among the descendants of this one.
pub(crate) fn some_below(
    schema: &ValidatorSchema,
    above: &EntityType,
    types: &BTreeSet<EntityType>,
) -> bool
    ensures { result ≡ list_any (λ ty. type_below schema.now ty above.now) types.now.keys }
{
    for ty in types {
        if type_below(schema, ty, above) {
            return true;
        }
    }
    false
}
