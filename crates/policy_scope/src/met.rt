//! Whether some of the actions that meet what a scope asks of the action has what else is asked.

ghost use Rattle.std.specs.Prelude.{◌≡◌};
ghost use Rattle.std.specs.List.{list_any};
ghost use Rattle.policy_values.specs.Uid.{uid_eq};
ghost use Rattle.schema_core.specs.Faults.{IsSchema};
ghost use Rattle.schema_core.specs.Within.{is_action_within};
ghost use Rattle.policy_scope.specs.Met.{has_asked, some_has};
ghost use Rattle.policy_scope.specs.Scope.{action_meets};

use crate::scope::{Side, are_declared, are_met, some_below, types_for};
use policy_set::{ActionConstraint, PrincipalOrResourceConstraint};
use policy_values::{EntityType, EntityUID};
use schema_core::{ValidatorActionId, ValidatorSchema};
use std::collections::BTreeSet;

/// What is asked of an action beside its id.
#[derive(Clone, Copy)]
pub(crate) enum Asked<'a> {
    /// A principal type and a resource type that meet these parts of a scope.
    Applies(&'a PrincipalOrResourceConstraint, &'a PrincipalOrResourceConstraint),
    /// This type.
    Type(Side, &'a EntityType),
    /// A descendant of this type.
    Below(Side, &'a EntityType),
}

/// Whether some action that meets the constraint has what is asked. A named one is looked up, and of a list
/// the actions that meet it, so that the time grows with the list, and not with the actions of the schema.
pub(crate) fn some_met(
    schema: &ValidatorSchema,
    constraint: &ActionConstraint,
    asked: &Asked<'_>,
) -> bool
    ensures { result ≡ some_has schema.now asked.now (action_meets schema.now constraint.now) }
{
    let actions = schema.action_ids();
    match constraint {
        ActionConstraint::Any => actions
            .iter()
            .any(|action| has_asked(schema, action, asked)),
        ActionConstraint::Eq(uid) => named_has(schema, uid, asked),
        ActionConstraint::In(uids) => listed_has(schema, uids.as_slice(), asked),
    }
}

fn listed_has(schema: &ValidatorSchema, uids: &[EntityUID], asked: &Asked<'_>) -> bool
    requires { IsSchema schema.now }
    ensures { result ≡
        some_has schema.now asked.now (action_meets schema.now (ActionConstraint.In uids.now)) }
{
    are_declared(schema, uids) && some_listed_has(schema, uids, asked)
}

fn some_listed_has(schema: &ValidatorSchema, uids: &[EntityUID], asked: &Asked<'_>) -> bool
    requires { IsSchema schema.now }
    ensures { result ≡ list_any
        (λ u. some_has schema.now asked.now (λ a. is_action_within schema.now a.name u)) uids.now }
{
    uids.iter().any(|uid| some_within_has(schema, uid, asked))
}

fn has_asked(schema: &ValidatorSchema, action: &ValidatorActionId, asked: &Asked<'_>) -> bool
    ensures { result ≡ has_asked schema.now asked.now action.now }
{
    match asked {
        Asked::Applies(principal, resource) => are_met(schema, principal, resource, action),
        Asked::Type(side, ty) => types_for(*side, action).contains(*ty),
        Asked::Below(side, above) => some_below(schema, above, types_for(*side, action)),
    }
}

fn named_has(schema: &ValidatorSchema, uid: &EntityUID, asked: &Asked<'_>) -> bool
    requires { IsSchema schema.now }
    ensures { result ≡ some_has schema.now asked.now (λ a. uid_eq uid.now a.name) }
{
    match schema.get_action_id(uid) {
        Some(action) => has_asked(schema, action, asked),
        None => false,
    }
}

fn some_within_has(schema: &ValidatorSchema, uid: &EntityUID, asked: &Asked<'_>) -> bool
    requires { IsSchema schema.now }
    ensures { result ≡ some_has schema.now asked.now (λ a. is_action_within schema.now a.name uid.now) }
{
    match schema.get_action_id(uid) {
        Some(action) => {
            has_asked(schema, action, asked) || some_named_has(schema, action.descendants(), asked)
        }
        None => false,
    }
}

fn some_named_has(schema: &ValidatorSchema, uids: &BTreeSet<EntityUID>, asked: &Asked<'_>) -> bool
    requires { IsSchema schema.now }
    ensures { result ≡ list_any (λ u. some_has schema.now asked.now (λ a. uid_eq u a.name)) uids.now.keys }
{
    for uid in uids {
        if named_has(schema, uid, asked) {
            return true;
        }
    }
    false
}
