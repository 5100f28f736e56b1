//! Whether the scope of some permit lets a principal in.

ghost use Rattle.std.specs.Prelude.{◌≡◌};
ghost use Rattle.std.specs.List.{list_any};
ghost use Rattle.policy_values.specs.Uid.{uid_eq};
ghost use Rattle.principal_listing.specs.Scopes.{is_named, is_under, is_of_type, takes_principal, may_take_action, lets_in};

use entity_store::{Entity, Request};
use policy_set::{
    ActionConstraint, Effect, EntityReference, Policy, PolicySet, PrincipalOrResourceConstraint,
};
use policy_values::{EntityType, EntityUID};

/// Whether the scope of some policy that permits may let the entity in as who asks. Where none does, the
/// decision is Deny. It takes no memory, and looks up no other entity.
pub(crate) fn some_lets_in(policies: &PolicySet, asked: &Request, entity: &Entity) -> bool
    ensures { result ≡ list_any (lets_in asked.now.action entity.now) policies.now.policies }
{
    for policy in policies.policies() {
        if lets_in(policy, asked, entity) {
            return true;
        }
    }
    false
}

fn lets_in(policy: &Policy, asked: &Request, entity: &Entity) -> bool
    ensures { result ≡ lets_in asked.now.action entity.now policy.now }
{
    match policy.effect() {
        Effect::Permit => {
            takes_principal(policy.principal_constraint(), entity)
                && may_take_action(policy.action_constraint(), &asked.action)
        }
        Effect::Forbid => false,
    }
}

// Whether the entity is what the scope asks of the principal.
fn takes_principal(constraint: &PrincipalOrResourceConstraint, entity: &Entity) -> bool
    ensures { result ≡ takes_principal entity.now constraint.now }
{
    match constraint {
        PrincipalOrResourceConstraint::Any => true,
        PrincipalOrResourceConstraint::Eq(named) => is_named(entity, named),
        PrincipalOrResourceConstraint::In(named) => is_under(entity, named),
        PrincipalOrResourceConstraint::Is(name) => is_of_type(entity, name),
        PrincipalOrResourceConstraint::IsIn(name, named) => {
            is_of_type(entity, name) && is_under(entity, named)
        }
    }
}

#[tactic(auto, using(crate::proofs::Unmet::uid_eq_texts))]
fn is_named(entity: &Entity, named: &EntityReference) -> bool
    ensures { result ≡ is_named entity.now named.now }
{
    match named {
        EntityReference::EUID(uid) => entity.uid() == uid,
        EntityReference::Slot => false,
    }
}

// Whether the entity is the one that is named, or has it as an ancestor.
#[tactic(auto, using(crate::proofs::Unmet::uid_eq_texts))]
fn is_under(entity: &Entity, named: &EntityReference) -> bool
    ensures { result ≡ is_under entity.now named.now }
{
    match named {
        EntityReference::EUID(uid) => entity.uid() == uid || has_ancestor(entity, uid),
        EntityReference::Slot => false,
    }
}

fn has_ancestor(entity: &Entity, uid: &EntityUID) -> bool
    ensures { result ≡ list_any (uid_eq uid.now) entity.now.ancestors }
{
    entity.has_ancestor(uid)
}

fn is_of_type(entity: &Entity, name: &EntityType) -> bool
    ensures { result ≡ is_of_type entity.now name.now }
{
    entity.uid().entity_type == *name
}

// Whether the action is no other than the only one that the scope names.
#[tactic(auto, using(crate::proofs::Unmet::uid_eq_texts))]
fn may_take_action(constraint: &ActionConstraint, asked: &Option<EntityUID>) -> bool
    ensures { result ≡ may_take_action constraint.now asked.now }
{
    match (constraint, asked) {
        (ActionConstraint::Eq(uid), Some(action)) => action == uid,
        _ => true,
    }
}
