//! What has to be true, and what false, where the decision is turned.

use crate::paths::holds;
use crate::place::{Dice, Place};
use crate::{Edit, Turn, Witness};
use policy_expressions::Expr;
use policy_set::{
    ActionConstraint, Effect, EntityReference, Policy, PolicySet, PrincipalOrResourceConstraint,
};
use policy_values::{EntityType, EntityUID};
use std::alloc::AllocError;

/// The policies that take part in the environment. One set is to say Allow, the other Deny.
#[derive(Drop)]
pub(crate) struct Plan<'a> {
    // The permits and the forbids of the set that is to say Allow.
    permits: Vec<&'a Policy>,
    forbids: Vec<&'a Policy>,
    // The permits of the other.
    others: Vec<&'a Policy>,
    /// The permits that only the one has, and the forbids that only the other has: of these one is true.
    pub(crate) targets: Vec<&'a Policy>,
}

impl<'a> Plan<'a> {
    /// What turns the decision so.
    pub(crate) fn new(
        at: &Place<'_, '_>,
        edit: &Edit<'a>,
        turn: Turn,
    ) -> Result<Plan<'a>, AllocError> {
        let mut targets = Vec::new(at.alloc);
        let (allowing, denying) = match turn {
            Turn::ToDeny => {
                add_own(at, &edit.removed, Effect::Permit, &mut targets)?;
                add_own(at, &edit.added, Effect::Forbid, &mut targets)?;
                (edit.before, edit.after)
            }
            Turn::ToAllow => {
                add_own(at, &edit.added, Effect::Permit, &mut targets)?;
                add_own(at, &edit.removed, Effect::Forbid, &mut targets)?;
                (edit.after, edit.before)
            }
        };
        let permits = of_effect(at, allowing, Effect::Permit)?;
        let forbids = of_effect(at, allowing, Effect::Forbid)?;
        let others = of_effect(at, denying, Effect::Permit)?;
        Ok(Plan {
            permits,
            forbids,
            others,
            targets,
        })
    }

    /// A condition that is still to become true or false, where the target is to be true.
    pub(crate) fn goal(
        &self,
        at: &Place<'_, '_>,
        shown: &Witness,
        target: &'a Policy,
        dice: &mut Dice,
    ) -> Result<Option<(&'a Expr<()>, bool)>, AllocError> {
        if !holds(at, shown, target.condition())? {
            return Ok(Some((target.condition(), true)));
        }
        if let Some(forbid) = first_true(at, shown, &self.forbids)? {
            return Ok(Some((forbid.condition(), false)));
        }
        let permit = match target.effect() {
            Effect::Permit => first_true(at, shown, &self.others)?,
            Effect::Forbid => None,
        };
        if let Some(permit) = permit {
            return Ok(Some((permit.condition(), false)));
        }
        if self.permits.is_empty() || first_true(at, shown, &self.permits)?.is_some() {
            return Ok(None);
        }
        let permit = self.permits[dice.throw() % self.permits.len()];
        Ok(Some((permit.condition(), true)))
    }
}

// The first of the policies that is true.
fn first_true<'a>(
    at: &Place<'_, '_>,
    shown: &Witness,
    policies: &Vec<&'a Policy>,
) -> Result<Option<&'a Policy>, AllocError> {
    for policy in policies {
        if holds(at, shown, policy.condition())? {
            return Ok(Some(*policy));
        }
    }
    Ok(None)
}

// Adds those with the effect that may be true in the environment.
fn add_own<'a>(
    at: &Place<'_, '_>,
    own: &Vec<&'a Policy>,
    effect: Effect,
    targets: &mut Vec<&'a Policy>,
) -> Result<(), AllocError> {
    for policy in own {
        if policy.effect() == effect && may_be_true(at, policy) {
            targets.push(*policy)?;
        }
    }
    Ok(())
}

// The policies of a set with the effect that may be true in the environment.
fn of_effect<'a>(
    at: &Place<'_, '_>,
    set: &'a PolicySet,
    effect: Effect,
) -> Result<Vec<&'a Policy>, AllocError> {
    let mut found = Vec::new(at.alloc);
    for policy in set.policies() {
        if policy.effect() == effect && may_be_true(at, policy) {
            found.push(policy)?;
        }
    }
    Ok(found)
}

// Whether the scope may be met in the environment.
fn may_be_true(at: &Place<'_, '_>, policy: &Policy) -> bool {
    let is_action = match policy.action_constraint() {
        ActionConstraint::Any => true,
        ActionConstraint::Eq(uid) => uid == at.action,
        ActionConstraint::In(uids) => is_action_in(at, uids.as_slice()),
    };
    is_action
        && may_be(at, at.principal, policy.principal_constraint())
        && may_be(at, at.resource, policy.resource_constraint())
}

// Whether the action is one of these, or in one.
fn is_action_in(at: &Place<'_, '_>, uids: &[EntityUID]) -> bool {
    for uid in uids {
        if uid == at.action {
            return true;
        }
        if let Some(declared) = at.schema.get_action_id(uid)
            && declared.has_descendant(at.action)
        {
            return true;
        }
    }
    false
}

// Whether an entity of the type may meet the constraint.
fn may_be(
    at: &Place<'_, '_>,
    entity_type: &EntityType,
    constraint: &PrincipalOrResourceConstraint,
) -> bool {
    match constraint {
        PrincipalOrResourceConstraint::Any => true,
        PrincipalOrResourceConstraint::Eq(EntityReference::EUID(uid)) => {
            uid.entity_type() == entity_type
        }
        PrincipalOrResourceConstraint::In(EntityReference::EUID(uid)) => {
            uid.entity_type() == entity_type || at.may_be_in(entity_type, uid.entity_type())
        }
        PrincipalOrResourceConstraint::Is(own) | PrincipalOrResourceConstraint::IsIn(own, _) => {
            own == entity_type
        }
        _ => true,
    }
}
