//! The actions that meet what a scope asks of the action.

ghost use Rattle.std.specs.Prelude.{◌≡◌, ◌||◌, filter, is_some, IfOk, OnOk};
ghost use Rattle.std.specs.List.{list_all, list_any};
ghost use Rattle.policy_values.specs.Reaches.{has};
ghost use Rattle.policy_values.specs.declared.entity_uid.EntityUID.{EntityUID as Uid};
ghost use Rattle.policy_values.specs.Uid.{uid_cmp, uid_eq};
ghost use Rattle.schema_core.specs.Faults.{IsSchema};
ghost use Rattle.schema_core.specs.Schema.{action_at};
ghost use Rattle.schema_core.specs.Within.{is_action_within};
ghost use Rattle.policy_scope.specs.Scope.{action_meets};
ghost use Rattle.policy_typecheck.specs.Pointed.{pointed};

use policy_set::ActionConstraint;
use policy_values::EntityUID;
use schema_core::{ValidatorActionId, ValidatorSchema, add_all};
use std::alloc::{AllocError, Global};
use std::collections::BTreeSet;

/// The actions that meet what a scope asks of the action, ascending. A named one is looked up, and of a list
/// the ids that meet it are collected first, so that the time grows with the actions and the list, and not
/// with their product.
pub(crate) fn met_actions<'a>(
    alloc: Global,
    schema: &'a ValidatorSchema,
    constraint: &ActionConstraint,
) -> Result<Vec<&'a ValidatorActionId>, AllocError>
    ensures schema { IsSchema schema.now }
    ensures met { IfOk result (λ r. pointed r.items ≡
        filter (action_meets schema.now constraint.now) schema.now.action_ids) }
{
    let actions = schema.action_ids();
    match constraint {
        ActionConstraint::Any => every(alloc, actions),
        ActionConstraint::Eq(uid) => named(alloc, schema, uid),
        ActionConstraint::In(uids) => listed(alloc, schema, uids.as_slice()),
    }
}

fn every(
    alloc: Global,
    actions: &[ValidatorActionId],
) -> Result<Vec<&ValidatorActionId>, AllocError>
    ensures { IfOk result (λ r. pointed r.items ≡ actions.now) }
{
    let mut met = Vec::new(alloc);
    for action in actions {
        met.push(action)?;
    }
    Ok(met)
}

fn named<'a>(
    alloc: Global,
    schema: &'a ValidatorSchema,
    uid: &EntityUID,
) -> Result<Vec<&'a ValidatorActionId>, AllocError>
    requires { IsSchema schema.now }
    ensures { IfOk result (λ r. pointed r.items ≡
        filter (λ a. uid_eq uid.now a.name) schema.now.action_ids) }
{
    match schema.get_action_id(uid) {
        Some(action) => {
            let mut met = Vec::new(alloc);
            met.push(action)?;
            Ok(met)
        }
        None => Ok(Vec::new(alloc)),
    }
}

// Those of a list and what is in them, where each of the list is declared.
fn listed<'a>(
    alloc: Global,
    schema: &'a ValidatorSchema,
    uids: &[EntityUID],
) -> Result<Vec<&'a ValidatorActionId>, AllocError>
    requires { IsSchema schema.now }
    ensures { IfOk result (λ r. pointed r.items ≡
        filter (action_meets schema.now (ActionConstraint.In uids.now)) schema.now.action_ids) }
{
    if are_declared(schema, uids) {
        let ids = ids_within(alloc, schema, uids)?;
        among(alloc, schema.action_ids(), &ids)
    } else {
        Ok(Vec::new(alloc))
    }
}

fn are_declared(schema: &ValidatorSchema, uids: &[EntityUID]) -> bool
    ensures { result ≡ list_all (λ u. is_some (action_at schema.now u)) uids.now }
{
    uids.iter().all(|uid| schema.get_action_id(uid).is_some())
}

// The ids of a list and of all that is in them. What an earlier one has brought in is no longer looked at.
fn ids_within(
    alloc: Global,
    schema: &ValidatorSchema,
    uids: &[EntityUID],
) -> Result<BTreeSet<EntityUID>, AllocError>
    requires { IsSchema schema.now }
    ensures { IfOk result (λ ids. (q : Uid) → has uid_cmp ids.keys q ≡
        list_any (is_action_within schema.now q) uids.now) }
{
    let mut ids = BTreeSet::new(alloc);
    for uid in uids {
        if is_in(&ids, uid) {
            continue;
        }
        add_within(&mut ids, schema, uid)?;
    }
    Ok(ids)
}

fn add_within(
    ids: &mut BTreeSet<EntityUID>,
    schema: &ValidatorSchema,
    uid: &EntityUID,
) -> Result<(), AllocError>
    ensures { OnOk result ((q : Uid) → has uid_cmp ids.new.keys q ≡
        (has uid_cmp ids.old.keys q || is_action_within schema.now q uid.now)) }
{
    ids.insert(uid.clone()?)?;
    match schema.get_action_id(uid) {
        Some(action) => add_all(ids, action.descendants()),
        None => Ok(()),
    }
}

fn among<'a>(
    alloc: Global,
    actions: &'a [ValidatorActionId],
    ids: &BTreeSet<EntityUID>,
) -> Result<Vec<&'a ValidatorActionId>, AllocError>
    ensures { IfOk result (λ r. pointed r.items ≡
        filter (λ a. has uid_cmp ids.now.keys a.name) actions.now) }
{
    let mut met = Vec::new(alloc);
    for action in actions {
        if is_in(ids, action.name()) {
            met.push(action)?;
        }
    }
    Ok(met)
}

fn is_in(ids: &BTreeSet<EntityUID>, uid: &EntityUID) -> bool
    ensures { result ≡ has uid_cmp ids.now.keys uid.now }
{
    ids.contains(uid)
}
