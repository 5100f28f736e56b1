//! What makes a policy a link of a template.

ghost use Rattle.std.specs.Prelude.{◌≡◌, length, map, filter, None, Some, MatchResult};
ghost use Rattle.policy_set.specs.PolicySet.{given, slot_count, slot_values, slot_fault, is_same_slot};

use crate::{PolicySetError, PrincipalOrResourceConstraint, Template};
use policy_expressions::{SlotId, SlotValues};
use policy_values::{EntityUID, Text};
use std::marker::Model;

// The id of the template that is linked, and the ids that the link gives for its slots.
#[derive(Debug)]
pub(crate) struct Link {
    pub(crate) template: Text,
    pub(crate) values: SlotValues,
}

impl Drop for Link {
    fn drop(self) {
        let Link { template, values } = self;
        drop(template);
        drop(values);
    }
}

impl Model for Link {
    ghost use Rattle.policy_set.specs.Data.{LinkData, coded_link};

    ghost Value = { LinkData };

    ghost coded = { coded_link };

    ghost view = { λ l. record { template = l.template; values = l.values } };
}

// Whether each slot of the template is given one id, and no other slot is.
pub(crate) fn check_slots(
    template: &Template,
    values: &[(SlotId, EntityUID)],
) -> Result<(), PolicySetError>
    ensures { MatchResult result (λ _. slot_fault template.now values.now ≡ None)
        (λ e. slot_fault template.now values.now ≡ Some e) }
{
    let principal_slots = slot_count(template.principal_constraint());
    let principals = count_given(values, SlotId::Principal);
    if principals < principal_slots {
        return Err(PolicySetError::SlotMissing(SlotId::Principal));
    }
    let resource_slots = slot_count(template.resource_constraint());
    let resources = count_given(values, SlotId::Resource);
    if resources < resource_slots {
        return Err(PolicySetError::SlotMissing(SlotId::Resource));
    }
    if principals > principal_slots {
        return Err(PolicySetError::SlotExtra(SlotId::Principal));
    }
    if resources > resource_slots {
        return Err(PolicySetError::SlotExtra(SlotId::Resource));
    }
    Ok(())
}

// How many slots a constraint has.
fn slot_count(constraint: &PrincipalOrResourceConstraint) -> usize
    ensures { result ≡ slot_count constraint.now }
{
    if constraint.has_slot() { 1 } else { 0 }
}

// How many ids are given for a slot.
fn count_given(values: &[(SlotId, EntityUID)], slot: SlotId) -> usize
    ensures { result ≡ length (given values.now slot) }
{
    let mut count = 0;
    for value in values {
        if is_same_slot(value.0, slot) {
            count += 1;
        }
    }
    count
}

fn is_same_slot(a: SlotId, b: SlotId) -> bool
    ensures { result ≡ is_same_slot a b }
{
    matches!(
        (a, b),
        (SlotId::Principal, SlotId::Principal) | (SlotId::Resource, SlotId::Resource)
    )
}

// The first id that is given for each slot.
pub(crate) fn slot_values(values: Vec<(SlotId, EntityUID)>) -> SlotValues
    ensures { result ≡ slot_values values.items }
{
    let mut principal = None;
    let mut resource = None;
    for (slot, uid) in values {
        match slot {
            SlotId::Principal => principal = principal.or(Some(uid)),
            SlotId::Resource => resource = resource.or(Some(uid)),
        }
    }
    SlotValues {
        principal,
        resource,
    }
}
