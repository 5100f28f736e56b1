//! Whether principals of a store may do what a request asks.

ghost use Rattle.std.specs.Prelude.{◌≡◌, ◌&&◌, IfOk};
ghost use Rattle.std.specs.Option.{option_copied};
ghost use Rattle.entity_store.specs.Request.{IsWhole};
ghost use Rattle.policy_set.specs.Response.{response};
ghost use Rattle.reads_spec.specs.Among.{IsIn};
ghost use Rattle.principal_listing.specs.Allowed.{passed_over, is_allow};
ghost use Rattle.principal_listing.specs.Pages.{comes_after};
ghost use Rattle.principal_listing.specs.Ready.{IsListingReady, takes, is_candidate, is_listed_after};

use crate::laws::candidates_keep_rules;
use crate::scopes::some_lets_in;
use entity_store::{Entities, Entity, Request};
use policy_set::{Decision, PolicySet, decide};
use policy_values::{EntityType, EntityUID};
use schema_core::{ValidatorActionId, ValidatorSchema};
use std::alloc::{AllocError, Global};

/// What principals are decided by.
#[derive(Drop)]
pub(crate) struct Listing<'a> {
    /// The schema.
    pub(crate) schema: &'a ValidatorSchema,
    /// The request's action, where it is declared.
    pub(crate) action: Option<&'a ValidatorActionId>,
    /// The policies, which are accepted.
    pub(crate) policies: &'a PolicySet,
    /// The whole store.
    pub(crate) entities: &'a Entities,
}

/// Whether a principal of the store is one of those that come after this id, if there is one, and may do what
/// is asked. The request becomes the principal's where the policies are asked; whom no permit's scope lets in
/// is denied without that.
pub(crate) fn is_listed(
    alloc: Global,
    listing: &Listing<'_>,
    asked: &mut Request,
    after: Option<&EntityUID>,
    entity: &Entity,
) -> Result<bool, AllocError>
    requires ready { IsListingReady listing.now (passed_over asked.old) }
    requires entity { IsIn entity.now listing.now.entities.now }
    ensures listed { IfOk result (λ b. b ≡
        is_listed_after listing.now asked.old (option_copied after.entry) entity.now.uid) }
    ensures asked { passed_over asked.new ≡ passed_over asked.old }
{
    candidates_keep_rules();
    let uid = entity.uid();
    if !is_candidate(listing.action, after, uid) {
        return Ok(false);
    }
    if !some_lets_in(listing.policies, asked, entity) {
        return Ok(false);
    }
    let principal = uid.try_clone()?;
    asked.principal = Some(principal);
    is_allowed(alloc, listing.policies, asked, listing.entities)
}

// Whether the id comes after that one, and is of a type to which the action applies.
fn is_candidate(
    action: Option<&ValidatorActionId>,
    after: Option<&EntityUID>,
    uid: &EntityUID,
) -> bool
    ensures { result ≡ is_candidate (option_copied action.entry) (option_copied after.entry) uid.now }
{
    comes_after(after, uid) && applies_to(action, &uid.entity_type)
}

// Whether the id comes after this one; each does, where there is none.
fn comes_after(after: Option<&EntityUID>, uid: &EntityUID) -> bool
    ensures { result ≡ comes_after (option_copied after.entry) uid.now }
{
    match after {
        Some(after) => after < uid,
        None => true,
    }
}

// Whether the action, where it is declared, applies to principals of the type.
fn applies_to(action: Option<&ValidatorActionId>, name: &EntityType) -> bool
    ensures { result ≡ takes (option_copied action.entry) name.now }
{
    match action {
        Some(action) => action.applies_to_principals().contains(name),
        None => false,
    }
}

// Whether the decision on the entities is Allow.
fn is_allowed(
    alloc: Global,
    policies: &PolicySet,
    asked: &Request,
    entities: &Entities,
) -> Result<bool, AllocError>
    requires { IsWhole asked.now }
    ensures { IfOk result (λ b. b ≡
        is_allow (response policies.now.policies asked.now entities.now).decision) }
{
    match decide(alloc, policies, asked, entities)?.decision() {
        Decision::Allow => Ok(true),
        Decision::Deny => Ok(false),
    }
}
