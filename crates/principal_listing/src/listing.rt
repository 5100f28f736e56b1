//! Pages of the principals of a store that may do what a request asks.

ghost use Rattle.std.specs.Prelude.{◌≡◌, ◌≤◌, IfOk, OnOk, IfErr, IsSome};
ghost use Rattle.std.specs.Option.{option_copied};
ghost use Rattle.entity_store.specs.Request.{action_of};
ghost use Rattle.schema_core.specs.Schema.{action_at};
ghost use Rattle.principal_listing.specs.Allowed.{allowed_principals, passed_over, KeepOtherRules};
ghost use Rattle.principal_listing.specs.Pages.{page_ids, has_more, IsPage};
ghost use Rattle.principal_listing.specs.Ready.{IsListingReady};
ghost use Rattle.principal_listing.specs.Refused.{WhyNoPage};

use crate::candidates::{Listing, is_listed};
use crate::checks::checked;
use crate::{ListError, Page};
use entity_store::{Entities, Request};
use policy_set::PolicySet;
use policy_set::laws::is_policy_set;
use policy_values::EntityUID;
use schema_core::{ValidatorActionId, ValidatorSchema};
use std::alloc::{AllocError, Global};
use table_loader::entities_are_ordered;

/// The first principals of the store, as many as the limit at most, that may do what the request asks,
/// ascending, of those whose ids come after this one, which need not be in the store; without one from the
/// first on. They are the ids of the store of a type to which the action applies, for which the decision on
/// the whole store is Allow. The request's principal is passed over.
///
/// Errs with the first of these that does not hold: the request's action, resource and context are known;
/// they break no rule of requests; the store conforms; the policies are accepted. Where all hold, it errs for
/// lack of memory alone.
///
/// Each principal is decided on the store itself; whom no permit's scope lets in is denied without that. None is decided behind the first allowed one for which the
/// page has no room.
pub fn list_principals(
    alloc: Global,
    schema: &ValidatorSchema,
    policies: &PolicySet,
    request: &Request,
    entities: &Entities,
    after: Option<&EntityUID>,
    limit: usize,
) -> Result<Page, ListError>
    requires { 1 ≤ limit }
    ensures ids { IfOk result (λ page. page.ids.items ≡ page_ids limit (option_copied after.entry)
        (allowed_principals schema.now policies.now.policies request.now entities.now)) }
    ensures more { IfOk result (λ page. page.more ≡ has_more limit (option_copied after.entry)
        (allowed_principals schema.now policies.now.policies request.now entities.now)) }
    ensures rules { OnOk result (KeepOtherRules schema.now policies.now request.now entities.now) }
    ensures refused { IfErr result (WhyNoPage schema.now policies.now request.now entities.now) }
{
    let mut asked = checked(alloc, schema, policies, request, entities)?;
    let listing = Listing {
        schema,
        action: declared_action(schema, &asked),
        policies,
        entities,
    };
    is_ready(&listing, &asked);
    let page = page_of(alloc, &listing, &mut asked, after, limit)?;
    Ok(page)
}

// The action that the request asks for, where it is declared.
fn declared_action<'a>(
    schema: &'a ValidatorSchema,
    asked: &Request,
) -> Option<&'a ValidatorActionId>
    requires { IsSome asked.now.action }
    ensures { option_copied result ≡ action_at schema.now (action_of asked.now) }
{
    schema.get_action_id(asked.action.as_ref().unwrap())
}

// Keys and ids are in order, in the policies and the store.
fn is_ready(listing: &Listing<'_>, asked: &Request)
    requires rules { KeepOtherRules listing.now.schema.now listing.now.policies.now asked.now
        listing.now.entities.now }
    requires action { option_copied listing.now.action ≡
        action_at listing.now.schema.now (action_of asked.now) }
    ensures { IsListingReady listing.now asked.now }
{
    // for the proof: the names of a schema's actions ascend, and so do the ids of a store
    let _actions = listing.schema.action_ids();
    let _entities = listing.entities.iter();
    is_policy_set(listing.policies);
    entities_are_ordered(listing.entities);
}

// The page, where every rule holds that does not speak of the principal. It begins the search at the first
// id.
fn page_of(
    alloc: Global,
    listing: &Listing<'_>,
    asked: &mut Request,
    after: Option<&EntityUID>,
    limit: usize,
) -> Result<Page, AllocError>
    requires { IsListingReady listing.now (passed_over asked.old) }
    ensures { IfOk result (IsPage limit
        (allowed_principals listing.now.schema.now listing.now.policies.now.policies asked.old
        listing.now.entities.now)
        (option_copied after.entry)) }
{
    let mut ids = Vec::new(alloc);
    for entity in listing.entities.iter() {
        let listed = is_listed(alloc, listing, asked, after, entity)?;
        if !listed {
            continue;
        }
        if ids.len() == limit {
            return Ok(Page { ids, more: true });
        }
        let uid = entity.uid().try_clone()?;
        ids.push(uid)?;
    }
    Ok(Page { ids, more: false })
}
