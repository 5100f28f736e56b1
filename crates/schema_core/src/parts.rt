//! The types and actions of a schema, once they keep its rules.

ghost use Rattle.std.specs.Prelude.{◌≡◌, map, IfOk, MatchResult};
ghost use Rattle.schema_core.specs.Schema.{made_of};
ghost use Rattle.schema_core.specs.Outline.{HasSoundNames, HasDescendants};
ghost use Rattle.schema_core.specs.Faults.{IsOnce, IsSchemaOfData, IsRefusedData};
ghost use Rattle.schema_core.specs.Declarations.{IsSchemaOf, IsRefused};
ghost use Rattle.schema_core.specs.Listing.{listed_outline, IsListing};

use crate::checks::{check_names, check_types, least_listed_enum};
use crate::listing::{Listing, SchemaParts, declared, listed};
use crate::{SchemaDeclarations, SchemaFault, ValidatorActionId, ValidatorEntityType};
use policy_values::{EntityUID, descendants_of, first_not_closed, first_own, least_repeated};
use std::alloc::{AllocError, Global};

/// These types and actions, given in any order, where they keep the rules of a schema.
pub fn schema_parts(
    alloc: Global,
    entity_types: Vec<ValidatorEntityType>,
    action_ids: Vec<ValidatorActionId>,
) -> Result<SchemaParts, SchemaFault>
    requires { IsOnce (map (λ t. t.name) entity_types.items) }
    ensures { MatchResult result
        (λ p. IsSchemaOfData (made_of entity_types.items action_ids.items) (made_of p.0.items p.1.items))
        (IsRefusedData (made_of entity_types.items action_ids.items)) }
{
    let ids = ids_of(alloc, &action_ids)?;
    if let Some(uid) = least_repeated(alloc, &ids)? {
        return Err(SchemaFault::DuplicateAction(uid));
    }
    let listing = listed(alloc, entity_types, action_ids)?;
    check_names(&listing)?;
    if let Some(uid) = first_own(&listing.actions) {
        return Err(SchemaFault::ActionCycle(uid.clone()?));
    }
    if let Some(name) = least_listed_enum(&listing) {
        return Err(SchemaFault::EnumHasAncestor(name.clone()?));
    }
    if let Some(name) = first_not_closed(&listing.types) {
        return Err(SchemaFault::NotClosed(name.clone()?));
    }
    if let Some(uid) = first_not_closed(&listing.actions) {
        return Err(SchemaFault::ActionNotClosed(uid.clone()?));
    }
    check_types(&listing)?;
    Ok(listing.arranged(alloc)?)
}

/// The types and actions that a document declares, where they keep the rules: descendants are all members, by
/// one or more steps.
pub fn declared_parts(
    alloc: Global,
    declarations: SchemaDeclarations,
) -> Result<SchemaParts, SchemaFault>
    requires { IsOnce (map (λ t. t.name) declarations.entity_types) }
    ensures { MatchResult result (λ parts. IsSchemaOf declarations (made_of parts.0.items parts.1.items))
        (IsRefused declarations) }
{
    let ids = declared_ids(alloc, &declarations)?;
    if let Some(uid) = least_repeated(alloc, &ids)? {
        return Err(SchemaFault::DuplicateAction(uid));
    }
    let listing = declared(alloc, declarations)?;
    check_names(&listing)?;
    let members = with_descendants(alloc, listing)?;
    if let Some(uid) = first_own(&members.actions) {
        return Err(SchemaFault::ActionCycle(uid.clone()?));
    }
    if let Some(name) = least_listed_enum(&members) {
        return Err(SchemaFault::EnumHasAncestor(name.clone()?));
    }
    check_types(&members)?;
    Ok(members.arranged(alloc)?)
}

// The ids of the actions.
fn ids_of(alloc: Global, action_ids: &[ValidatorActionId]) -> Result<Vec<EntityUID>, AllocError>
    ensures { IfOk result (λ ids. ids.items ≡ map (λ a. a.name) action_ids.now) }
{
    let mut ids = Vec::new(alloc);
    for action in action_ids {
        ids.push(action.name.clone()?)?;
    }
    Ok(ids)
}

// The ids of the declared actions.
fn declared_ids(
    alloc: Global,
    declarations: &SchemaDeclarations,
) -> Result<Vec<EntityUID>, AllocError>
    ensures { IfOk result (λ ids. ids.items ≡ map (λ a. a.id) declarations.now.actions) }
{
    let mut ids = Vec::new(alloc);
    for action in &declarations.actions {
        ids.push(action.id.clone()?)?;
    }
    Ok(ids)
}

// The listing with all members of a type or an action, by one or more steps.
fn with_descendants(alloc: Global, listing: Listing) -> Result<Listing, AllocError>
    requires names { HasSoundNames (listed_outline listing) }
    requires listing { IsListing listing }
    ensures descendants { IfOk result
        (λ members. HasDescendants (listed_outline listing) (listed_outline members)) }
    ensures listing { IfOk result IsListing }
{
    let types = descendants_of(alloc, &listing.types)?;
    let actions = descendants_of(alloc, &listing.actions)?;
    let mut members = listing;
    members.types = types;
    members.actions = actions;
    Ok(members)
}
