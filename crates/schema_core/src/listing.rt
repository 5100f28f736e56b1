// Types and actions under their names, each with what is listed at it: descendants, or what it is a
// member of.
ghost use Rattle.std.specs.Prelude.{◌≡◌, [], map, IfOk, OnOk};
ghost use Rattle.schema_core.specs.Schema.{SchemaData, made_of};
ghost use Rattle.schema_core.specs.Outline.{outline_of, HasSoundNames, HasSoundTypes, IsClosed};
ghost use Rattle.schema_core.specs.Entries.{Declarations};
ghost use Rattle.schema_core.specs.Declarations.{declared_outline};
ghost use Rattle.schema_core.specs.Faults.{IsOnce, IsSchema};
ghost use Rattle.schema_core.specs.Listing.{listed_outline, IsListing, ListsTypes, AddsType, AddsAction};

use crate::arrange::{arranged_actions, arranged_types};
use crate::sets::set_of;
use crate::{
    ActionDeclaration, SchemaDeclarations, TypeDeclaration, ValidatorActionId, ValidatorEntityType,
    ValidatorEntityTypeKind,
};
use policy_values::{EntityType, EntityUID, SharedSet, SharedSteps};
use schema_types::Attributes;
use std::alloc::{AllocError, Global};
use std::collections::{BTreeMap, BTreeSet};

/// What types are.
pub type Kinds = BTreeMap<EntityType, ValidatorEntityTypeKind>;

/// Types that are listed at actions.
pub type TypesOf = BTreeMap<EntityUID, SharedSet<EntityType>>;

/// The types and the actions of a schema, each in the order of their names.
pub type SchemaParts = (Vec<ValidatorEntityType>, Vec<ValidatorActionId>);

/// Types and actions under their names, with what is listed at each, and what each is.
pub struct Listing {
    pub types: SharedSteps<EntityType>,
    pub kinds: Kinds,
    pub actions: SharedSteps<EntityUID>,
    pub principals: TypesOf,
    pub resources: TypesOf,
    pub contexts: BTreeMap<EntityUID, Attributes>,
}

impl Drop for Listing {
    fn drop(self) {
        let Listing {
            types,
            kinds,
            actions,
            principals,
            resources,
            contexts,
        } = self;
        drop(types);
        drop(kinds);
        drop(actions);
        drop(principals);
        drop(resources);
        drop(contexts);
    }
}

impl Listing {
    /// Its types and actions, where it keeps its rules.
    pub fn arranged(self, alloc: Global) -> Result<SchemaParts, AllocError>
        requires names { HasSoundNames (listed_outline self) }
        requires closed { IsClosed (listed_outline self) }
        requires types { HasSoundTypes (listed_outline self) }
        requires listing { IsListing self }
        ensures { IfOk result (λ parts. IsSchema (made_of parts.0.items parts.1.items) ×
            (outline_of (made_of parts.0.items parts.1.items) ≡ listed_outline self)) }
    {
        let Listing {
            types,
            kinds,
            actions,
            principals,
            resources,
            contexts,
        } = self;
        let entity_types = arranged_types(alloc, kinds, &types)?;
        let action_ids = arranged_actions(alloc, contexts, &actions, &principals, &resources)?;
        Ok((entity_types, action_ids))
    }
}

/// What a schema's types and actions list: their descendants.
pub fn listed(
    alloc: Global,
    entity_types: Vec<ValidatorEntityType>,
    action_ids: Vec<ValidatorActionId>,
) -> Result<Listing, AllocError>
    requires types { IsOnce (map (λ t. t.name) entity_types.items) }
    requires actions { IsOnce (map (λ a. a.name) action_ids.items) }
    ensures outline { let given : SchemaData =
        record { entity_types = entity_types.items; action_ids = action_ids.items } in
        IfOk result (λ l. listed_outline l ≡ outline_of given) }
    ensures listing { IfOk result IsListing }
{
    let mut listing = listed_types(alloc, entity_types)?;
    for action in action_ids {
        let ValidatorActionId {
            name,
            principals,
            resources,
            descendants,
            context,
        } = action;
        add_action(
            alloc,
            &mut listing,
            name,
            principals,
            resources,
            descendants,
            context,
        )?;
    }
    Ok(listing)
}

/// What a document's types and actions list: what they are members of.
pub fn declared(alloc: Global, declarations: SchemaDeclarations) -> Result<Listing, AllocError>
    requires types { IsOnce (map (λ t. t.name) declarations.entity_types) }
    requires actions { IsOnce (map (λ a. a.id) declarations.actions) }
    ensures outline { IfOk result (λ l. listed_outline l ≡ declared_outline declarations) }
    ensures listing { IfOk result IsListing }
{
    let SchemaDeclarations {
        entity_types,
        actions,
    } = declarations;
    let mut listing = declared_types(alloc, entity_types)?;
    for action in actions {
        let ActionDeclaration {
            id,
            principals,
            resources,
            member_of,
            context,
        } = action;
        let principals = set_of(alloc, principals)?;
        let resources = set_of(alloc, resources)?;
        let member_of = set_of(alloc, member_of)?;
        add_action(
            alloc,
            &mut listing,
            id,
            principals,
            resources,
            member_of,
            context,
        )?;
    }
    Ok(listing)
}

// The types with their descendants.
fn listed_types(
    alloc: Global,
    entity_types: Vec<ValidatorEntityType>,
) -> Result<Listing, AllocError>
    requires { IsOnce (map (λ t. t.name) entity_types.items) }
    ensures { let given : SchemaData = record { entity_types = entity_types.items; action_ids = [] } in
        IfOk result (ListsTypes (outline_of given)) }
{
    let mut listing = empty(alloc);
    for entity_type in entity_types {
        let ValidatorEntityType {
            name,
            descendants,
            kind,
            ..
        } = entity_type;
        add_type(alloc, &mut listing, name, kind, descendants)?;
    }
    Ok(listing)
}

// The types with what they are members of.
fn declared_types(alloc: Global, entity_types: Vec<TypeDeclaration>) -> Result<Listing, AllocError>
    requires { IsOnce (map (λ t. t.name) entity_types.items) }
    ensures { let given : Declarations = record { entity_types = entity_types.items; actions = [] } in
        IfOk result (ListsTypes (declared_outline given)) }
{
    let mut listing = empty(alloc);
    for entity_type in entity_types {
        let TypeDeclaration {
            name,
            member_of,
            kind,
        } = entity_type;
        let member_of = set_of(alloc, member_of)?;
        add_type(alloc, &mut listing, name, kind, member_of)?;
    }
    Ok(listing)
}

// No types, and no actions.
fn empty(alloc: Global) -> Listing
    ensures types { result.types.entries ≡ [] }
    ensures kinds { result.kinds.entries ≡ [] }
    ensures actions { result.actions.entries ≡ [] }
    ensures principals { result.principals.entries ≡ [] }
    ensures resources { result.resources.entries ≡ [] }
    ensures contexts { result.contexts.entries ≡ [] }
{
    Listing {
        types: BTreeMap::new(alloc),
        kinds: BTreeMap::new(alloc),
        actions: BTreeMap::new(alloc),
        principals: BTreeMap::new(alloc),
        resources: BTreeMap::new(alloc),
        contexts: BTreeMap::new(alloc),
    }
}

// Declares one type more.
fn add_type(
    alloc: Global,
    listing: &mut Listing,
    name: EntityType,
    kind: ValidatorEntityTypeKind,
    listed: BTreeSet<EntityType>,
) -> Result<(), AllocError>
    ensures { OnOk result (AddsType listing.old listing.new name kind listed) }
{
    let listed = SharedSet::new(alloc, listed)?;
    listing.types.insert(name.clone()?, listed)?;
    listing.kinds.insert(name, kind)?;
    Ok(())
}

// Declares one action more.
fn add_action(
    alloc: Global,
    listing: &mut Listing,
    id: EntityUID,
    principals: BTreeSet<EntityType>,
    resources: BTreeSet<EntityType>,
    listed: BTreeSet<EntityUID>,
    context: Attributes,
) -> Result<(), AllocError>
    ensures { OnOk result (AddsAction listing.old listing.new id principals resources listed context) }
{
    let principals = SharedSet::new(alloc, principals)?;
    let resources = SharedSet::new(alloc, resources)?;
    let listed = SharedSet::new(alloc, listed)?;
    listing.principals.insert(id.clone()?, principals)?;
    listing.resources.insert(id.clone()?, resources)?;
    listing.actions.insert(id.clone()?, listed)?;
    listing.contexts.insert(id, context)?;
    Ok(())
}
