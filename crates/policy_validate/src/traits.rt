//! What a schema says of entity types, actions and contexts.

ghost use Rattle.std.specs.Prelude.{◌≡◌, List, Option, None, Some, IfOk, MatchOption, false, map};
ghost use Rattle.std.specs.Option.{option_map, option_copied};
ghost use Rattle.schema_types.specs.Ty.{Ty};
ghost use Rattle.schema_types.specs.SchemaView.{schema_attrs_of};
ghost use Rattle.policy_validate.specs.Descriptions.{TypeDescription, ActionDescription, attr_type_at, required_keys, type_described, action_described, with_basename};

use policy_values::{Eid, EntityType, EntityUID, Text};
use schema_types::{SchemaAttribute, SchemaAttributes, SchemaType};
use std::alloc::{AllocError, Global};
use std::collections::{BTreeMap, BTreeSet};

/// What a schema says of an entity type.
pub trait EntityTypeDescription: Drop {
    ghost description: { Self → TypeDescription };

    /// The listed eids of an enumerated type; none for a standard type.
    fn enum_entity_eids(&self) -> Option<&[Eid]>
        ensures { MatchOption result ((description self.now).eids ≡ None)
            (λ eids. (description self.now).eids ≡ Some eids.now) };

    /// The type.
    fn entity_type(&self) -> &EntityType
        ensures { result.now ≡ (description self.now).name };

    /// The type of an attribute; none exactly where the attribute is not declared.
    fn attr_type(&self, attr: &Text) -> Option<&SchemaType>
        ensures { option_copied result ≡ attr_type_at (description self.now).attrs attr.now };

    /// The type of the tags; none exactly where no tags are declared.
    fn tag_type(&self) -> Option<&SchemaType>
        ensures { option_copied result ≡ (description self.now).tags };

    /// The keys of the attributes that each entity of the type must have, ascending.
    fn required_attrs(&self, alloc: Global) -> Result<Vec<Text>, AllocError>
        ensures { IfOk result (λ keys. keys.items ≡ required_keys (description self.now).attrs) };

    /// The types whose entities may be ancestors of entities of the type.
    fn allowed_parent_types(&self) -> &BTreeSet<EntityType>
        ensures { result.now.keys ≡ (description self.now).parents };

    /// Whether entities of the type may have other attributes: never.
    fn open_attributes(&self) -> bool
        ensures { result ≡ false };
}

/// What a schema says of entity types and actions.
pub trait Schema {
    /// What it says of an entity type.
    type EntityTypeDescription: EntityTypeDescription;
    /// The entity of an action.
    type ActionEntity: Drop;

    ghost described_types: { Self → List TypeDescription };

    ghost described_actions: { Self → List ActionDescription };

    ghost action_of: { Self.ActionEntity → ActionDescription };

    /// The description of an entity type; none exactly where the type is not declared.
    fn entity_type(
        &self,
        alloc: Global,
        entity_type: &EntityType,
    ) -> Result<Option<Self::EntityTypeDescription>, AllocError>
        ensures { IfOk result (λ o. option_map Self.EntityTypeDescription.description o ≡
            type_described (described_types self.now) entity_type.now) };

    /// The entity of an action; none exactly where the action is not declared.
    fn action(
        &self,
        alloc: Global,
        action: &EntityUID,
    ) -> Result<Option<Self::ActionEntity>, AllocError>
        ensures { IfOk result
            (λ o. option_map action_of o ≡ action_described (described_actions self.now) action.now) };

    /// The declared entity types whose last component is this one, ascending.
    fn entity_types_with_basename(
        &self,
        alloc: Global,
        basename: &str,
    ) -> Result<Vec<EntityType>, AllocError>
        ensures { IfOk result
            (λ names. names.items ≡ with_basename basename.now (described_types self.now)) };

    /// The entities of all declared actions, ascending.
    fn action_entities(&self, alloc: Global) -> Result<Vec<Self::ActionEntity>, AllocError>
        ensures { IfOk result (λ actions. map action_of actions.items ≡ described_actions self.now) };
}

/// What a schema says of the contexts of an action.
pub trait ContextSchema {
    ghost context: { Self → Ty };

    /// The type of the contexts.
    fn context_type(&self, alloc: Global) -> Result<SchemaType, AllocError>
        ensures { IfOk result (λ t. t ≡ context self.now) };
}

/// What a schema says of an entity type, part by part.
#[derive(Debug, Drop)]
pub struct DescribedType {
    /// The type.
    pub name: EntityType,
    /// The listed eids, where it is enumerated.
    pub eids: Option<Vec<Eid>>,
    /// The attributes.
    pub attrs: SchemaAttributes,
    /// The type of the tags, where there are tags.
    pub tags: Option<SchemaType>,
    /// The types whose entities may be ancestors of its own.
    pub parents: BTreeSet<EntityType>,
}

impl EntityTypeDescription for DescribedType {
    ghost description = { λ d. record {
      name = d.name;
      eids = option_map (λ v. v.items) d.eids;
      attrs = d.attrs;
      tags = d.tags;
      parents = d.parents.keys;
    } };

    fn enum_entity_eids(&self) -> Option<&[Eid]> {
        match &self.eids {
            Some(eids) => Some(eids.as_slice()),
            None => None,
        }
    }

    fn entity_type(&self) -> &EntityType {
        &self.name
    }

    fn attr_type(&self, attr: &Text) -> Option<&SchemaType> {
        type_under(self.attrs.entries(), attr)
    }

    fn tag_type(&self) -> Option<&SchemaType> {
        self.tags.as_ref()
    }

    fn required_attrs(&self, alloc: Global) -> Result<Vec<Text>, AllocError> {
        keys_required(alloc, self.attrs.entries())
    }

    fn allowed_parent_types(&self) -> &BTreeSet<EntityType> {
        &self.parents
    }

    fn open_attributes(&self) -> bool {
        false
    }
}

#[tactic(auto, using(crate::proofs::LookupSteps::type_of_lookup))]
fn type_under<'a>(
    entries: &'a BTreeMap<Text, SchemaAttribute>,
    key: &Text,
) -> Option<&'a SchemaType>
    ensures { option_copied result ≡ attr_type_at (schema_attrs_of entries.now.entries) key.now }
{
    match entries.get(key) {
        Some(attribute) => Some(&attribute.attr_type),
        None => None,
    }
}

fn keys_required(
    alloc: Global,
    entries: &BTreeMap<Text, SchemaAttribute>,
) -> Result<Vec<Text>, AllocError>
    ensures { IfOk result (λ keys. keys.items ≡ required_keys (schema_attrs_of entries.now.entries)) }
{
    let mut keys = Vec::new(alloc);
    for (key, attribute) in entries.iter() {
        if attribute.is_required {
            keys.push(key.try_clone()?)?;
        }
    }
    Ok(keys)
}
