//! What a schema says of an entity type.

ghost use Rattle.std.specs.Prelude.{◌≡◌, ℕ, List, IfOk, IfSome, Some};
ghost use Rattle.std.specs.Option.{option_copied, option_map};
ghost use Rattle.schema_types.specs.Plain.{plain, plain_attrs};
ghost use Rattle.schema_core.specs.Schema.{type_at};
ghost use Rattle.schema_core.specs.Kinds.{attributes_in, tags_in};
ghost use Rattle.schema_core.specs.Faults.{IsSchema};
ghost use Rattle.policy_validate.specs.Described.{listed_in, parents_of, description_of, described_type};

use crate::plain_types::{same_attributes, same_type};
use crate::traits::DescribedType;
use policy_values::{Eid, EntityType, Text};
use schema_core::laws::schema_types_are_plain;
use schema_core::{SchemaType, ValidatorEntityType, ValidatorEntityTypeKind, ValidatorSchema};
use std::alloc::{AllocError, Global};
use std::collections::BTreeSet;
use std::marker::Model;

/// What a schema says of an entity type.
#[derive(Debug, Drop)]
pub struct EntityTypeDescription {
    described: DescribedType,
}

impl Model for EntityTypeDescription {
    ghost use Rattle.std.specs.Option.{option_map};
    ghost use Rattle.policy_validate.specs.Descriptions.{TypeDescription};
    ghost use Rattle.policy_validate.specs.Described.{coded_description};

    ghost Value = { TypeDescription };

    ghost coded = { coded_description };

    ghost view = { λ d. record {
      name = d.described.name;
      eids = option_map (λ v. v.items) d.described.eids;
      attrs = d.described.attrs;
      tags = d.described.tags;
      parents = d.described.parents.keys;
    } };
}

impl EntityTypeDescription {
    /// What the schema says of the entity type; none exactly where the type is not declared.
    pub fn new(
        alloc: Global,
        schema: &ValidatorSchema,
        type_name: &EntityType,
    ) -> Result<Option<EntityTypeDescription>, AllocError>
        ensures { IfOk result (λ o. o ≡
            option_map (described_type schema.now) (type_at schema.now type_name.now)) }
    {
        schema_types_are_plain();
        let types = schema.entity_types();
        match schema.get_entity_type(type_name) {
            Some(declared) => {
                let parents = parents_of(alloc, schema, types, declared.name())?;
                Ok(Some(describe(alloc, declared, parents)?))
            }
            None => Ok(None),
        }
    }
}

// The description of a type whose entities may have ancestors of these types.
fn describe(
    alloc: Global,
    declared: &ValidatorEntityType,
    parents: BTreeSet<EntityType>,
) -> Result<EntityTypeDescription, AllocError>
    requires attributes { plain_attrs (attributes_in declared.now.kind) ≡
        Some (attributes_in declared.now.kind) }
    requires tags { IfSome (tags_in declared.now.kind) (λ t. plain t ≡ Some t) }
    ensures { IfOk result (λ d. d ≡ description_of declared.now parents.keys) }
{
    let name = declared.name().try_clone()?;
    let eids = listed(alloc, declared)?;
    let attrs = same_attributes(alloc, declared.attributes())?;
    let tags = tags_of(alloc, declared)?;
    let described = DescribedType {
        name,
        eids,
        attrs,
        tags,
        parents,
    };
    Ok(EntityTypeDescription { described })
}

// The ids that the type lists, where it is enumerated.
fn listed(alloc: Global, declared: &ValidatorEntityType) -> Result<Option<Vec<Eid>>, AllocError>
    ensures { IfOk result (λ eids. option_map (λ v. v.items) eids ≡ listed_in declared.now.kind) }
{
    match declared.kind() {
        ValidatorEntityTypeKind::Enum(choices) => Ok(Some(copies_of(alloc, choices.as_slice())?)),
        ValidatorEntityTypeKind::Standard { .. } => Ok(None),
    }
}

fn copies_of(alloc: Global, eids: &[Eid]) -> Result<Vec<Eid>, AllocError>
    ensures { IfOk result (λ copies. copies.items ≡ eids.now) }
{
    let mut copies = Vec::new(alloc);
    for eid in eids {
        copies.push(eid.try_clone()?)?;
    }
    Ok(copies)
}

// The type of the tags, where there are tags.
fn tags_of(alloc: Global, declared: &ValidatorEntityType) -> Result<Option<SchemaType>, AllocError>
    requires { IfSome (tags_in declared.now.kind) (λ t. plain t ≡ Some t) }
    ensures { IfOk result (λ tags. tags ≡ tags_in declared.now.kind) }
{
    match declared.tag_type() {
        Some(ty) => Ok(Some(same_type(alloc, ty)?)),
        None => Ok(None),
    }
}

// The declared types whose entities may be ancestors of the type's.
fn parents_of(
    alloc: Global,
    schema: &ValidatorSchema,
    types: &[ValidatorEntityType],
    name: &EntityType,
) -> Result<BTreeSet<EntityType>, AllocError>
    requires types { types.now ≡ schema.now.entity_types }
    requires schema { IsSchema schema.now }
    ensures { IfOk result (λ parents. parents.keys ≡ parents_of schema.now name.now) }
{
    let mut parents = BTreeSet::new(alloc);
    for above in types {
        if schema.has_descendant(above.name(), name) {
            parents.insert(above.name().try_clone()?)?;
        }
    }
    Ok(parents)
}

impl crate::traits::EntityTypeDescription for EntityTypeDescription {
    ghost description = { λ d. d };

    fn enum_entity_eids(&self) -> Option<&[Eid]> {
        crate::traits::EntityTypeDescription::enum_entity_eids(&self.described)
    }

    fn entity_type(&self) -> &EntityType {
        &self.described.name
    }

    fn attr_type(&self, attr: &Text) -> Option<&SchemaType> {
        crate::traits::EntityTypeDescription::attr_type(&self.described, attr)
    }

    fn tag_type(&self) -> Option<&SchemaType> {
        self.described.tags.as_ref()
    }

    fn required_attrs(&self, alloc: Global) -> Result<Vec<Text>, AllocError> {
        crate::traits::EntityTypeDescription::required_attrs(&self.described, alloc)
    }

    fn allowed_parent_types(&self) -> &BTreeSet<EntityType> {
        &self.described.parents
    }

    fn open_attributes(&self) -> bool {
        false
    }
}
