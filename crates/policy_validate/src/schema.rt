//! A schema as what is asked for entity types, actions and conforming requests.

ghost use Rattle.std.specs.Prelude.{◌≡◌};
ghost use Rattle.schema_core.specs.Faults.{IsSchema};
ghost use Rattle.policy_validate.specs.Described.{described_types, described_actions, action_of};

use crate::EntityTypeDescription;
use crate::actions::action_entity;
use crate::traits::Schema;
use entity_store::Entity;
use policy_values::{EntityType, EntityUID};
use schema_core::ValidatorSchema;
use std::alloc::{AllocError, Global};
use std::marker::Model;

/// A schema, as what says of entity types and actions.
#[derive(Debug, Drop)]
pub struct CoreSchema<'a> {
    schema: &'a ValidatorSchema,
}

impl<'a> Model for CoreSchema<'a> {
    ghost use Rattle.schema_core.specs.Schema.{SchemaData, coded_schema};

    ghost Value = { SchemaData };

    ghost coded = { coded_schema };

    ghost view = { λ c. c.schema.now };
}

impl<'a> CoreSchema<'a> {
    /// The schema as what says of its entity types and actions.
    pub fn new(schema: &'a ValidatorSchema) -> CoreSchema<'a>
        ensures { result ≡ schema.now }
    {
        CoreSchema { schema }
    }

    // The schema itself.
    pub(crate) fn schema(&self) -> &'a ValidatorSchema
        ensures { result.now ≡ self.now }
    {
        self.schema
    }
}

impl<'a> Schema for CoreSchema<'a> {
    type EntityTypeDescription = EntityTypeDescription;

    type ActionEntity = Entity;

    ghost described_types = { described_types };

    ghost described_actions = { described_actions };

    ghost action_of = { action_of };

    #[tactic(auto, using(crate::proofs::Found::type_found, crate::proofs::Found::same_option))]
    fn entity_type(
        &self,
        alloc: Global,
        entity_type: &EntityType,
    ) -> Result<Option<EntityTypeDescription>, AllocError> {
        EntityTypeDescription::new(alloc, self.schema, entity_type)
    }

    fn action(&self, alloc: Global, action: &EntityUID) -> Result<Option<Entity>, AllocError> {
        let _actions = self.schema.action_ids();
        match self.schema.get_action_id(action) {
            Some(declared) => Ok(Some(action_entity(alloc, self.schema, declared.name())?)),
            None => Ok(None),
        }
    }

    fn entity_types_with_basename(
        &self,
        alloc: Global,
        basename: &str,
    ) -> Result<Vec<EntityType>, AllocError> {
        let mut names = Vec::new(alloc);
        let types = self.schema.entity_types();
        for declared in types {
            let name = declared.name();
            if basename == name.basename() {
                names.push(name.try_clone()?)?;
            }
        }
        Ok(names)
    }

    fn action_entities(&self, alloc: Global) -> Result<Vec<Entity>, AllocError> {
        let mut entities = Vec::new(alloc);
        let actions = self.schema.action_ids();
        for declared in actions {
            entities.push(action_entity(alloc, self.schema, declared.name())?)?;
        }
        Ok(entities)
    }
}
