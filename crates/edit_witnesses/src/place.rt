//! Where requests are made up, and by which choices.

use policy_values::{Eid, EntityType, EntityUID, Text};
use schema_core::{RequestEnv, ValidatorEntityTypeKind, ValidatorSchema};
use schema_types::Attributes;
use std::alloc::{AllocError, Global};
use typecheck_walk::Setting;

// The eids of entities of types that list none.
const EIDS: [&str; 4] = ["other", "another", "principal", "resource"];

/// The places of the eids of the principal and of the resource.
pub(crate) const PRINCIPAL: usize = 2;

pub(crate) const RESOURCE: usize = 3;

/// A schema, and what an environment asks of requests.
#[derive(Drop)]
pub(crate) struct Place<'a, 's> {
    pub(crate) alloc: Global,
    pub(crate) schema: &'s ValidatorSchema,
    pub(crate) principal: &'a EntityType,
    pub(crate) action: &'a EntityUID,
    pub(crate) resource: &'a EntityType,
    pub(crate) context: &'s Attributes,
}

/// The place that a setting is; none, where its action is not declared.
pub(crate) fn place_of<'a, 's>(at: &Setting<'a, 's, '_, '_>) -> Option<Place<'a, 's>> {
    let RequestEnv::DeclaredAction {
        principal,
        action,
        resource,
        ..
    } = at.env
    else {
        return None;
    };
    Some(Place {
        alloc: at.alloc,
        schema: at.schema,
        principal,
        action,
        resource,
        context: at.schema.context_type(action)?,
    })
}

impl<'a, 's> Place<'a, 's> {
    /// An id of a type, by a number; none, where there is none.
    pub(crate) fn id(
        &self,
        entity_type: &EntityType,
        number: usize,
    ) -> Result<Option<EntityUID>, AllocError> {
        let Some(declared) = self.schema.get_entity_type(entity_type) else {
            return Ok(None);
        };
        let eid = match declared.kind() {
            ValidatorEntityTypeKind::Standard { .. } => {
                Eid::new(Text::from_str(self.alloc, EIDS[number % 4])?)
            }
            ValidatorEntityTypeKind::Enum(choices) => {
                let choices = choices.as_slice();
                if choices.is_empty() {
                    return Ok(None);
                }
                choices[number % choices.len()].try_clone()?
            }
        };
        let entity_type = entity_type.try_clone()?;
        Ok(Some(EntityUID { entity_type, eid }))
    }

    /// The attributes of a type's entities.
    pub(crate) fn attributes(&self, entity_type: &EntityType) -> Option<&'s Attributes> {
        match self.schema.get_entity_type(entity_type) {
            Some(declared) => Some(declared.attributes()),
            None => None,
        }
    }

    /// Whether entities of a type may be in entities of another.
    pub(crate) fn may_be_in(&self, entity_type: &EntityType, above: &EntityType) -> bool {
        self.schema.has_descendant(above, entity_type)
    }
}

/// Choices, each of which stands in the place of a throw of dice.
#[derive(Drop)]
pub(crate) struct Dice {
    seed: u64,
}

impl Dice {
    pub(crate) fn new(seed: u64) -> Dice {
        Dice { seed }
    }

    /// The next choice.
    pub(crate) fn throw(&mut self) -> usize {
        self.seed = self
            .seed
            .wrapping_mul(6_364_136_223_846_793_005)
            .wrapping_add(1_442_695_040_888_963_407);
        (self.seed >> 33) as usize
    }

    /// One of two.
    pub(crate) fn flip(&mut self) -> bool {
        self.throw() % 2 == 0
    }
}
