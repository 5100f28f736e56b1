//! A request and a store that are made up step by step.

use crate::Witness;
use crate::defaults::default_fields;
use crate::place::{Dice, PRINCIPAL, Place, RESOURCE};
use entity_store::{Context, Entities, EntitiesError, Entity, Request};
use policy_values::{EntityUID, Text, Value, try_clone_fields};
use std::alloc::AllocError;
use std::collections::{BTreeMap, BTreeSet};

/// What an entity has.
#[derive(Drop)]
pub(crate) struct Drafted {
    pub(crate) attrs: BTreeMap<Text, Value>,
    pub(crate) parents: BTreeSet<EntityUID>,
    pub(crate) tags: BTreeMap<Text, Value>,
}

/// A request and a store that are being changed, and the choices by which.
#[derive(Drop)]
pub(crate) struct World {
    pub(crate) principal: EntityUID,
    pub(crate) resource: EntityUID,
    pub(crate) context: BTreeMap<Text, Value>,
    pub(crate) entities: BTreeMap<EntityUID, Drafted>,
    pub(crate) dice: Dice,
}

impl World {
    /// The least that conforms: a principal and a resource that have what their types require, and such a
    /// context. None, where a type has no entities.
    pub(crate) fn least(at: &Place<'_, '_>, dice: Dice) -> Result<Option<World>, AllocError> {
        let Some(principal) = at.id(at.principal, PRINCIPAL)? else {
            return Ok(None);
        };
        let Some(resource) = at.id(at.resource, RESOURCE)? else {
            drop(principal);
            return Ok(None);
        };
        let Some(context) = default_fields(at, at.context)? else {
            drop(principal);
            drop(resource);
            return Ok(None);
        };
        let entities = BTreeMap::new(at.alloc);
        let mut world = World {
            principal: principal.try_clone()?,
            resource: resource.try_clone()?,
            context,
            entities,
            dice,
        };
        world.add(at, &principal)?;
        world.add(at, &resource)?;
        Ok(Some(world))
    }

    /// Adds the entity with what its type requires, where it is not there and may be.
    pub(crate) fn add(&mut self, at: &Place<'_, '_>, uid: &EntityUID) -> Result<(), AllocError> {
        if self.entities.contains_key(uid) {
            return Ok(());
        }
        let Some(attributes) = at.attributes(uid.entity_type()) else {
            return Ok(());
        };
        if let Some(attrs) = default_fields(at, attributes)? {
            let drafted = Drafted {
                attrs,
                parents: BTreeSet::new(at.alloc),
                tags: BTreeMap::new(at.alloc),
            };
            self.entities.insert(uid.try_clone()?, drafted)?;
        }
        Ok(())
    }

    /// Takes away the entity of the principal, or of the resource.
    pub(crate) fn forget(&mut self) -> Result<(), AllocError> {
        let uid = if self.dice.flip() {
            self.principal.try_clone()?
        } else {
            self.resource.try_clone()?
        };
        self.entities.remove(&uid);
        Ok(())
    }

    /// The request and the store; none, where an entity would be its own ancestor.
    pub(crate) fn shown(&self, at: &Place<'_, '_>) -> Result<Option<Witness>, AllocError> {
        let mut entities = Vec::new(at.alloc);
        for (uid, drafted) in self.entities.iter() {
            entities.push(entity_of(at, uid, drafted)?)?;
        }
        entities.push(action_of(at)?)?;
        match Entities::from_parents(at.alloc, entities) {
            Ok(entities) => {
                let request = self.request(at)?;
                Ok(Some(Witness { request, entities }))
            }
            Err(EntitiesError::OutOfMemory) => Err(AllocError),
            Err(error) => {
                drop(error);
                Ok(None)
            }
        }
    }

    // The request.
    fn request(&self, at: &Place<'_, '_>) -> Result<Request, AllocError> {
        Ok(Request {
            principal: Some(self.principal.try_clone()?),
            action: Some(at.action.try_clone()?),
            resource: Some(self.resource.try_clone()?),
            context: Some(Context::new(try_clone_fields(at.alloc, &self.context)?)),
        })
    }
}

// The entity with its parents.
fn entity_of(at: &Place<'_, '_>, uid: &EntityUID, drafted: &Drafted) -> Result<Entity, AllocError> {
    let uid = uid.try_clone()?;
    let attrs = try_clone_fields(at.alloc, &drafted.attrs)?;
    let tags = try_clone_fields(at.alloc, &drafted.tags)?;
    let parents = drafted.parents.clone()?;
    Ok(Entity::new(uid, attrs, parents, tags))
}

// The entity of the environment's action, as the schema has it.
fn action_of(at: &Place<'_, '_>) -> Result<Entity, AllocError> {
    let uid = at.action.try_clone()?;
    let parents = at.schema.action_ancestors(at.alloc, at.action)?;
    let attrs = BTreeMap::new(at.alloc);
    let tags = BTreeMap::new(at.alloc);
    Ok(Entity::new(uid, attrs, parents, tags))
}
