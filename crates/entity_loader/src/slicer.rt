//! A store as a loader of just what is asked.

ghost use Rattle.std.specs.Prelude.{◌≡◌, true, Contains, IfOk};
ghost use Rattle.std.specs.List.{AllZip};
ghost use Rattle.policy_values.specs.declared.entity_uid.EntityUID.{EntityUID};
ghost use Rattle.entity_loader.specs.Answers.{IsHonest, IsHonestList, IsListed};

use crate::cut::cut_along;
use crate::loader::{AncestorsRequest, EntityAnswer, EntityLoader, EntityRequest, LoadError};
use entity_store::{Entities, Entity};
use policy_values::EntityUID;
use std::alloc::{AllocError, Global};

/// A loader over a store, which answers just what is asked. A call fails only where memory runs out.
#[derive(Debug, Drop)]
pub struct EntitySlicer<'a> {
    /// The store.
    pub entities: &'a Entities,
    /// How often entities were asked for; at the last value of u64 it stays.
    pub rounds: u64,
    /// How often ancestors were asked for; at the last value of u64 it stays.
    pub lists: u64,
}

impl<'a> EntitySlicer<'a> {
    /// The loader that has not been asked yet.
    pub fn new(entities: &'a Entities) -> EntitySlicer<'a>
        ensures entities { result.entities.now ≡ entities.now }
        ensures rounds { result.rounds ≡ 0 }
        ensures lists { result.lists ≡ 0 }
    {
        EntitySlicer {
            entities,
            rounds: 0,
            lists: 0,
        }
    }
}

impl EntityLoader for EntitySlicer<'_> {
    ghost use Rattle.entity_loader.specs.Memory.{slicer_state};

    ghost state = { slicer_state };

    fn load_entities(
        &mut self,
        alloc: Global,
        requests: &Vec<EntityRequest<'_>>,
    ) -> Result<Vec<EntityAnswer>, LoadError> {
        self.rounds = self.rounds.saturating_add(1);
        match answers(alloc, self.entities, requests) {
            Ok(found) => Ok(found),
            Err(_) => Err(LoadError::OutOfMemory),
        }
    }

    fn load_ancestors(
        &mut self,
        alloc: Global,
        requests: &Vec<AncestorsRequest>,
    ) -> Result<Vec<Vec<EntityUID>>, LoadError> {
        self.lists = self.lists.saturating_add(1);
        match ancestor_lists(alloc, self.entities, requests) {
            Ok(found) => Ok(found),
            Err(_) => Err(LoadError::OutOfMemory),
        }
    }
}

fn answers(
    alloc: Global,
    entities: &Entities,
    requests: &Vec<EntityRequest<'_>>,
) -> Result<Vec<EntityAnswer>, AllocError>
    ensures { IfOk result (λ found. AllZip (IsHonest true entities.now) requests.now.items found.items) }
{
    let mut found = Vec::new(alloc);
    for request in requests {
        found.push(answer(alloc, entities, request)?)?;
    }
    Ok(found)
}

fn answer(
    alloc: Global,
    entities: &Entities,
    request: &EntityRequest<'_>,
) -> Result<EntityAnswer, AllocError>
    ensures { IfOk result (IsHonest true entities.now request.now) }
{
    match entities.entity(&request.entity_id) {
        Some(entity) => Ok(Some(cut_along(alloc, entity, &request.access_trie)?)),
        None => Ok(None),
    }
}

fn ancestor_lists(
    alloc: Global,
    entities: &Entities,
    requests: &Vec<AncestorsRequest>,
) -> Result<Vec<Vec<EntityUID>>, AllocError>
    ensures { IfOk result
        (λ found. AllZip (IsHonestList true entities.now) requests.now.items found.items) }
{
    let mut found = Vec::new(alloc);
    for request in requests {
        found.push(ancestor_list(alloc, entities, request)?)?;
    }
    Ok(found)
}

fn ancestor_list(
    alloc: Global,
    entities: &Entities,
    request: &AncestorsRequest,
) -> Result<Vec<EntityUID>, AllocError>
    ensures { IfOk result (IsHonestList true entities.now request.now) }
{
    match entities.entity(&request.entity_id) {
        Some(entity) => ancestors_among(alloc, entity, &request.ancestors),
        None => Ok(Vec::new(alloc)),
    }
}

// Those of the ids that are ancestors of the entity.
fn ancestors_among(
    alloc: Global,
    entity: &Entity,
    ids: &[EntityUID],
) -> Result<Vec<EntityUID>, AllocError>
    ensures { IfOk result (λ found. IsListed entity.now.ancestors ids.now found.items) }
{
    let mut found = Vec::new(alloc);
    for id in ids {
        if entity.has_ancestor(id) {
            found.push(id.try_clone()?)?;
        }
    }
    Ok(found)
}
