//! The store that the entities of a document make.

ghost use Rattle.std.specs.Prelude.{◌≡◌, ℕ, IfOk};
ghost use Rattle.std.specs.Ordering.{nat_cmp};
ghost use Rattle.policy_values.specs.Least.{IsLeast};
ghost use Rattle.policy_values.specs.Repeated.{IsRepeated, StandsEarlier};
ghost use Rattle.policy_values.specs.declared.entity_uid.EntityUID.{EntityUID};
ghost use Rattle.json_trees.specs.Trees.{trees_view};
ghost use Rattle.json_document.specs.Entities.{entities_of};
ghost use Rattle.json_document.specs.Faults.{MayComeTo};
ghost use Rattle.json_document.specs.Store.{IsStoreOf, IsRepeatedIfDuplicate, IsPlaceOf};

use crate::entities::{ids_of, index_of, read_entities};
use crate::{DocumentFault, Place};
use entity_store::{Entities, EntitiesError};
use json_trees::Tree;
use policy_values::{EntityUID, first_repeated};
use std::alloc::{AllocError, Global};

/// The index of the first id that stands earlier.
fn repeat_index(alloc: Global, ids: &Vec<EntityUID>) -> Result<usize, AllocError>
    requires { (uid : EntityUID) × IsRepeated ids.now.items uid }
    ensures { IfOk result (IsLeast nat_cmp (StandsEarlier ids.now.items)) }
{
    match first_repeated(alloc, ids)? {
        Some(index) => Ok(index),
        None => unreachable!(),
    }
}

/// The place of an entity for whose sake there is no store.
fn refusal(alloc: Global, ids: &Vec<EntityUID>, error: EntitiesError) -> DocumentFault
    requires { IsRepeatedIfDuplicate ids.now.items error }
    ensures { IsPlaceOf ids.now.items error result }
{
    match error {
        EntitiesError::Duplicate(_) => match repeat_index(alloc, ids) {
            Ok(index) => DocumentFault::Place(Place::EntityDuplicate(index)),
            Err(_) => DocumentFault::OutOfMemory,
        },
        EntitiesError::Cycle(uid) => DocumentFault::Place(Place::EntityCycle(index_of(&uid, ids))),
        EntitiesError::OutOfMemory => DocumentFault::OutOfMemory,
    }
}

/// The store that the entities of the items make with their parents; else the place of the first fault: the
/// first item that is no entity, the first id that stands earlier, or the least id that is its own ancestor.
pub fn read_store(alloc: Global, items: Vec<Tree<'_>>) -> Result<Entities, DocumentFault>
    ensures { MayComeTo result (IsStoreOf (trees_view items.entry.items)) }
{
    let entities = read_entities(alloc, items)?;
    let ids = ids_of(alloc, &entities)?;
    match Entities::from_parents(alloc, entities) {
        Ok(store) => Ok(store),
        Err(error) => Err(refusal(alloc, &ids, error)),
    }
}
