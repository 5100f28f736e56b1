//! Entities in JSON.

ghost use Rattle.std.specs.Prelude.{◌≡◌, [], IfOk, false};
ghost use Rattle.std.specs.Option.{option_map_or};
ghost use Rattle.serde_json.specs.Find.{as_object};
ghost use Rattle.json_trees.specs.Trees.{tree_view, trees_view};
ghost use Rattle.json_values.specs.Json.{has_only};
ghost use Rattle.json_document.specs.Entities.{entities_of, entity_names, entity_of, given_entity_of, index_from};
ghost use Rattle.policy_values.specs.Uid.{uid_eq};
ghost use Rattle.entity_store.specs.FromParents.{ids_of};
ghost use Rattle.json_document.specs.Faults.{ComesTo};

use crate::{DocumentFault, Place};
use entity_store::Entity;
use json_trees::{Tree, get, has_only, read_fields, read_uid_like, read_uid_set};
use policy_set::or_drop;
use policy_values::EntityUID;
use std::alloc::{AllocError, Global};
use std::cmp::Ordering;

// The id of the entity.
fn id_of(entity: Option<&Entity>) -> Option<&EntityUID> {
    match entity {
        Some(entity) => Some(entity.uid()),
        None => None,
    }
}

// One of the entity's parents.
fn parent_of(entity: Option<&Entity>) -> Option<&EntityUID> {
    match entity {
        Some(entity) => entity.ancestors().first(),
        None => None,
    }
}

// The entity that the tree says by its members. Its ids share the characters of their types with those of the
// entity before, where they can.
#[tactic(auto, unfolding(crate::specs::Entities::given_entity_of))]
fn read_given_entity(
    alloc: Global,
    tree: &Tree<'_>,
    before: Option<&Entity>,
) -> Result<Option<Entity>, AllocError>
    ensures { IfOk result (λ o. o ≡ given_entity_of (tree_view tree.now)) }
{
    let Some(id) = get(tree, "id") else {
        return Ok(None);
    };
    let Some(uid) = read_uid_like(alloc, id, id_of(before))? else {
        return Ok(None);
    };
    let parents = read_uid_set(alloc, get(tree, "parents"), parent_of(before));
    let Some(parents) = or_drop!(parents, uid) else {
        drop(uid);
        return Ok(None);
    };
    let attrs = read_fields(alloc, get(tree, "attrs"));
    let Some(attrs) = or_drop!(attrs, uid, parents) else {
        drop(uid);
        drop(parents);
        return Ok(None);
    };
    let tags = read_fields(alloc, get(tree, "tags"));
    let Some(tags) = or_drop!(tags, uid, parents, attrs) else {
        drop(uid);
        drop(parents);
        drop(attrs);
        return Ok(None);
    };
    Ok(Some(Entity::new(uid, attrs, parents, tags)))
}

fn has_names(tree: &Tree<'_>) -> bool
    ensures { result ≡ option_map_or (has_only entity_names) (as_object (tree_view tree.now)) false }
{
    has_only(&["id", "attrs", "tags", "parents"], tree)
}

fn read_entity(
    alloc: Global,
    tree: &Tree<'_>,
    before: Option<&Entity>,
) -> Result<Option<Entity>, AllocError>
    ensures { IfOk result (λ o. o ≡ entity_of (tree_view tree.now)) }
{
    if has_names(tree) {
        read_given_entity(alloc, tree, before)
    } else {
        Ok(None)
    }
}

// The entity that the tree is, which is let go of then.
fn entity_in(
    alloc: Global,
    tree: Tree<'_>,
    before: Option<&Entity>,
) -> Result<Option<Entity>, AllocError>
    ensures { IfOk result (λ o. o ≡ entity_of (tree_view tree.entry)) }
{
    let entity = read_entity(alloc, &tree, before);
    drop(tree);
    entity
}

/// The entities of the items; else the place of the first item that is none.
pub fn read_entities(alloc: Global, items: Vec<Tree<'_>>) -> Result<Vec<Entity>, DocumentFault>
    ensures { ComesTo (λ v. v.items) result (entities_of [] (trees_view items.entry.items)) }
{
    let mut entities = Vec::new(alloc);
    for item in items {
        let Some(entity) = entity_in(alloc, item, entities.last())? else {
            return Err(DocumentFault::Place(Place::Entity(entities.len())));
        };
        entities.push(entity)?;
    }
    Ok(entities)
}

/// The ids of the entities, in their order.
pub(crate) fn ids_of(alloc: Global, entities: &Vec<Entity>) -> Result<Vec<EntityUID>, AllocError>
    ensures { IfOk result (λ v. v.items ≡ ids_of entities.now.items) }
{
    let mut ids = Vec::new(alloc);
    for entity in entities {
        ids.push(entity.uid().try_clone()?)?;
    }
    Ok(ids)
}

/// The index of the first id that is this one; how many there are where none is.
pub(crate) fn index_of(uid: &EntityUID, ids: &Vec<EntityUID>) -> usize
    ensures { result ≡ index_from 0 uid.now ids.now.items }
{
    let mut index = 0;
    for id in ids {
        if is_same(uid, id) {
            return index;
        }
        index += 1;
    }
    index
}

fn is_same(one: &EntityUID, other: &EntityUID) -> bool
    ensures { result ≡ uid_eq one.now other.now }
{
    one.cmp(other) == Ordering::Equal
}
