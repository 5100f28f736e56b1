//! Names and ids of entities, as trees spell them.

ghost use Rattle.std.specs.Prelude.{◌≡◌, IfOk, Some, [], option_map};
ghost use Rattle.serde_json.specs.Find.{as_str};
ghost use Rattle.json_values.specs.Names.{name_of, name_of_text, uid_of, uid_of_items, uid_of_parts, uid_set_of, uids_of, uids_of_items, with_uids};
ghost use Rattle.json_trees.specs.Trees.{tree_view, trees_view};

use crate::Tree;
use crate::leaves::as_str;
use crate::lookups::items_of;
use json_values::read_type_name;
use policy_values::{Eid, EntityType, EntityUID, Text};
use std::alloc::{AllocError, Global};
use std::collections::BTreeSet;

/// The type that the tree names.
pub fn read_name(alloc: Global, tree: &Tree<'_>) -> Result<Option<EntityType>, AllocError>
    ensures { IfOk result (λ o. o ≡ name_of (tree_view tree.now)) }
{
    read_name_like(alloc, tree, None)
}

// The type that the tree names, which shares its characters with that of another id where it is that type.
fn read_name_like(
    alloc: Global,
    tree: &Tree<'_>,
    like: Option<&EntityUID>,
) -> Result<Option<EntityType>, AllocError>
    ensures { IfOk result (λ o. o ≡ name_of (tree_view tree.now)) }
{
    match as_str(tree) {
        Some(text) => read_text_like(alloc, text, like),
        None => Ok(None),
    }
}

fn read_text_like(
    alloc: Global,
    text: &str,
    like: Option<&EntityUID>,
) -> Result<Option<EntityType>, AllocError>
    ensures { IfOk result (λ o. o ≡ name_of_text text.now) }
{
    if let Some(like) = like {
        let known = like.entity_type();
        if known.as_str() == text {
            let shared = known.try_clone()?;
            return Ok(Some(shared));
        }
    }
    read_type_name(alloc, text)
}

fn read_uid_parts(
    alloc: Global,
    entity_type: &Tree<'_>,
    eid: &Tree<'_>,
    like: Option<&EntityUID>,
) -> Result<Option<EntityUID>, AllocError>
    ensures { IfOk result (λ o. o ≡
        uid_of_parts (name_of (tree_view entity_type.now)) (as_str (tree_view eid.now))) }
{
    let Some(entity_type) = read_name_like(alloc, entity_type, like)? else {
        return Ok(None);
    };
    let Some(eid) = as_str(eid) else {
        return Ok(None);
    };
    let eid = Eid::new(Text::from_str(alloc, eid)?);
    Ok(Some(EntityUID { entity_type, eid }))
}

fn read_uid_pair(
    alloc: Global,
    items: &[Tree<'_>],
    like: Option<&EntityUID>,
) -> Result<Option<EntityUID>, AllocError>
    ensures { IfOk result (λ o. o ≡ uid_of_items (trees_view items.now)) }
{
    if items.len() != 2 {
        return Ok(None);
    }
    read_uid_parts(alloc, &items[0], &items[1], like)
}

/// The id that the tree spells as a list of a name and a text. It shares the characters of its type with
/// another id that has the type: many ids in a document have the type of the id before.
pub fn read_uid_like(
    alloc: Global,
    tree: &Tree<'_>,
    like: Option<&EntityUID>,
) -> Result<Option<EntityUID>, AllocError>
    ensures { IfOk result (λ o. o ≡ uid_of (tree_view tree.now)) }
{
    match items_of(tree) {
        Some(items) => read_uid_pair(alloc, items, like),
        None => Ok(None),
    }
}

/// The id that the tree spells as a list of a name and a text.
pub fn read_uid(alloc: Global, tree: &Tree<'_>) -> Result<Option<EntityUID>, AllocError>
    ensures { IfOk result (λ o. o ≡ uid_of (tree_view tree.now)) }
{
    read_uid_like(alloc, tree, None)
}

fn read_uid_items(alloc: Global, items: &[Tree<'_>]) -> Result<Option<Vec<EntityUID>>, AllocError>
    ensures { IfOk result (λ o. option_map (λ v. v.items) o ≡ uids_of_items (trees_view items.now)) }
{
    let mut all = Vec::new(alloc);
    for item in items {
        let Some(uid) = read_uid(alloc, item)? else {
            return Ok(None);
        };
        all.push(uid)?;
    }
    Ok(Some(all))
}

/// The ids that a list spells.
pub fn read_uids(alloc: Global, tree: &Tree<'_>) -> Result<Option<Vec<EntityUID>>, AllocError>
    ensures { IfOk result (λ o. option_map (λ v. v.items) o ≡ uids_of (Some (tree_view tree.now))) }
{
    match items_of(tree) {
        Some(items) => read_uid_items(alloc, items),
        None => Ok(None),
    }
}

fn read_uid_keys(
    alloc: Global,
    items: &[Tree<'_>],
    like: Option<&EntityUID>,
) -> Result<Option<BTreeSet<EntityUID>>, AllocError>
    ensures { IfOk result (λ o. option_map (λ s. s.keys) o ≡ with_uids [] (trees_view items.now)) }
{
    let mut set = BTreeSet::new(alloc);
    for item in items {
        let Some(uid) = read_uid_like(alloc, item, like)? else {
            return Ok(None);
        };
        set.insert(uid)?;
    }
    Ok(Some(set))
}

/// The set of the ids that a list spells, each as [`read_uid_like`] reads it; an absent list has none.
pub fn read_uid_set(
    alloc: Global,
    list: Option<&Tree<'_>>,
    like: Option<&EntityUID>,
) -> Result<Option<BTreeSet<EntityUID>>, AllocError>
    ensures { IfOk result (λ o. option_map (λ s. s.keys) o ≡
        uid_set_of (option_map (λ t. tree_view t.now) list.entry)) }
{
    let Some(list) = list else {
        return Ok(Some(BTreeSet::new(alloc)));
    };
    match items_of(list) {
        Some(items) => read_uid_keys(alloc, items, like),
        None => Ok(None),
    }
}
