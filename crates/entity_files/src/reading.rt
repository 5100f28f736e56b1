//! Rows as entities.

ghost use Rattle.std.specs.Prelude.{◌≡◌, Some, IfOk, codes, false, option_map};
ghost use Rattle.std.specs.Option.{option_map_or};
ghost use Rattle.serde_json.specs.Find.{as_object, get};
ghost use Rattle.sqlite.specs.Order.{column};
ghost use Rattle.policy_values.specs.Uid.{uid_eq};
ghost use Rattle.json_values.specs.Json.{has_only};
ghost use Rattle.json_trees.specs.Trees.{tree_view};
ghost use Rattle.entity_files.specs.Entities.{entity_in, entity_names, entity_of, given_entity_of, links_in};
ghost use Rattle.sqlite_value.specs.Value.{owned};
ghost use Rattle.sqlite.specs.declared.types.Value.TheVariants.{Text};
ghost use Rattle.entity_files.specs.Table.{equals};
ghost use Rattle.entity_files.specs.Rows.{cell_entity, is_shown, shown_entity, IsRowFound};

use crate::FindError;
use entity_store::Entity;
use json_trees::{Scratch, Tree, get, has_only, read_fields, read_tree, read_uid, read_uid_set};
use policy_values::EntityUID;
use sqlite::Row;
use sqlite::types::ValueRef;
use std::alloc::{AllocError, Global};
use std::cmp::Ordering;

// The list of the parents, or the list of all ancestors that rows of earlier releases have.
fn links_in<'a, 'b>(tree: &'a Tree<'b>) -> Option<&'a Tree<'b>>
    ensures { option_map (λ t. tree_view t.now) result ≡
        links_in (get (codes "parents") (tree_view tree.now)) (get (codes "ancestors") (tree_view tree.now)) }
{
    match (get(tree, "parents"), get(tree, "ancestors")) {
        (Some(parents), None) => Some(parents),
        (None, Some(ancestors)) => Some(ancestors),
        _ => None,
    }
}

// The entity of the members, with its parents.
#[tactic(auto, unfolding(crate::specs::Entities::given_entity_of))]
fn read_given_entity(alloc: Global, tree: &Tree<'_>) -> Result<Option<Entity>, AllocError>
    ensures { IfOk result (λ o. o ≡ given_entity_of (tree_view tree.now)) }
{
    let Some(id) = get(tree, "id") else {
        return Ok(None);
    };
    let Some(uid) = read_uid(alloc, id)? else {
        return Ok(None);
    };
    let Some(list) = links_in(tree) else {
        return Ok(None);
    };
    let Some(parents) = read_uid_set(alloc, Some(list), None)? else {
        return Ok(None);
    };
    let Some(attrs) = read_fields(alloc, get(tree, "attrs"))? else {
        return Ok(None);
    };
    match read_fields(alloc, get(tree, "tags"))? {
        Some(tags) => Ok(Some(Entity::new(uid, attrs, parents, tags))),
        None => Ok(None),
    }
}

fn has_names(tree: &Tree<'_>) -> bool
    ensures { result ≡ option_map_or (has_only entity_names) (as_object (tree_view tree.now)) false }
{
    has_only(&["id", "attrs", "tags", "parents", "ancestors"], tree)
}

// The entity that the tree spells, where it spells one.
fn read_entity(alloc: Global, tree: &Tree<'_>) -> Result<Option<Entity>, AllocError>
    ensures { IfOk result (λ o. o ≡ entity_of (tree_view tree.now)) }
{
    if has_names(tree) {
        read_given_entity(alloc, tree)
    } else {
        Ok(None)
    }
}

// The entity that the text spells in JSON, where it spells one.
fn read_text(alloc: Global, text: &[u8]) -> Result<Option<Entity>, AllocError>
    ensures { IfOk result (λ o. o ≡ entity_in text.now) }
{
    let mut scratch = Scratch::new(alloc);
    match read_tree(alloc, text, &mut scratch)? {
        Some(tree) => read_entity(alloc, &tree),
        None => Ok(None),
    }
}

// The entity that the text at the index spells, where it spells one.
fn read_cell(alloc: Global, row: &Row, index: usize) -> Result<Option<Entity>, AllocError>
    ensures { IfOk result (λ o. o ≡ cell_entity (column row.now index)) }
{
    match row.get_ref(index) {
        Ok(ValueRef::Text(text)) => read_text(alloc, text),
        _ => Ok(None),
    }
}

// Whether the text stands at the index.
fn has_text(row: &Row, index: usize, text: &str) -> bool
    ensures { result ≡ equals (column row.now index) (Text text.now) }
{
    match row.get_ref(index) {
        Ok(ValueRef::Text(there)) => there.cmp(text.as_bytes()) == Ordering::Equal,
        Ok(ValueRef::Null) => false,
        Ok(ValueRef::Int(_)) => false,
        Ok(ValueRef::Real(_)) => false,
        Ok(ValueRef::Blob(_)) => false,
        Err(_) => false,
    }
}

// Whether the row shows the type and the eid of the id.
fn is_shown(row: &Row, uid: &EntityUID) -> bool
    ensures { result ≡ is_shown uid.now row.now }
{
    has_text(row, 0, uid.entity_type().as_str()) && has_text(row, 1, uid.eid().as_str())
}

/// The entity that a row spells: its type, its eid and its text.
pub(crate) fn read_shown(alloc: Global, row: &Row) -> Result<Option<Entity>, AllocError>
    ensures { IfOk result (λ o. o ≡ shown_entity row.now) }
{
    match read_cell(alloc, row, 2)? {
        Some(entity) => {
            if is_shown(row, entity.uid()) {
                Ok(Some(entity))
            } else {
                Ok(None)
            }
        }
        None => Ok(None),
    }
}

fn is_same(one: &EntityUID, other: &EntityUID) -> bool
    ensures { result ≡ uid_eq one.now other.now }
{
    one.cmp(other) == Ordering::Equal
}

// The entity with the id, which the row spells.
fn read_only(alloc: Global, row: &Row, uid: &EntityUID) -> Result<Entity, FindError>
    ensures spelled { IfOk result (λ e. cell_entity (column row.now 0) ≡ Some e) }
    ensures id { IfOk result (λ e. e.uid ≡ uid.now) }
{
    match read_cell(alloc, row, 0)? {
        Some(entity) => {
            if is_same(entity.uid(), uid) {
                Ok(entity)
            } else {
                Err(FindError::NoEntity)
            }
        }
        None => Err(FindError::NoEntity),
    }
}

/// The entity with the id that the rows of a look-up spell: none where there is no row.
pub(crate) fn read_found(
    alloc: Global,
    rows: &Vec<Row>,
    uid: &EntityUID,
) -> Result<Option<Entity>, FindError>
    ensures { IfOk result (IsRowFound rows.now.items uid.now) }
{
    match rows.len() {
        0 => Ok(None),
        1 => Ok(Some(read_only(alloc, &rows[0], uid)?)),
        _ => Err(FindError::NoEntity),
    }
}
