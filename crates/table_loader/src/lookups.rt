//! What the tables of a store have, found in the store.

ghost use Rattle.std.specs.Prelude.{◌≡◌, ◌↔◌, IfOk, IsTrue};
ghost use Rattle.std.specs.Option.{option_and_then, option_copied};
ghost use Rattle.policy_values.specs.Value.{field_at, fields_of};
ghost use Rattle.entity_store.specs.Store.{entity_at};
ghost use Rattle.table_loader.specs.Tables.{tables_of, store_of};
ghost use Rattle.table_loader.specs.RowsState.{has_entity, attribute_at, tags_at, TablesHaveAncestor};

use crate::table_laws::tables_of_stores_stand_for_them;
use entity_store::Entities;
use policy_values::{EntityUID, Text, Value};
use std::alloc::{AllocError, Global};
use std::collections::BTreeMap;

// Whether the store has the entity.
pub(crate) fn has_entity(entities: &Entities, uid: &EntityUID) -> bool
    ensures { result ≡ has_entity (tables_of entities.now) uid.now }
{
    tables_stand_for(entities);
    entities.entity(uid).is_some()
}

// A copy of the attribute of the entity, where there is one.
pub(crate) fn attribute_of(
    alloc: Global,
    entities: &Entities,
    uid: &EntityUID,
    key: &Text,
) -> Result<Option<Value>, AllocError>
    ensures { IfOk result (λ o. o ≡ attribute_at (tables_of entities.now) uid.now key.now) }
{
    tables_stand_for(entities);
    match find_attribute(entities, uid, key) {
        Some(value) => Ok(Some(value.try_clone(alloc)?)),
        None => Ok(None),
    }
}

// Copies of all tags of the entity; none where there is no such entity.
pub(crate) fn tags_of(
    alloc: Global,
    entities: &Entities,
    uid: &EntityUID,
) -> Result<Vec<(Text, Value)>, AllocError>
    ensures { IfOk result (λ ts. fields_of ts.items ≡ tags_at (tables_of entities.now) uid.now) }
{
    tables_stand_for(entities);
    match entities.entity(uid) {
        Some(entity) => copied_entries(alloc, entity.tags()),
        None => Ok(Vec::new(alloc)),
    }
}

// Whether the entity has the ancestor; not where there is no such entity.
pub(crate) fn has_ancestor(entities: &Entities, uid: &EntityUID, ancestor: &EntityUID) -> bool
    ensures { IsTrue result ↔ TablesHaveAncestor (tables_of entities.now) uid.now ancestor.now }
{
    tables_stand_for(entities);
    match entities.entity(uid) {
        Some(entity) => entity.has_ancestor(ancestor),
        None => false,
    }
}

// For the proof: the tables that the store is written into stand for it, as its ids ascend.
fn tables_stand_for(entities: &Entities)
    ensures { store_of (tables_of entities.now) ≡ entities.now }
{
    tables_of_stores_stand_for_them();
    let _entities = entities.iter();
}

// The attribute of the entity, where there is one.
fn find_attribute<'a>(entities: &'a Entities, uid: &EntityUID, key: &Text) -> Option<&'a Value>
    ensures { option_copied result ≡
        option_and_then (λ e. field_at e.attrs key.now) (entity_at entities.now uid.now) }
{
    match entities.entity(uid) {
        Some(entity) => entity.get(key),
        None => None,
    }
}

// Copies of all keys and values, in their order.
fn copied_entries(
    alloc: Global,
    fields: &BTreeMap<Text, Value>,
) -> Result<Vec<(Text, Value)>, AllocError>
    ensures { IfOk result (λ es. es.items ≡ fields.now.entries) }
{
    let mut entries = Vec::new(alloc);
    for (key, value) in fields.iter() {
        entries.push((key.try_clone()?, value.try_clone(alloc)?))?;
    }
    Ok(entries)
}
