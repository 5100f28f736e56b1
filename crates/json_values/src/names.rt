//! Names and ids of entities in JSON.

ghost use Rattle.std.specs.Prelude.{◌≡◌, IfOk, option_map};
ghost use Rattle.serde_json.specs.View.{view, items_view};
ghost use Rattle.serde_json.specs.Find.{as_str};
ghost use Rattle.json_values.specs.Names.{name_of, name_of_text, names_of, names_of_items, uid_of, uid_of_items, uid_of_parts, uids_of, uids_of_items};

use policy_values::{Eid, EntityType, EntityUID, Name, Text};
use serde_json::Value;
use std::alloc::{AllocError, Global};

/// The type that a text names.
pub fn read_type_name(alloc: Global, text: &str) -> Result<Option<EntityType>, AllocError>
    ensures { IfOk result (λ o. o ≡ name_of_text text.now) }
{
    match Name::parse(alloc, text)? {
        Some(name) => Ok(Some(EntityType::new(name))),
        None => Ok(None),
    }
}

/// The type that a value names.
pub fn read_name(alloc: Global, value: &Value) -> Result<Option<EntityType>, AllocError>
    ensures { IfOk result (λ o. o ≡ name_of (view value.now)) }
{
    match value.as_str() {
        Some(text) => read_type_name(alloc, text),
        None => Ok(None),
    }
}

fn read_uid_parts(
    alloc: Global,
    entity_type: &Value,
    eid: &Value,
) -> Result<Option<EntityUID>, AllocError>
    ensures { IfOk result (λ o. o ≡ uid_of_parts (name_of (view entity_type.now)) (as_str (view eid.now))) }
{
    let Some(entity_type) = read_name(alloc, entity_type)? else {
        return Ok(None);
    };
    let Some(eid) = eid.as_str() else {
        return Ok(None);
    };
    let eid = Eid::new(Text::from_str(alloc, eid)?);
    Ok(Some(EntityUID { entity_type, eid }))
}

fn read_uid_pair(alloc: Global, items: &Vec<Value>) -> Result<Option<EntityUID>, AllocError>
    ensures { IfOk result (λ o. o ≡ uid_of_items (items_view items.now.items)) }
{
    if items.len() != 2 {
        return Ok(None);
    }
    read_uid_parts(alloc, &items[0], &items[1])
}

/// The id that the value spells as a list of a name and a text.
pub fn read_uid(alloc: Global, value: &Value) -> Result<Option<EntityUID>, AllocError>
    ensures { IfOk result (λ o. o ≡ uid_of (view value.now)) }
{
    match value.as_array() {
        Some(items) => read_uid_pair(alloc, items),
        None => Ok(None),
    }
}

fn read_name_items(alloc: Global, items: &Vec<Value>) -> Result<Option<Vec<EntityType>>, AllocError>
    ensures { IfOk result (λ o. option_map (λ v. v.items) o ≡ names_of_items (items_view items.now.items)) }
{
    let mut all = Vec::new(alloc);
    for item in items {
        let Some(name) = read_name(alloc, item)? else {
            return Ok(None);
        };
        all.push(name)?;
    }
    Ok(Some(all))
}

fn read_uid_items(alloc: Global, items: &Vec<Value>) -> Result<Option<Vec<EntityUID>>, AllocError>
    ensures { IfOk result (λ o. option_map (λ v. v.items) o ≡ uids_of_items (items_view items.now.items)) }
{
    let mut all = Vec::new(alloc);
    for item in items {
        let Some(uid) = read_uid(alloc, item)? else {
            return Ok(None);
        };
        all.push(uid)?;
    }
    Ok(Some(all))
}

/// The types that a list names; an absent list has none.
pub fn read_names(
    alloc: Global,
    value: Option<&Value>,
) -> Result<Option<Vec<EntityType>>, AllocError>
    ensures { IfOk result
        (λ o. option_map (λ v. v.items) o ≡ names_of (option_map (λ v. view v.now) value.entry)) }
{
    let Some(value) = value else {
        return Ok(Some(Vec::new(alloc)));
    };
    match value.as_array() {
        Some(items) => read_name_items(alloc, items),
        None => Ok(None),
    }
}

/// The ids that a list spells; an absent list has none.
pub fn read_uids(alloc: Global, value: Option<&Value>) -> Result<Option<Vec<EntityUID>>, AllocError>
    ensures { IfOk result
        (λ o. option_map (λ v. v.items) o ≡ uids_of (option_map (λ v. view v.now) value.entry)) }
{
    let Some(value) = value else {
        return Ok(Some(Vec::new(alloc)));
    };
    match value.as_array() {
        Some(items) => read_uid_items(alloc, items),
        None => Ok(None),
    }
}
