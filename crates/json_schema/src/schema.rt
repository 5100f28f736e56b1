//! A schema in JSON.

ghost use Rattle.std.specs.Prelude.{◌≡◌, IfOk, IfSome, map, option_map};
ghost use Rattle.serde_json.specs.View.{view, items_view, members_view};
ghost use Rattle.schema_core.specs.Faults.{IsOnce};
ghost use Rattle.json_schema.specs.Schema.{action_in, action_of, actions_of_items, attributes_at, enumerated_of, entity_type_of, entity_types_of, entity_types_of_members, schema_of, standard_of, tags_at, texts_of_items};

use crate::types::{read_attributes, read_type};
use json_values::{
    has_only, list_items, read_names, read_type_name, read_uid, read_uids, with_item,
};
use policy_values::{Eid, EntityType, Text};
use schema_core::{ActionDeclaration, SchemaDeclarations, TypeDeclaration};
use schema_types::{Attributes, Type};
use serde_json::{Map, Value};
use std::alloc::{AllocError, Global};
use std::collections::BTreeMap;

fn read_choices(alloc: Global, items: &Vec<Value>) -> Result<Option<Vec<Eid>>, AllocError>
    ensures { IfOk result (λ o. option_map (λ v. v.items) o ≡
        texts_of_items (items_view items.now.items)) }
{
    let mut all = Vec::new(alloc);
    for item in items {
        let Some(text) = item.as_str() else {
            return Ok(None);
        };
        let text = Text::from_str(alloc, text)?;
        all.push(Eid::new(text))?;
    }
    Ok(Some(all))
}

fn read_enumerated(
    alloc: Global,
    name: EntityType,
    listed: &Value,
) -> Result<Option<TypeDeclaration>, AllocError>
    ensures { IfOk result (λ o. o ≡ enumerated_of name (view listed.now)) }
{
    let Some(items) = listed.as_array() else {
        return Ok(None);
    };
    let Some(choices) = read_choices(alloc, items)? else {
        return Ok(None);
    };
    Ok(Some(TypeDeclaration::enumerated(alloc, name, choices)?))
}

fn read_attributes_at(
    alloc: Global,
    value: Option<&Value>,
) -> Result<Option<Attributes>, AllocError>
    ensures { IfOk result (λ o. o ≡ attributes_at (option_map (λ v. view v.now) value.entry)) }
{
    match value {
        Some(value) => read_attributes(alloc, value),
        None => Ok(Some(Attributes::with_attributes(alloc, BTreeMap::new(alloc))?)),
    }
}

fn read_tags_at(alloc: Global, value: Option<&Value>) -> Result<Option<Option<Type>>, AllocError>
    ensures { IfOk result (λ o. o ≡ tags_at (option_map (λ v. view v.now) value.entry)) }
{
    let Some(value) = value else {
        return Ok(Some(None));
    };
    match read_type(alloc, value)? {
        Some(tags) => Ok(Some(Some(tags))),
        None => Ok(None),
    }
}

fn read_standard(
    alloc: Global,
    name: EntityType,
    value: &Value,
) -> Result<Option<TypeDeclaration>, AllocError>
    ensures { IfOk result (λ o. o ≡ standard_of name (view value.now)) }
{
    let Some(member_of) = read_names(alloc, value.get("memberOf"))? else {
        return Ok(None);
    };
    let Some(attributes) = read_attributes_at(alloc, value.get("attributes"))? else {
        return Ok(None);
    };
    let Ok(tags) = read_tags_at(alloc, value.get("tags")) else {
        drop(attributes);
        return Err(AllocError);
    };
    let Some(tags) = tags else {
        drop(attributes);
        return Ok(None);
    };
    Ok(Some(TypeDeclaration::standard(name, member_of, attributes, tags)))
}

#[tactic(auto, unfolding(crate::specs::Schema::entity_type_of))]
fn read_entity_type(
    alloc: Global,
    key: &str,
    value: &Value,
) -> Result<Option<TypeDeclaration>, AllocError>
    ensures { IfOk result (λ o. o ≡ entity_type_of key.now (view value.now)) }
{
    let Some(name) = read_type_name(alloc, key)? else {
        return Ok(None);
    };
    let Some(members) = value.as_object() else {
        return Ok(None);
    };
    match value.get("enum") {
        Some(listed) => {
            if !has_only(&["enum"], members) {
                return Ok(None);
            }
            read_enumerated(alloc, name, listed)
        }
        None => {
            if !has_only(&["memberOf", "attributes", "tags"], members) {
                return Ok(None);
            }
            read_standard(alloc, name, value)
        }
    }
}

fn read_entity_type_members(
    alloc: Global,
    members: &Map<String, Value>,
) -> Result<Option<Vec<TypeDeclaration>>, AllocError>
    ensures types { IfOk result (λ o. option_map (λ v. v.items) o ≡
        entity_types_of_members (members_view members.now.entries)) }
    ensures once { IfOk result (λ o. IfSome o (λ v. IsOnce (map (λ t. t.name) v.items))) }
{
    let mut types = Vec::new(alloc);
    for (key, member) in members.iter() {
        let Ok(next) = read_entity_type(alloc, key.as_str(), member) else {
            drop(types);
            return Err(AllocError);
        };
        let Some(next) = next else {
            drop(types);
            return Ok(None);
        };
        types = with_item(types, next)?;
    }
    Ok(Some(types))
}

fn read_entity_types(
    alloc: Global,
    value: Option<&Value>,
) -> Result<Option<Vec<TypeDeclaration>>, AllocError>
    ensures types { IfOk result (λ o. option_map (λ v. v.items) o ≡
        entity_types_of (option_map (λ v. view v.now) value.entry)) }
    ensures once { IfOk result (λ o. IfSome o (λ v. IsOnce (map (λ t. t.name) v.items))) }
{
    let Some(value) = value else {
        return Ok(Some(Vec::new(alloc)));
    };
    match value.as_object() {
        Some(members) => read_entity_type_members(alloc, members),
        None => Ok(None),
    }
}

fn read_action_in(alloc: Global, value: &Value) -> Result<Option<ActionDeclaration>, AllocError>
    ensures { IfOk result (λ o. o ≡ action_in (view value.now)) }
{
    let Some(id) = value.get("id") else {
        return Ok(None);
    };
    let Some(id) = read_uid(alloc, id)? else {
        return Ok(None);
    };
    let Some(principals) = read_names(alloc, value.get("principals"))? else {
        return Ok(None);
    };
    let Some(resources) = read_names(alloc, value.get("resources"))? else {
        return Ok(None);
    };
    let Some(member_of) = read_uids(alloc, value.get("memberOf"))? else {
        return Ok(None);
    };
    let Some(context) = read_attributes_at(alloc, value.get("context"))? else {
        return Ok(None);
    };
    Ok(Some(ActionDeclaration::new(id, principals, resources, member_of, context)))
}

#[tactic(auto, unfolding(crate::specs::Schema::action_of))]
fn read_action(alloc: Global, value: &Value) -> Result<Option<ActionDeclaration>, AllocError>
    ensures { IfOk result (λ o. o ≡ action_of (view value.now)) }
{
    let Some(members) = value.as_object() else {
        return Ok(None);
    };
    if !has_only(
        &["id", "principals", "resources", "memberOf", "context"],
        members,
    ) {
        return Ok(None);
    }
    read_action_in(alloc, value)
}

fn read_actions(
    alloc: Global,
    items: &[Value],
) -> Result<Option<Vec<ActionDeclaration>>, AllocError>
    ensures { IfOk result (λ o. option_map (λ v. v.items) o ≡ actions_of_items (items_view items.now)) }
{
    let mut actions = Vec::new(alloc);
    for item in items {
        let Ok(next) = read_action(alloc, item) else {
            drop(actions);
            return Err(AllocError);
        };
        let Some(next) = next else {
            drop(actions);
            return Ok(None);
        };
        actions = with_item(actions, next)?;
    }
    Ok(Some(actions))
}

/// What the value declares, where it has the form of a schema.
#[tactic(auto, unfolding(crate::specs::Schema::schema_of))]
pub fn read_declarations(
    alloc: Global,
    value: &Value,
) -> Result<Option<SchemaDeclarations>, AllocError>
    ensures value { IfOk result (λ o. o ≡ schema_of (view value.now)) }
    // The members of a JSON object differ, so no type is declared twice.
    ensures once { IfOk result (λ o. IfSome o (λ d. IsOnce (map (λ t. t.name) d.entity_types))) }
{
    let Some(members) = value.as_object() else {
        return Ok(None);
    };
    if !has_only(&["entityTypes", "actions"], members) {
        return Ok(None);
    }
    let Some(items) = list_items(value.get("actions")) else {
        return Ok(None);
    };
    let Some(entity_types) = read_entity_types(alloc, value.get("entityTypes"))? else {
        return Ok(None);
    };
    let Ok(actions) = read_actions(alloc, items) else {
        drop(entity_types);
        return Err(AllocError);
    };
    let Some(actions) = actions else {
        drop(entity_types);
        return Ok(None);
    };
    Ok(Some(SchemaDeclarations::new(entity_types, actions)))
}
