//! A decision, and the entities that it needs, as JSON.

ghost use Rattle.std.specs.Prelude.{◌≡◌, ◌++◌, codes, false, IfOk, OnOk, map, string_bytes};
ghost use Rattle.serde_json.specs.Data.{string, array};
ghost use Rattle.serde_json.specs.View.{view, items_of};
ghost use Rattle.serde_json.specs.Written.{has_float, comma_if, compact_text};
ghost use Rattle.json_response.specs.ValueJson.{uid_data};
ghost use Rattle.json_response.specs.SliceJson.{entity_data, decision_text, failure_data, response_data, response_text, slice_text};

use crate::values::{write_fields, write_pair, write_uid};
use policy_core::{Entities, Entity, EntityUID, Text};
use policy_set::{Decision, PolicyFailure, Response};
use serde_json::{Map, Value as Json, put};
use std::alloc::{AllocError, Global};
use std::collections::BTreeSet;

fn write_uids(alloc: Global, uids: &BTreeSet<EntityUID>) -> Result<Json, AllocError>
    ensures { IfOk result (λ v. view v ≡ array (items_of (map uid_data uids.now.keys))) }
{
    let mut written = Vec::new(alloc);
    for uid in uids.iter() {
        written.push(write_uid(alloc, uid)?)?;
    }
    Ok(Json::Array(written))
}

/// An entity: its ancestors, its attributes, its id and its tags.
pub fn write_entity(alloc: Global, entity: &Entity) -> Result<Json, AllocError>
    ensures { IfOk result (λ v. view v ≡ entity_data entity.now) }
{
    let ancestors = write_uids(alloc, entity.ancestors())?;
    let attrs = write_fields(alloc, entity.attrs())?;
    let id = write_uid(alloc, entity.uid())?;
    let tags = write_fields(alloc, entity.tags())?;
    let mut members = Map::new(alloc);
    put(&mut members, alloc, "ancestors", ancestors)?;
    put(&mut members, alloc, "attrs", attrs)?;
    put(&mut members, alloc, "id", id)?;
    put(&mut members, alloc, "tags", tags)?;
    Ok(Json::Object(members))
}

fn write_decision(alloc: Global, decision: Decision) -> Result<Json, AllocError>
    ensures { IfOk result (λ v. view v ≡ string (decision_text decision)) }
{
    match decision {
        Decision::Allow => Json::try_from_str(alloc, "Allow"),
        Decision::Deny => Json::try_from_str(alloc, "Deny"),
    }
}

// A policy without a value: its id, and why it has none.
fn write_failure(alloc: Global, failure: &PolicyFailure) -> Result<Json, AllocError>
    ensures { IfOk result (λ v. view v ≡ failure_data failure.now) }
{
    let error = &failure.error;
    let why = format!(in alloc; "{error}")?;
    write_pair(alloc, failure.id.as_str(), why.as_str())
}

fn write_failures(alloc: Global, failures: &[PolicyFailure]) -> Result<Json, AllocError>
    ensures { IfOk result (λ v. view v ≡ array (items_of (map failure_data failures.now))) }
{
    let mut written = Vec::new(alloc);
    for failure in failures {
        written.push(write_failure(alloc, failure)?)?;
    }
    Ok(Json::Array(written))
}

fn write_ids(alloc: Global, ids: &[Text]) -> Result<Json, AllocError>
    ensures { IfOk result (λ v. view v ≡ array (items_of (map string ids.now))) }
{
    let mut written = Vec::new(alloc);
    for id in ids {
        written.push(Json::try_from_str(alloc, id.as_str())?)?;
    }
    Ok(Json::Array(written))
}

// Appends the value's JSON.
fn append(alloc: Global, text: &mut String, value: Json) -> Result<(), AllocError>
    ensures { OnOk result (has_float (view value) ≡ false
        → string_bytes text.new ≡ string_bytes text.old ++ compact_text (view value)) }
{
    let json = value.to_string(alloc)?;
    drop(value);
    text.push_str(json.as_str())
}

// The text of the response without its closing brace.
fn open_response(alloc: Global, response: &Response) -> Result<String, AllocError>
    ensures { IfOk result (λ s. string_bytes s ++ codes "}"
        ≡ compact_text (response_data response.now)) }
{
    let mut text = String::new(alloc);
    text.push_str(r#"{"decision":"#)?;
    let decision = write_decision(alloc, response.decision())?;
    append(alloc, &mut text, decision)?;
    text.push_str(r#","errors":"#)?;
    let errors = write_failures(alloc, response.errors())?;
    append(alloc, &mut text, errors)?;
    text.push_str(r#","reasons":"#)?;
    let reasons = write_ids(alloc, response.reasons())?;
    append(alloc, &mut text, reasons)?;
    Ok(text)
}

// Appends what stands before an item: a comma, where it is a later one.
fn append_comma(text: &mut String, is_later: bool) -> Result<(), AllocError>
    ensures { OnOk result (string_bytes text.new ≡ string_bytes text.old ++ comma_if is_later) }
{
    if is_later {
        text.push_str(",")?;
    }
    Ok(())
}

// Appends the array of the entities. Only one of them at a time is a JSON value, which takes more memory
// than its text.
fn append_entities(alloc: Global, text: &mut String, entities: &Entities) -> Result<(), AllocError>
    ensures { OnOk result (string_bytes text.new
        ≡ string_bytes text.old ++ compact_text (array (items_of (map entity_data entities.now)))) }
{
    text.push_str("[")?;
    let mut is_later = false;
    for entity in entities.iter() {
        append_comma(text, is_later)?;
        append(alloc, text, write_entity(alloc, entity)?)?;
        is_later = true;
    }
    text.push_str("]")
}

/// The decision on a request, the policies that have no value, and those that led to the decision: one line
/// of JSON without spaces, and a newline.
#[tactic(auto, unfolding(crate::specs::SliceJson::response_text))]
pub fn response_text(alloc: Global, response: &Response) -> Result<String, AllocError>
    ensures { IfOk result (λ s. string_bytes s ≡ response_text response.now) }
{
    let mut text = open_response(alloc, response)?;
    text.push_str("}\n")?;
    Ok(text)
}

/// The decision on a request, the policies that have no value, those that led to the decision, and entities
/// that are enough to come to it: one line of JSON without spaces, and a newline.
pub fn slice_text(
    alloc: Global,
    response: &Response,
    entities: &Entities,
) -> Result<String, AllocError>
    ensures { IfOk result (λ s. string_bytes s ≡ slice_text response.now entities.now) }
{
    let mut text = open_response(alloc, response)?;
    text.push_str(r#","slice":"#)?;
    append_entities(alloc, &mut text, entities)?;
    text.push_str("}\n")?;
    Ok(text)
}
