//! The entries of a manifest in JSON.

ghost use Rattle.std.specs.Prelude.{◌≡◌, true, option_map, IfOk};
ghost use Rattle.serde_json.specs.View.{view, items_view, members_view};
ghost use Rattle.json_values.specs.Names.{name_of, uid_of};
ghost use Rattle.json_tries.specs.Places.{places_in};
ghost use Rattle.json_tries.specs.Reading.{trie_of};
ghost use Rattle.manifest_core.specs.Reading.{are_names, request_type_form, request_type_in, request_type_of, entry_form, entry_of, entries_of_items, entries_form, entries_of};

use entity_store::RequestType;
use json_tries::{Place, read_trie};
use json_values::{lone_member, pair, read_name, read_uid};
use serde_json::{Map, Value};
use std::alloc::{AllocError, Global};
use std::marker::Model;

// A request type, and the nodes of its trie in the order of the document.
#[derive(Debug, Drop)]
pub(crate) struct Entry {
    request_type: RequestType,
    places: Vec<Place>,
}

impl Model for Entry {
    ghost use Rattle.manifest_core.specs.Reading.{Entry as EntryData, coded_entry};

    ghost Value = { EntryData };

    ghost coded = { coded_entry };

    ghost view = { λ e. (e.request_type, e.places.items) };
}

impl Entry {
    pub(crate) fn request_type(&self) -> &RequestType
        ensures { result.now ≡ self.now.0 }
    {
        &self.request_type
    }

    pub(crate) fn places(&self) -> &[Place]
        ensures { result.now ≡ self.now.1 }
    {
        self.places.as_slice()
    }
}

fn are_names(action: &str, principal: &str, resource: &str) -> bool
    ensures { result ≡ are_names action.now principal.now resource.now }
{
    action == "action" && (principal == "principal" && resource == "resource")
}

fn read_request_type_in(
    alloc: Global,
    members: &Map<String, Value>,
) -> Result<Option<RequestType>, AllocError>
    ensures { IfOk result (λ o. o ≡ request_type_in (members_view members.now.entries)) }
{
    let mut rest = members.iter();
    let Some((first, action)) = rest.next() else {
        return Ok(None);
    };
    let Some((second, principal)) = rest.next() else {
        return Ok(None);
    };
    let Some((third, resource)) = rest.next() else {
        return Ok(None);
    };
    let None = rest.next() else {
        return Ok(None);
    };
    if !are_names(first.as_str(), second.as_str(), third.as_str()) {
        return Ok(None);
    }
    read_request_type_parts(alloc, action, principal, resource)
}

fn read_request_type_parts(
    alloc: Global,
    action: &Value,
    principal: &Value,
    resource: &Value,
) -> Result<Option<RequestType>, AllocError>
    ensures { IfOk result (λ o. o ≡
        request_type_form true (uid_of (view action.now)) (name_of (view principal.now))
        (name_of (view resource.now))) }
{
    let Some(action) = read_uid(alloc, action)? else {
        return Ok(None);
    };
    let Some(principal) = read_name(alloc, principal)? else {
        return Ok(None);
    };
    let Some(resource) = read_name(alloc, resource)? else {
        return Ok(None);
    };
    Ok(Some(RequestType {
        action,
        principal,
        resource,
    }))
}

fn read_request_type(alloc: Global, value: &Value) -> Result<Option<RequestType>, AllocError>
    ensures { IfOk result (λ o. o ≡ request_type_of (view value.now)) }
{
    match value.as_object() {
        Some(members) => read_request_type_in(alloc, members),
        None => Ok(None),
    }
}

fn read_pair(alloc: Global, request_type: &Value, trie: &Value) -> Result<Option<Entry>, AllocError>
    ensures { IfOk result (λ o. o ≡
        entry_form (request_type_of (view request_type.now))
        (option_map places_in (trie_of (view trie.now)))) }
{
    let Some(request_type) = read_request_type(alloc, request_type)? else {
        return Ok(None);
    };
    let Some(places) = read_trie(alloc, trie)? else {
        return Ok(None);
    };
    Ok(Some(Entry {
        request_type,
        places,
    }))
}

fn read_entry(alloc: Global, item: &Value) -> Result<Option<Entry>, AllocError>
    ensures { IfOk result (λ o. o ≡ entry_of (view item.now)) }
{
    let Some(items) = item.as_array() else {
        return Ok(None);
    };
    match pair(items) {
        Some((request_type, trie)) => read_pair(alloc, request_type, trie),
        None => Ok(None),
    }
}

fn read_items(alloc: Global, items: &[Value]) -> Result<Option<Vec<Entry>>, AllocError>
    ensures { IfOk result (λ o. option_map (λ v. v.items) o ≡ entries_of_items (items_view items.now)) }
{
    let mut all = Vec::new(alloc);
    for item in items {
        let Some(next) = read_entry(alloc, item)? else {
            return Ok(None);
        };
        all.push(next)?;
    }
    Ok(Some(all))
}

fn read_list(alloc: Global, key: &str, value: &Value) -> Result<Option<Vec<Entry>>, AllocError>
    ensures { IfOk result (λ o. option_map (λ v. v.items) o ≡ entries_form key.now (view value.now)) }
{
    if key != "perAction" {
        return Ok(None);
    }
    match value.as_array() {
        Some(items) => read_items(alloc, items.as_slice()),
        None => Ok(None),
    }
}

/// The entries of the manifest that a JSON value says, where it says one.
pub(crate) fn read_entries(alloc: Global, value: &Value) -> Result<Option<Vec<Entry>>, AllocError>
    ensures { IfOk result (λ o. option_map (λ v. v.items) o ≡ entries_of (view value.now)) }
{
    match lone_member(value) {
        Some((key, inner)) => read_list(alloc, key.as_str(), inner),
        None => Ok(None),
    }
}
