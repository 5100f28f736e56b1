//! Manifests, written as JSON.

ghost use Rattle.std.specs.Prelude.{◌≡◌, IfOk, map};
ghost use Rattle.serde_json.specs.View.{view};
ghost use Rattle.manifest_core.specs.ManifestJson.{request_type_data, trie_entry_data, manifest_data};

use access_tries::RootAccessTrie;
use entity_store::RequestType;
use json_response::write_uid;
use json_tries::write_root_trie;
use serde_json::{Map, Value, put};
use std::alloc::{AllocError, Global};
use std::collections::BTreeMap;

pub(crate) fn write_per_action(
    alloc: Global,
    per_action: &BTreeMap<RequestType, RootAccessTrie>,
) -> Result<Value, AllocError>
    ensures { IfOk result (λ v. view v ≡ manifest_data per_action.now.entries) }
{
    let entries = write_entries(alloc, per_action)?;
    let mut members = Map::new(alloc);
    put(&mut members, alloc, "perAction", Value::Array(entries))?;
    Ok(Value::Object(members))
}

fn write_entries(
    alloc: Global,
    per_action: &BTreeMap<RequestType, RootAccessTrie>,
) -> Result<Vec<Value>, AllocError>
    ensures { IfOk result (λ vs. map view vs.items ≡ map trie_entry_data per_action.now.entries) }
{
    let mut written = Vec::new(alloc);
    for (request_type, trie) in per_action.iter() {
        written.push(write_entry(alloc, request_type, trie)?)?;
    }
    Ok(written)
}

fn write_entry(
    alloc: Global,
    request_type: &RequestType,
    trie: &RootAccessTrie,
) -> Result<Value, AllocError>
    ensures { IfOk result (λ v. view v ≡ trie_entry_data (request_type.now, trie.now)) }
{
    let request_type = write_request_type(alloc, request_type)?;
    let trie = write_root_trie(alloc, trie)?;
    let mut items = Vec::new(alloc);
    items.push(request_type)?;
    items.push(trie)?;
    Ok(Value::Array(items))
}

fn write_request_type(alloc: Global, request_type: &RequestType) -> Result<Value, AllocError>
    ensures { IfOk result (λ v. view v ≡ request_type_data request_type.now) }
{
    let action = write_uid(alloc, &request_type.action)?;
    let principal = Value::try_from_str(alloc, request_type.principal.as_str())?;
    let resource = Value::try_from_str(alloc, request_type.resource.as_str())?;
    let mut members = Map::new(alloc);
    put(&mut members, alloc, "action", action)?;
    put(&mut members, alloc, "principal", principal)?;
    put(&mut members, alloc, "resource", resource)?;
    Ok(Value::Object(members))
}
