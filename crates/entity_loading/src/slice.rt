//! The store restricted to what a manifest reads for a request.

ghost use Rattle.entity_store.specs.Request.{IsWhole};
ghost use Rattle.manifest_core.specs.Manifest.{trie_at, trie_for};
ghost use Rattle.entity_loading.specs.Sliced.{trie_or_none, IsSliceOrWhy};

use crate::{
    EntitySliceError, IncompatibleEntityManifestError, PartialRequestError, blocked_value,
    restricted_store,
};
use access_tries::RootAccessTrie;
use entity_store::{Entities, Request, RequestType};
use manifest_core::EntityManifest;
use std::alloc::Global;

/// The store restricted to what the manifest reads for a request of this type; the empty store where it has
/// no trie for that type. Refused with `PartialRequest` exactly where an entry of the request is not known;
/// else with `IncompatibleEntityManifest`, and such a value, exactly where a path of the trie leads to a
/// value from which it cannot go on; and with `OutOfMemory` where memory runs out.
pub fn slice_entities(
    alloc: Global,
    manifest: &EntityManifest,
    entities: &Entities,
    request: &Request,
) -> Result<Entities, EntitySliceError>
    ensures { IsSliceOrWhy (trie_or_none (trie_for manifest.now request.now))
        request.now entities.now result }
{
    if !request.is_whole() {
        return Err(EntitySliceError::PartialRequest(PartialRequestError {}));
    }
    match request.request_type()? {
        Some(request_type) => slice_typed(alloc, manifest, &request_type, entities, request),
        None => slice_along(alloc, &RootAccessTrie::new(alloc), entities, request),
    }
}

fn slice_typed(
    alloc: Global,
    manifest: &EntityManifest,
    request_type: &RequestType,
    entities: &Entities,
    request: &Request,
) -> Result<Entities, EntitySliceError>
    requires { IsWhole request.now }
    ensures { IsSliceOrWhy (trie_or_none (trie_at manifest.now request_type.now))
        request.now entities.now result }
{
    match manifest.per_action().get(request_type) {
        Some(trie) => slice_along(alloc, trie, entities, request),
        None => slice_along(alloc, &RootAccessTrie::new(alloc), entities, request),
    }
}

fn slice_along(
    alloc: Global,
    trie: &RootAccessTrie,
    entities: &Entities,
    request: &Request,
) -> Result<Entities, EntitySliceError>
    requires { IsWhole request.now }
    ensures { IsSliceOrWhy trie.now request.now entities.now result }
{
    if let Some(value) = blocked_value(alloc, trie, request, entities)? {
        let error = IncompatibleEntityManifestError { value };
        return Err(EntitySliceError::IncompatibleEntityManifest(error));
    }
    Ok(restricted_store(alloc, trie, request, entities)?)
}
