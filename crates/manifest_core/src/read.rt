//! The typed tries of entries.

ghost use Rattle.std.specs.Prelude.{◌≡◌, ◌↔◌, IfOk, OnOk, IsSome};
ghost use Rattle.policy_values.specs.Repeated.{IsRepeated};
ghost use Rattle.entity_store.specs.declared.request.RequestType.{RequestType as RequestTypeData};
ghost use Rattle.manifest_core.specs.Reading.{types_of};
ghost use Rattle.manifest_core.specs.Said.{IsTypedOf, IsEntryPut, AreTypedOf};

use crate::declared::declared_trie;
use crate::listing::Entry;
use access_tries::RootAccessTrie;
use entity_store::RequestType;
use json_tries::trie_of_places;
use policy_values::first_repeated;
use schema_core::ValidatorSchema;
use std::alloc::{AllocError, Global};
use std::collections::BTreeMap;

fn request_types(alloc: Global, entries: &[Entry]) -> Result<Vec<RequestType>, AllocError>
    ensures { IfOk result (λ v. v.items ≡ types_of entries.now) }
{
    let mut types = Vec::new(alloc);
    for entry in entries {
        types.push(entry.request_type().try_clone()?)?;
    }
    Ok(types)
}

/// The index of the first entry whose request type stands earlier.
pub(crate) fn repeated_type(alloc: Global, entries: &[Entry]) -> Result<Option<usize>, AllocError>
    ensures { IfOk result (λ found. IsSome found ↔
        ((t : RequestTypeData) × IsRepeated (types_of entries.now) t)) }
{
    let types = request_types(alloc, entries)?;
    first_repeated(alloc, types.as_slice())
}

// The trie of an entry with exactly the paths that the schema declares.
fn typed_trie(
    alloc: Global,
    schema: &ValidatorSchema,
    entry: &Entry,
) -> Result<RootAccessTrie, AllocError>
    ensures { IfOk result (IsTypedOf schema.now entry.now.0 entry.now.1) }
{
    let trie = trie_of_places(alloc, entry.places())?;
    declared_trie(alloc, schema, entry.request_type(), &trie)
}

fn put_trie(
    alloc: Global,
    tries: &mut BTreeMap<RequestType, RootAccessTrie>,
    schema: &ValidatorSchema,
    entry: &Entry,
) -> Result<(), AllocError>
    ensures { OnOk result (IsEntryPut schema.now entry.now tries.old.entries tries.new.entries) }
{
    let trie = typed_trie(alloc, schema, entry)?;
    let request_type = entry.request_type().try_clone()?;
    drop(tries.insert(request_type, trie)?);
    Ok(())
}

/// The tries of the entries by their request types, each with exactly the paths that the schema declares.
pub(crate) fn typed_tries(
    alloc: Global,
    schema: &ValidatorSchema,
    entries: Vec<Entry>,
) -> Result<BTreeMap<RequestType, RootAccessTrie>, AllocError>
    ensures { IfOk result (λ m. AreTypedOf schema.now entries.items m.entries) }
{
    let mut tries = BTreeMap::new(alloc);
    let mut left = entries;
    while let Some(entry) = left.pop() {
        put_trie(alloc, &mut tries, schema, &entry)?;
    }
    Ok(tries)
}
