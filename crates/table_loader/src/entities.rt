//! Entities put together of rows.

ghost use Rattle.std.specs.Prelude.{◌≡◌, ◌∷◌, [], ℕ, false, List, Some, None, IfOk, OnOk, if◌then◌else◌};
ghost use Rattle.std.specs.BTreeMap.{get};
ghost use Rattle.std.specs.List.{AllZip};
ghost use Rattle.std.specs.Ordering.{is_eq};
ghost use Rattle.policy_values.specs.Uid.{text_cmp};
ghost use Rattle.policy_values.specs.Value.{field_at, fields_of};
ghost use Rattle.reads_spec.specs.Paths.{along};
ghost use Rattle.entity_loader.specs.Answers.{Fits, IsHonest};
ghost use Rattle.entity_loader.specs.Asked.{asks};
ghost use Rattle.table_loader.specs.OrderLaws.{KeysAscend};
ghost use Rattle.table_loader.specs.TableLaws.{IsOrderedStore};
ghost use Rattle.table_loader.specs.RowsState.{RowsContinue, attribute_at, tags_at};
ghost use Rattle.table_loader.specs.Tables.{Tables, store_of};
ghost use Rattle.table_loader.specs.Asking.{IsCause, PutsIfAny};
ghost use Rattle.table_loader.specs.FromRows.{tags_from_rows};

use crate::Rows;
use crate::asking::loaded;
use access_tries::TrieRef;
use entity_loader::{EntityAnswer, EntityRequest, LoadError};
use entity_store::Entity;
use policy_values::{EntityUID, Text, Value};
use std::alloc::{AllocError, Global};
use std::collections::{BTreeMap, BTreeSet};

// An answer for each request, in their order.
pub(crate) fn answers<R: Rows>(
    alloc: Global,
    rows: &mut R,
    requests: &Vec<EntityRequest<'_>>,
) -> Result<Vec<EntityAnswer>, LoadError>
    ensures goes_on { RowsContinue (R.state rows.old) (R.state rows.new) }
    ensures cause { IsCause result (R.state rows.old) (R.state rows.new) }
    ensures fit { IfOk result (λ found. AllZip Fits requests.now.items found.items) }
    ensures honest { (t : Tables) → (R.state rows.new).known ≡ Some t → IsOrderedStore (store_of t) →
        IfOk result (λ found. AllZip (IsHonest false (store_of t)) requests.now.items found.items) }
{
    let mut found = Vec::new(alloc);
    for request in requests {
        let answer = answer(alloc, rows, request)?;
        found.push(answer)?;
    }
    Ok(found)
}

// The entity with what rows give for it, where there is a row for it.
fn answer<R: Rows>(
    alloc: Global,
    rows: &mut R,
    request: &EntityRequest<'_>,
) -> Result<EntityAnswer, LoadError>
    ensures goes_on { RowsContinue (R.state rows.old) (R.state rows.new) }
    ensures cause { IsCause result (R.state rows.old) (R.state rows.new) }
    ensures fit { IfOk result (Fits request.now) }
    ensures honest { (t : Tables) → (R.state rows.new).known ≡ Some t → IsOrderedStore (store_of t) →
        IfOk result (IsHonest false (store_of t) request.now) }
{
    let uid = &request.entity_id;
    if !loaded(rows.entity(uid))? {
        return Ok(None);
    }
    let attrs = attributes(alloc, rows, uid, &request.access_trie)?;
    let tags = tags(alloc, rows, uid, &request.access_trie)?;
    // for the proof: the keys of a map ascend
    let _count = attrs.len();
    let ancestors = BTreeSet::new(alloc);
    Ok(Some(Entity::new(uid.try_clone()?, attrs, ancestors, tags)))
}

// The attributes with which the trie goes on, where there are rows for them.
fn attributes<R: Rows>(
    alloc: Global,
    rows: &mut R,
    uid: &EntityUID,
    trie: &TrieRef<'_>,
) -> Result<BTreeMap<Text, Value>, LoadError>
    ensures goes_on { RowsContinue (R.state rows.old) (R.state rows.new) }
    ensures cause { IsCause result (R.state rows.old) (R.state rows.new) }
    ensures found { (t : Tables) → (R.state rows.new).known ≡ Some t → IfOk result (λ m. (k : List ℕ) →
        get text_cmp m k ≡ (if asks trie.now (along k ∷ []) then attribute_at t uid.now k else None)) }
{
    // for the proof: the nodes are a table
    let _nodes = trie.nodes();
    let mut attrs = BTreeMap::new(alloc);
    for (key, _behind) in trie.children() {
        put_attribute(alloc, rows, uid, key, &mut attrs)?;
    }
    Ok(attrs)
}

// Adds the attribute under the key, where there is a row for it.
fn put_attribute<R: Rows>(
    alloc: Global,
    rows: &mut R,
    uid: &EntityUID,
    key: &Text,
    attrs: &mut BTreeMap<Text, Value>,
) -> Result<(), LoadError>
    ensures goes_on { RowsContinue (R.state rows.old) (R.state rows.new) }
    ensures cause { IsCause result (R.state rows.old) (R.state rows.new) }
    ensures put { (t : Tables) → (R.state rows.new).known ≡ Some t →
        OnOk result (PutsIfAny attrs.old attrs.new key.now (attribute_at t uid.now key.now)) }
{
    match loaded(rows.attribute(alloc, uid, key))? {
        Some(value) => Ok(put(attrs, key.try_clone()?, value)?),
        None => Ok(()),
    }
}

fn put(attrs: &mut BTreeMap<Text, Value>, key: Text, value: Value) -> Result<(), AllocError>
    ensures { OnOk result ((k : List ℕ) → get text_cmp attrs.new k ≡
        (if is_eq (text_cmp key k) then Some value else get text_cmp attrs.old k)) }
{
    attrs.insert(key, value)?;
    Ok(())
}

// All tags, where the trie goes on with any tag.
fn tags<R: Rows>(
    alloc: Global,
    rows: &mut R,
    uid: &EntityUID,
    trie: &TrieRef<'_>,
) -> Result<BTreeMap<Text, Value>, LoadError>
    ensures goes_on { RowsContinue (R.state rows.old) (R.state rows.new) }
    ensures cause { IsCause result (R.state rows.old) (R.state rows.new) }
    ensures found { (t : Tables) → (R.state rows.new).known ≡ Some t → KeysAscend (tags_at t uid.now) →
        IfOk result (λ m. fields_of m.entries ≡ tags_from_rows t trie.now uid.now) }
{
    match trie.tags() {
        Some(_) => {
            let entries = loaded(rows.tags(alloc, uid))?;
            Ok(map_of(alloc, entries)?)
        }
        None => Ok(BTreeMap::new(alloc)),
    }
}

// A map of the entries: under each key the value of its first entry.
fn map_of(
    alloc: Global,
    mut entries: Vec<(Text, Value)>,
) -> Result<BTreeMap<Text, Value>, AllocError>
    ensures { KeysAscend (fields_of entries.items) →
        IfOk result (λ m. fields_of m.entries ≡ fields_of entries.items) }
{
    let mut map = BTreeMap::new(alloc);
    while let Some((key, value)) = entries.pop() {
        put(&mut map, key, value)?;
    }
    // for the proof: the keys of a map ascend
    let _count = map.len();
    Ok(map)
}
