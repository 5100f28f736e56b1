//! What a node and those below it name, from a value.

ghost use Rattle.std.specs.Prelude.{◌≡◌, ◌≤◌, ◌+◌, ℕ, true, [], map, OnOk};
ghost use Rattle.access_tries.specs.Views.{view_leads, view_marks};
ghost use Rattle.policy_values.specs.Uid.{uid_eq};
ghost use Rattle.policy_values.specs.declared.entity_uid.EntityUID.{EntityUID};
ghost use Rattle.reads_spec.specs.Restrict.{is_id, lists_id, values_in};
ghost use Rattle.entity_store.specs.Store.{Store};
ghost use Rattle.policy_values.specs.Value.{entity, rec, set, fields_of, vals_of};
ghost use Rattle.entity_loading.specs.Names.{IsKept, Names, SomeNames};
ghost use Rattle.entity_loading.specs.Waiting.{Has, Gives, Adds, WaitFrom, WaitingNames, Waits};

use access_tries::TrieRef;
use entity_store::Entity;
use policy_values::{EntityUID, Text, Value, ValueKind};
use std::alloc::{AllocError, Global};
use std::collections::{BTreeMap, BTreeSet};

/// For each number of a node the ids of entities that are still to be followed there.
pub(crate) type Waiting = BTreeMap<usize, BTreeSet<EntityUID>>;

// From each id.
pub(crate) fn name_each_entity(
    alloc: Global,
    uids: &BTreeSet<EntityUID>,
    kept: &BTreeMap<EntityUID, Entity>,
    trie: &TrieRef<'_>,
    ids: &mut BTreeSet<EntityUID>,
    waiting: &mut Waiting,
) -> Result<(), AllocError>
    ensures named { OnOk result ((s : Store) → IsKept kept.now s →
        Adds (SomeNames s (map entity uids.now.keys) trie.now)
        (Gives s trie.now ids.old waiting.old) (Gives s trie.now ids.new waiting.new)) }
    ensures later { OnOk result ((k : ℕ) → k ≤ trie.now.number + 1 →
        WaitFrom k trie.now.nodes waiting.old → WaitFrom k trie.now.nodes waiting.new) }
{
    for uid in uids.iter() {
        name_entity(alloc, uid, kept, trie, ids, waiting)?;
    }
    Ok(())
}

// From an id: the id where the node is marked, and what is named from attributes and tags that are kept of
// its entity.
fn name_entity(
    alloc: Global,
    uid: &EntityUID,
    kept: &BTreeMap<EntityUID, Entity>,
    trie: &TrieRef<'_>,
    ids: &mut BTreeSet<EntityUID>,
    waiting: &mut Waiting,
) -> Result<(), AllocError>
    ensures named { OnOk result ((s : Store) → IsKept kept.now s →
        Adds (Names s (entity uid.now) trie.now) (Gives s trie.now ids.old waiting.old)
        (Gives s trie.now ids.new waiting.new)) }
    ensures later { OnOk result ((k : ℕ) → k ≤ trie.now.number + 1 →
        WaitFrom k trie.now.nodes waiting.old → WaitFrom k trie.now.nodes waiting.new) }
{
    name_here(uid, trie, ids)?;
    let Some(entity) = kept.get(uid) else {
        return Ok(());
    };
    name_fields(alloc, entity.attrs(), trie, ids, waiting)?;
    match trie.tags() {
        Some(below) => name_each(alloc, entity.tags(), &below, ids, waiting),
        None => Ok(()),
    }
}

// The id, where the node is marked.
fn name_here(
    uid: &EntityUID,
    trie: &TrieRef<'_>,
    ids: &mut BTreeSet<EntityUID>,
) -> Result<(), AllocError>
    ensures { OnOk result
        (Adds (λ y. (view_marks trie.now [] ≡ true) × (uid_eq y uid.now ≡ true)) (Has ids.old)
        (Has ids.new)) }
{
    if trie.is_ancestor() {
        ids.insert(uid.try_clone()?)?;
    }
    Ok(())
}

// From each field along the trie.
#[cycle(naming)]
pub(crate) fn name_fields(
    alloc: Global,
    fields: &BTreeMap<Text, Value>,
    trie: &TrieRef<'_>,
    ids: &mut BTreeSet<EntityUID>,
    waiting: &mut Waiting,
) -> Result<(), AllocError>
    ensures named { OnOk result ((s : Store) →
        Adds (Names s (rec (fields_of fields.now.entries)) trie.now)
        (Gives s trie.now ids.old waiting.old) (Gives s trie.now ids.new waiting.new)) }
    ensures later { OnOk result ((k : ℕ) → k ≤ trie.now.number + 1 →
        WaitFrom k trie.now.nodes waiting.old → WaitFrom k trie.now.nodes waiting.new) }
{
    for (name, below) in trie.children() {
        if let Some(value) = fields.get(name) {
            name_at(alloc, value, &below, ids, waiting)?;
        }
    }
    Ok(())
}

// From each value.
fn name_each(
    alloc: Global,
    values: &BTreeMap<Text, Value>,
    trie: &TrieRef<'_>,
    ids: &mut BTreeSet<EntityUID>,
    waiting: &mut Waiting,
) -> Result<(), AllocError>
    requires { view_leads trie.now [] ≡ true }
    ensures named { OnOk result ((s : Store) →
        Adds (SomeNames s (values_in (fields_of values.now.entries)) trie.now)
        (Gives s trie.now ids.old waiting.old) (Gives s trie.now ids.new waiting.new)) }
    ensures later { OnOk result ((k : ℕ) → k ≤ trie.now.number →
        WaitFrom k trie.now.nodes waiting.old → WaitFrom k trie.now.nodes waiting.new) }
{
    for value in values.values() {
        name_at(alloc, value, trie, ids, waiting)?;
    }
    Ok(())
}

// From a value: an id waits, and the fields of a record are followed.
#[cycle(naming)]
fn name_at(
    alloc: Global,
    value: &Value,
    trie: &TrieRef<'_>,
    ids: &mut BTreeSet<EntityUID>,
    waiting: &mut Waiting,
) -> Result<(), AllocError>
    requires { view_leads trie.now [] ≡ true }
    ensures named { OnOk result ((s : Store) →
        Adds (Names s value.now trie.now) (Gives s trie.now ids.old waiting.old)
        (Gives s trie.now ids.new waiting.new)) }
    ensures later { OnOk result ((k : ℕ) → k ≤ trie.now.number →
        WaitFrom k trie.now.nodes waiting.old → WaitFrom k trie.now.nodes waiting.new) }
{
    match value.kind() {
        ValueKind::EntityUID(uid) => name_later(alloc, uid, trie, waiting),
        ValueKind::Record(fields) => name_fields(alloc, fields, trie, ids, waiting),
        ValueKind::Set(values) => name_set(values, trie, ids),
        _ => Ok(()),
    }
}

// From an id that waits.
pub(crate) fn name_later(
    alloc: Global,
    uid: &EntityUID,
    trie: &TrieRef<'_>,
    waiting: &mut Waiting,
) -> Result<(), AllocError>
    requires { view_leads trie.now [] ≡ true }
    ensures named { OnOk result ((s : Store) →
        Adds (Names s (entity uid.now) trie.now) (WaitingNames s trie.now.nodes waiting.old)
        (WaitingNames s trie.now.nodes waiting.new)) }
    ensures later { OnOk result ((k : ℕ) → k ≤ trie.now.number →
        WaitFrom k trie.now.nodes waiting.old → WaitFrom k trie.now.nodes waiting.new) }
{
    wait(alloc, trie.number(), uid, waiting)
}

fn wait(
    alloc: Global,
    number: usize,
    uid: &EntityUID,
    waiting: &mut Waiting,
) -> Result<(), AllocError>
    ensures { OnOk result (Waits number uid.now waiting.old waiting.new) }
{
    let mut uids = match waiting.remove(&number) {
        Some(uids) => uids,
        None => BTreeSet::new(alloc),
    };
    uids.insert(uid.try_clone()?)?;
    waiting.insert(number, uids)?;
    Ok(())
}

// The ids in a set, where the node is marked.
fn name_set(
    values: &Vec<Value>,
    trie: &TrieRef<'_>,
    ids: &mut BTreeSet<EntityUID>,
) -> Result<(), AllocError>
    ensures { OnOk result ((s : Store) →
        Adds (Names s (set (vals_of values.now.items)) trie.now) (Has ids.old) (Has ids.new)) }
{
    if trie.is_ancestor() {
        add_ids(values, ids)?;
    }
    Ok(())
}

fn add_ids(values: &Vec<Value>, ids: &mut BTreeSet<EntityUID>) -> Result<(), AllocError>
    ensures { OnOk result
        (Adds (λ y. lists_id y (vals_of values.now.items) ≡ true) (Has ids.old) (Has ids.new)) }
{
    for value in values {
        add_id(value, ids)?;
    }
    Ok(())
}

fn add_id(value: &Value, ids: &mut BTreeSet<EntityUID>) -> Result<(), AllocError>
    ensures { OnOk result (Adds (λ y. is_id y value.now ≡ true) (Has ids.old) (Has ids.new)) }
{
    match value.kind() {
        ValueKind::EntityUID(uid) => {
            ids.insert(uid.try_clone()?)?;
            Ok(())
        }
        _ => Ok(()),
    }
}
