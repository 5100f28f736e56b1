//! Parts of entities along tries.

ghost use Rattle.std.specs.Prelude.{◌≡◌, ◌∷◌, [], true, IfOk};
ghost use Rattle.access_tries.specs.Table.{IsTable};
ghost use Rattle.access_tries.specs.declared.edge.Edge.TheVariants.{Field, AnyTag};
ghost use Rattle.reads_spec.specs.Paths.{any_tag, steps_of};
ghost use Rattle.policy_values.specs.Value.{fields_of};
ghost use Rattle.reads_spec.specs.Restrict.{cut, cut_fields, cut_entity};
ghost use Rattle.entity_loader.specs.Asked.{asked, asked_by, by_tag, some_leads, some_asks, some_along, AreBelow};

use access_tries::{Node, TrieRef};
use entity_store::Entity;
use policy_values::{EntityUID, Text, Value, ValueKind, push_entry};
use std::alloc::{AllocError, Global};
use std::collections::{BTreeMap, BTreeSet};

/// The entity with its attributes, its tags and the fields of records there along which some of the nodes of
/// the table leads, and with these ancestors.
pub fn cut_entity(
    alloc: Global,
    entity: &Entity,
    nodes: &[Node],
    numbers: &[usize],
    ancestors: BTreeSet<EntityUID>,
) -> Result<Entity, AllocError>
    requires { IsTable nodes.now }
    ensures { IfOk result (λ e. e ≡
        record (cut_entity (asked_by nodes.now numbers.now) entity.now) { ancestors = ancestors.keys }) }
{
    let uid = entity.uid().try_clone()?;
    let attrs = cut_fields(alloc, entity.attrs(), nodes, numbers)?;
    let tags = cut_tags(alloc, entity.tags(), nodes, numbers)?;
    Ok(Entity::new(uid, attrs, ancestors, tags))
}

/// The entity with what stands there along the trie, and without ancestors: just what a request for it asks.
pub fn cut_along(alloc: Global, entity: &Entity, trie: &TrieRef<'_>) -> Result<Entity, AllocError>
    ensures { IfOk result (λ e. e ≡ cut_entity (asked trie.now) entity.now) }
{
    let numbers = [trie.number()];
    cut_entity(alloc, entity, trie.nodes(), &numbers, BTreeSet::new(alloc))
}

// The tags, each cut along what is read of any tag; none where nothing is.
fn cut_tags(
    alloc: Global,
    tags: &BTreeMap<Text, Value>,
    nodes: &[Node],
    numbers: &[usize],
) -> Result<BTreeMap<Text, Value>, AllocError>
    requires { IsTable nodes.now }
    ensures { IfOk result (λ kept. fields_of kept.entries ≡
        cut_fields (fields_of tags.now.entries)
        (by_tag (λ c. some_asks nodes.now numbers.now (any_tag ∷ steps_of c)))) }
{
    let below = behind_tags(alloc, nodes, numbers)?;
    if below.is_empty() {
        return Ok(BTreeMap::new(alloc));
    }
    cut_all(alloc, tags, nodes, &below)
}

// All values, each cut along the nodes.
fn cut_all(
    alloc: Global,
    values: &BTreeMap<Text, Value>,
    nodes: &[Node],
    numbers: &[usize],
) -> Result<BTreeMap<Text, Value>, AllocError>
    requires table { IsTable nodes.now }
    requires there { some_leads nodes.now numbers.now [] ≡ true }
    ensures { IfOk result (λ kept. fields_of kept.entries ≡
        cut_fields (fields_of values.now.entries) (by_tag (some_along nodes.now numbers.now))) }
{
    let mut kept = BTreeMap::new(alloc);
    for (key, value) in values.iter() {
        let value = cut_value(alloc, value, nodes, numbers)?;
        push_entry(&mut kept, key.try_clone()?, value)?;
    }
    Ok(kept)
}

// The fields along which some node leads, each with the part of it along the nodes below.
#[cycle(cutting)]
fn cut_fields(
    alloc: Global,
    fields: &BTreeMap<Text, Value>,
    nodes: &[Node],
    numbers: &[usize],
) -> Result<BTreeMap<Text, Value>, AllocError>
    requires { IsTable nodes.now }
    ensures { IfOk result (λ kept. fields_of kept.entries ≡
        cut_fields (fields_of fields.now.entries) (some_along nodes.now numbers.now)) }
{
    let mut kept = BTreeMap::new(alloc);
    for (key, value) in fields.iter() {
        let below = behind_field(alloc, nodes, numbers, key)?;
        if !below.is_empty() {
            let value = cut_value(alloc, value, nodes, &below)?;
            push_entry(&mut kept, key.try_clone()?, value)?;
        }
    }
    Ok(kept)
}

// A record with the fields along which some node leads; any other value whole.
#[cycle(cutting)]
fn cut_value(
    alloc: Global,
    value: &Value,
    nodes: &[Node],
    numbers: &[usize],
) -> Result<Value, AllocError>
    requires { IsTable nodes.now }
    ensures { IfOk result (λ v. v ≡ cut value.now (some_along nodes.now numbers.now)) }
{
    match value.kind() {
        ValueKind::Record(fields) => {
            let kept = cut_fields(alloc, fields, nodes, numbers)?;
            Ok(Value::record(kept))
        }
        _ => value.try_clone(alloc),
    }
}

// The nodes to which the field leads from some of the nodes.
fn behind_field(
    alloc: Global,
    nodes: &[Node],
    numbers: &[usize],
    name: &Text,
) -> Result<Vec<usize>, AllocError>
    requires { IsTable nodes.now }
    ensures { IfOk result (λ below. AreBelow (Field name.now) nodes.now numbers.now below.items) }
{
    let mut below = Vec::new(alloc);
    for number in numbers {
        if let Some(trie) = TrieRef::new(nodes, *number).field(name) {
            below.push(trie.number())?;
        }
    }
    Ok(below)
}

// The nodes to which any tag leads from some of the nodes.
fn behind_tags(alloc: Global, nodes: &[Node], numbers: &[usize]) -> Result<Vec<usize>, AllocError>
    requires { IsTable nodes.now }
    ensures { IfOk result (λ below. AreBelow AnyTag nodes.now numbers.now below.items) }
{
    let mut below = Vec::new(alloc);
    for number in numbers {
        if let Some(trie) = TrieRef::new(nodes, *number).tags() {
            below.push(trie.number())?;
        }
    }
    Ok(below)
}
