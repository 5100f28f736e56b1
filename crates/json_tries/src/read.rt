//! Tries, read from JSON.

ghost use Rattle.std.specs.Prelude.{◌≡◌, map, option_map, IfOk, codes};
ghost use Rattle.std.specs.Str.{bytes_eq};
ghost use Rattle.serde_json.specs.View.{view, items_view, members_view};
ghost use Rattle.json_tries.specs.Places.{places_of, places_in};
ghost use Rattle.json_tries.specs.Reading.{are_names, branch_of, node_of, trie_of, trie_of_members, listed_in, distinct_edges, entries_form, seconds_of, second_of, second_in, tags_of, tags_in};
ghost use Rattle.json_tries.specs.Parts.{place_lists};

use crate::keys::{Listing, read_distinct_edges};
use crate::places::{Place, led_to, node, tags_led_to};
use json_values::with_item;
use serde_json::{Map, Value};
use std::alloc::{AllocError, Global};

#[cycle(trie)]
fn read_node(alloc: Global, value: &Value) -> Result<Option<Vec<Place>>, AllocError>
    ensures { IfOk result
        (λ o. option_map (λ v. v.items) o ≡ option_map places_of (branch_of (view value.now))) }
{
    match value {
        Value::Object(members) => read_members(alloc, members),
        _ => Ok(None),
    }
}

fn are_names(ancestors: &str, children: &str, mark: &str) -> bool
    ensures { result ≡ are_names ancestors.now children.now mark.now }
{
    ancestors == "ancestorsTrie" && (children == "children" && mark == "isAncestor")
}

fn is_tags(name: &str) -> bool
    ensures { result ≡ bytes_eq name.now (codes "tags") }
{
    name == "tags"
}

#[cycle(trie)]
fn read_members(
    alloc: Global,
    members: &Map<String, Value>,
) -> Result<Option<Vec<Place>>, AllocError>
    ensures { IfOk result (λ o. option_map (λ v. v.items) o ≡
        option_map places_of (node_of (members_view members.now.entries))) }
{
    let mut rest = members.iter();
    let Some((first, ancestors)) = rest.next() else {
        return Ok(None);
    };
    let Some((second, children)) = rest.next() else {
        return Ok(None);
    };
    let Some((third, mark)) = rest.next() else {
        return Ok(None);
    };
    if !are_names(first.as_str(), second.as_str(), third.as_str()) {
        return Ok(None);
    }
    let Some((fourth, tags)) = rest.next() else {
        let fields = read_listed(alloc, children, Listing::Fields)?;
        let roots = read_trie(alloc, ancestors)?;
        return node(alloc, mark.as_bool(), fields, Some(Vec::new(alloc)), roots);
    };
    let None = rest.next() else {
        return Ok(None);
    };
    if !is_tags(fourth.as_str()) {
        return Ok(None);
    }
    let fields = read_listed(alloc, children, Listing::Fields)?;
    let tags = read_tags(alloc, tags)?;
    let roots = read_trie(alloc, ancestors)?;
    node(alloc, mark.as_bool(), fields, tags, roots)
}

/// The nodes of the trie that a JSON value says, where it says one: each before those below it, in the order
/// of the document; of one node first fields, then tags, then roots.
#[cycle(trie)]
pub fn read_trie(alloc: Global, value: &Value) -> Result<Option<Vec<Place>>, AllocError>
    ensures { IfOk result
        (λ o. option_map (λ v. v.items) o ≡ option_map places_in (trie_of (view value.now))) }
{
    match value {
        Value::Object(members) => read_trie_members(alloc, members),
        _ => Ok(None),
    }
}

#[cycle(trie)]
fn read_trie_members(
    alloc: Global,
    members: &Map<String, Value>,
) -> Result<Option<Vec<Place>>, AllocError>
    ensures { IfOk result (λ o. option_map (λ v. v.items) o ≡
        option_map places_in (trie_of_members (members_view members.now.entries))) }
{
    let mut rest = members.iter();
    let Some((key, value)) = rest.next() else {
        return Ok(None);
    };
    if rest.next().is_some() {
        return Ok(None);
    }
    if key.as_str() != "trie" {
        return Ok(None);
    }
    read_listed(alloc, value, Listing::Roots)
}

#[cycle(trie)]
fn read_listed(
    alloc: Global,
    value: &Value,
    listing: Listing,
) -> Result<Option<Vec<Place>>, AllocError>
    ensures { IfOk result
        (λ o. option_map (λ v. v.items) o ≡ option_map places_in (listed_in listing (view value.now))) }
{
    match value {
        Value::Array(items) => read_entries(alloc, items.as_slice(), listing),
        _ => Ok(None),
    }
}

#[cycle(trie)]
#[tactic(auto, using(crate::proofs::Forms::entries_places))]
fn read_entries(
    alloc: Global,
    items: &[Value],
    listing: Listing,
) -> Result<Option<Vec<Place>>, AllocError>
    ensures { IfOk result (λ o. option_map (λ v. v.items) o ≡ option_map places_in (entries_form
        (distinct_edges listing (items_view items.now)) (seconds_of (items_view items.now)))) }
{
    let Some(edges) = read_distinct_edges(alloc, listing, items)? else {
        return Ok(None);
    };
    let nodes = read_seconds(alloc, items)?;
    led_to(alloc, edges.as_slice(), nodes)
}

#[cycle(trie)]
fn read_seconds(alloc: Global, items: &[Value]) -> Result<Option<Vec<Vec<Place>>>, AllocError>
    ensures { IfOk result (λ o. option_map place_lists o ≡
        option_map (map places_of) (seconds_of (items_view items.now))) }
{
    let mut all = Vec::new(alloc);
    for item in items {
        let Ok(next) = read_second(alloc, item) else {
            drop(all);
            return Err(AllocError);
        };
        let Some(next) = next else {
            drop(all);
            return Ok(None);
        };
        all = with_item(all, next)?;
    }
    Ok(Some(all))
}

#[cycle(trie)]
fn read_second(alloc: Global, item: &Value) -> Result<Option<Vec<Place>>, AllocError>
    ensures { IfOk result
        (λ o. option_map (λ v. v.items) o ≡ option_map places_of (second_of (view item.now))) }
{
    match item {
        Value::Array(items) => read_second_in(alloc, items),
        _ => Ok(None),
    }
}

#[cycle(trie)]
fn read_second_in(alloc: Global, items: &Vec<Value>) -> Result<Option<Vec<Place>>, AllocError>
    ensures { IfOk result (λ o. option_map (λ v. v.items) o ≡
        option_map places_of (second_in (items_view items.now.items))) }
{
    let mut rest = items.iter();
    let Some(_key) = rest.next() else {
        return Ok(None);
    };
    let Some(node) = rest.next() else {
        return Ok(None);
    };
    let None = rest.next() else {
        return Ok(None);
    };
    read_node(alloc, node)
}

#[cycle(trie)]
fn read_tags(alloc: Global, value: &Value) -> Result<Option<Vec<Place>>, AllocError>
    ensures { IfOk result
        (λ o. option_map (λ v. v.items) o ≡ option_map places_in (tags_of (view value.now))) }
{
    match value {
        Value::Array(items) => read_tags_in(alloc, items),
        _ => Ok(None),
    }
}

#[cycle(trie)]
#[tactic(auto, using(crate::proofs::Forms::tags_places))]
fn read_tags_in(alloc: Global, items: &Vec<Value>) -> Result<Option<Vec<Place>>, AllocError>
    ensures { IfOk result (λ o. option_map (λ v. v.items) o ≡
        option_map places_in (tags_in (items_view items.now.items))) }
{
    let mut rest = items.iter();
    let Some(tag) = rest.next() else {
        return Ok(Some(Vec::new(alloc)));
    };
    if rest.next().is_some() {
        return Ok(None);
    }
    let below = read_node(alloc, tag)?;
    tags_led_to(alloc, below)
}
