//! The edges of the entries of lists.

ghost use Rattle.std.specs.Prelude.{◌≡◌, IfOk, option_map};
ghost use Rattle.std.specs.List.{list_any};
ghost use Rattle.serde_json.specs.View.{view, items_view};
ghost use Rattle.serde_json.specs.Find.{as_str};
ghost use Rattle.std.specs.Option.{option_and_then};
ghost use Rattle.json_values.specs.Names.{uid_of};
ghost use Rattle.access_tries.specs.Edges.{edge_eq};
ghost use Rattle.access_tries.specs.declared.edge.EntityRoot.TheVariants.{Literal, Var as Variable};
ghost use Rattle.json_tries.specs.Reading.{variable_of, root_form, root_of, edge_of, edge_of_item, edges_of_items, are_distinct, if_distinct, distinct_edges};

use access_tries::{Edge, EntityRoot, compare};
use json_values::{lone_member, pair, read_uid};
use policy_expressions::Var;
use policy_values::Text;
use serde_json::Value;
use std::alloc::{AllocError, Global};
use std::cmp::Ordering;

// What the entries of a list are under: names of fields, or roots.
#[derive(Clone, Copy, Debug)]
pub(crate) enum Listing {
    Fields,
    Roots,
}

fn variable_named(text: &str) -> Option<Var>
    ensures { result ≡ variable_of text.now }
{
    match text {
        "principal" => Some(Var::Principal),
        "action" => Some(Var::Action),
        "resource" => Some(Var::Resource),
        "context" => Some(Var::Context),
        _ => None,
    }
}

fn read_variable(value: &Value) -> Option<EntityRoot>
    ensures { result ≡ option_map Variable (option_and_then variable_of (as_str (view value.now))) }
{
    match value.as_str().and_then(variable_named) {
        Some(var) => Some(EntityRoot::Var(var)),
        None => None,
    }
}

fn read_literal(alloc: Global, value: &Value) -> Result<Option<EntityRoot>, AllocError>
    ensures { IfOk result (λ o. o ≡ option_map Literal (uid_of (view value.now))) }
{
    match read_uid(alloc, value)? {
        Some(uid) => Ok(Some(EntityRoot::Literal(uid))),
        None => Ok(None),
    }
}

fn read_root_form(alloc: Global, key: &str, value: &Value) -> Result<Option<EntityRoot>, AllocError>
    ensures { IfOk result (λ o. o ≡ root_form key.now (view value.now)) }
{
    match key {
        "literal" => read_literal(alloc, value),
        "var" => Ok(read_variable(value)),
        _ => Ok(None),
    }
}

fn read_root(alloc: Global, value: &Value) -> Result<Option<EntityRoot>, AllocError>
    ensures { IfOk result (λ o. o ≡ root_of (view value.now)) }
{
    match lone_member(value) {
        Some((key, inner)) => read_root_form(alloc, key.as_str(), inner),
        None => Ok(None),
    }
}

fn read_edge(alloc: Global, listing: Listing, value: &Value) -> Result<Option<Edge>, AllocError>
    ensures { IfOk result (λ o. o ≡ edge_of listing (view value.now)) }
{
    match listing {
        Listing::Fields => match value.as_str() {
            Some(name) => Ok(Some(Edge::Field(Text::from_str(alloc, name)?))),
            None => Ok(None),
        },
        Listing::Roots => match read_root(alloc, value)? {
            Some(root) => Ok(Some(Edge::Root(root))),
            None => Ok(None),
        },
    }
}

fn read_item_edge(alloc: Global, listing: Listing, item: &Value) -> Result<Option<Edge>, AllocError>
    ensures { IfOk result (λ o. o ≡ edge_of_item listing (view item.now)) }
{
    let Some(items) = item.as_array() else {
        return Ok(None);
    };
    match pair(items) {
        Some((key, _)) => read_edge(alloc, listing, key),
        None => Ok(None),
    }
}

fn read_edges(
    alloc: Global,
    listing: Listing,
    items: &[Value],
) -> Result<Option<Vec<Edge>>, AllocError>
    ensures { IfOk result (λ o. option_map (λ v. v.items) o ≡ edges_of_items listing (items_view items.now)) }
{
    let mut all = Vec::new(alloc);
    for item in items {
        let Some(edge) = read_item_edge(alloc, listing, item)? else {
            return Ok(None);
        };
        all.push(edge)?;
    }
    Ok(Some(all))
}

fn is_among(edges: &[Edge], edge: &Edge) -> bool
    ensures { result ≡ list_any (λ f. edge_eq f edge.now) edges.now }
{
    for other in edges {
        if compare(other, edge) == Ordering::Equal {
            return true;
        }
    }
    false
}

fn are_distinct(edges: &[Edge]) -> bool
    ensures { result ≡ are_distinct edges.now }
{
    for (i, edge) in edges.iter().enumerate() {
        if is_among(&edges[i + 1..], edge) {
            return false;
        }
    }
    true
}

/// The edges of the entries of a list, where each has one and none stands twice.
pub(crate) fn read_distinct_edges(
    alloc: Global,
    listing: Listing,
    items: &[Value],
) -> Result<Option<Vec<Edge>>, AllocError>
    ensures { IfOk result (λ o. option_map (λ v. v.items) o ≡ distinct_edges listing (items_view items.now)) }
{
    match read_edges(alloc, listing, items)? {
        Some(edges) => Ok(if_distinct(edges)),
        None => Ok(None),
    }
}

fn if_distinct(edges: Vec<Edge>) -> Option<Vec<Edge>>
    ensures { option_map (λ v. v.items) result ≡ if_distinct edges.items }
{
    if are_distinct(edges.as_slice()) {
        Some(edges)
    } else {
        None
    }
}
