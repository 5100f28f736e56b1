//! The nodes of a trie by their addresses, in the order of a document.

ghost use Rattle.std.specs.Prelude.{◌≡◌, [], ◌∷◌, ◌++◌, map, filter, option_map, IfOk, OnOk};
ghost use Rattle.access_tries.specs.Walks.{addresses_in};
ghost use Rattle.access_tries.specs.declared.edge.Edge.TheVariants.{AnyTag};
ghost use Rattle.json_tries.specs.Places.{behind, IsOfPlaces};
ghost use Rattle.json_tries.specs.Parts.{node_places, led_places, place_lists};

use access_tries::{Edge, RootAccessTrie, all_of};
use std::alloc::{AllocError, Global};
use std::marker::Model;

/// A node of a trie: where it stands, and whether it is marked.
#[derive(Debug, Drop)]
pub struct Place {
    edges: Vec<Edge>,
    mark: bool,
}

impl Model for Place {
    ghost use Rattle.json_tries.specs.Places.{Place as PlaceData, coded_place};

    ghost Value = { PlaceData };

    ghost coded = { coded_place };

    ghost view = { λ p. (p.edges.items, p.mark) };
}

impl Place {
    /// The edges that lead there.
    pub fn edges(&self) -> &[Edge]
        ensures { result.now ≡ self.now.0 }
    {
        self.edges.as_slice()
    }

    /// Whether it is marked.
    pub fn is_marked(&self) -> bool
        ensures { result ≡ self.now.1 }
    {
        self.mark
    }
}

// The place of a node that nothing leads to.
fn start(alloc: Global, mark: bool) -> Place
    ensures { result ≡ ([], mark) }
{
    Place {
        edges: Vec::new(alloc),
        mark,
    }
}

// The same place, seen from one edge before.
fn place_behind(alloc: Global, edge: &Edge, place: &Place) -> Result<Place, AllocError>
    ensures { IfOk result (λ p. p ≡ behind edge.now place.now) }
{
    let edges = edges_behind(alloc, edge, place.edges())?;
    Ok(Place {
        edges,
        mark: place.is_marked(),
    })
}

fn edges_behind(alloc: Global, edge: &Edge, edges: &[Edge]) -> Result<Vec<Edge>, AllocError>
    ensures { IfOk result (λ v. v.items ≡ edge.now ∷ edges.now) }
{
    let mut all = Vec::new(alloc);
    all.push(edge.try_clone()?)?;
    for next in edges {
        all.push(next.try_clone()?)?;
    }
    Ok(all)
}

// Adds places, seen from one edge before.
fn add_behind(
    alloc: Global,
    all: &mut Vec<Place>,
    edge: &Edge,
    places: &[Place],
) -> Result<(), AllocError>
    ensures { OnOk result (all.new.items ≡ all.old.items ++ map (behind edge.now) places.now) }
{
    for place in places {
        all.push(place_behind(alloc, edge, place)?)?;
    }
    Ok(())
}

// The places behind each edge, one edge after the other.
pub(crate) fn led_to(
    alloc: Global,
    edges: &[Edge],
    lists: Option<Vec<Vec<Place>>>,
) -> Result<Option<Vec<Place>>, AllocError>
    ensures { IfOk result (λ o. option_map (λ v. v.items) o ≡
        option_map (led_places edges.now) (option_map place_lists lists)) }
{
    let Some(lists) = lists else {
        return Ok(None);
    };
    let all = all_led_to(alloc, edges, lists.as_slice())?;
    Ok(Some(all))
}

fn all_led_to(alloc: Global, edges: &[Edge], lists: &[Vec<Place>]) -> Result<Vec<Place>, AllocError>
    ensures { IfOk result (λ v. v.items ≡ led_places edges.now (map (λ w. w.items) lists.now)) }
{
    let mut all = Vec::new(alloc);
    for i in 0..edges.len().min(lists.len()) {
        add_behind(alloc, &mut all, &edges[i], lists[i].as_slice())?;
    }
    Ok(all)
}

// A node of these parts.
pub(crate) fn node(
    alloc: Global,
    mark: Option<bool>,
    fields: Option<Vec<Place>>,
    tags: Option<Vec<Place>>,
    roots: Option<Vec<Place>>,
) -> Result<Option<Vec<Place>>, AllocError>
    ensures { IfOk result
        (λ o. option_map (λ v. v.items) o ≡ node_places mark (option_map (λ v. v.items) fields)
        (option_map (λ v. v.items) tags) (option_map (λ v. v.items) roots)) }
{
    let (Some(mark), Some(mut fields), Some(mut tags), Some(mut roots)) = (
        mark, fields, tags, roots,
    ) else {
        return Ok(None);
    };
    let mut all = Vec::new(alloc);
    all.push(start(alloc, mark))?;
    all.append(&mut fields)?;
    all.append(&mut tags)?;
    all.append(&mut roots)?;
    Ok(Some(all))
}

// The places behind any tag.
pub(crate) fn tags_led_to(
    alloc: Global,
    places: Option<Vec<Place>>,
) -> Result<Option<Vec<Place>>, AllocError>
    ensures { IfOk result (λ o. option_map (λ v. v.items) o ≡
        option_map (λ ps. map (behind AnyTag) ps) (option_map (λ v. v.items) places)) }
{
    let Some(places) = places else {
        return Ok(None);
    };
    let mut all = Vec::new(alloc);
    add_behind(alloc, &mut all, &Edge::AnyTag, places.as_slice())?;
    Ok(Some(all))
}

/// The trie of these places.
pub fn trie_of_places(alloc: Global, places: &[Place]) -> Result<RootAccessTrie, AllocError>
    ensures { IfOk result (IsOfPlaces places.now) }
{
    let addresses = addresses_of(alloc, places)?;
    let read = all_of(alloc, addresses.as_slice(), false)?;
    let addresses = marked_addresses(alloc, places)?;
    let marked = all_of(alloc, addresses.as_slice(), true)?;
    read.union(alloc, &marked)
}

fn copied(alloc: Global, edges: &[Edge]) -> Result<Vec<Edge>, AllocError>
    ensures { IfOk result (λ v. v.items ≡ edges.now) }
{
    let mut all = Vec::new(alloc);
    for edge in edges {
        all.push(edge.try_clone()?)?;
    }
    Ok(all)
}

fn addresses_of(alloc: Global, places: &[Place]) -> Result<Vec<Vec<Edge>>, AllocError>
    ensures { IfOk result (λ v. addresses_in v.items ≡ map (λ p. p.0) places.now) }
{
    let mut all = Vec::new(alloc);
    for place in places {
        all.push(copied(alloc, place.edges())?)?;
    }
    Ok(all)
}

// Those of places that are marked.
fn marked_addresses(alloc: Global, places: &[Place]) -> Result<Vec<Vec<Edge>>, AllocError>
    ensures { IfOk result (λ v. addresses_in v.items ≡ map (λ p. p.0) (filter (λ p. p.1) places.now)) }
{
    let mut all = Vec::new(alloc);
    for place in places {
        add_marked(alloc, &mut all, place)?;
    }
    Ok(all)
}

fn add_marked(alloc: Global, all: &mut Vec<Vec<Edge>>, place: &Place) -> Result<(), AllocError>
    ensures { OnOk result (addresses_in all.new.items ≡
        addresses_in all.old.items ++ map (λ p. p.0) (filter (λ p. p.1) (place.now ∷ []))) }
{
    if place.is_marked() {
        all.push(copied(alloc, place.edges())?)?;
    }
    Ok(())
}
