//! The entities that paths reach.

ghost use Rattle.std.specs.Prelude.{◌≡◌, ◌⊎◌, ◌∷◌, ◌++◌, [], IfOk, OnOk};
ghost use Rattle.access_tries.specs.Table.{IsTable};
ghost use Rattle.reads_spec.specs.Among.{IsIn};
ghost use Rattle.entity_store.specs.Request.{IsWhole};
ghost use Rattle.entity_store.specs.Store.{entity_at};
ghost use Rattle.entity_store.specs.declared.request.Request.{Request};
ghost use Rattle.entity_loading.specs.declared.place.Place.{Place};
ghost use Rattle.entity_loading.specs.Answered.{answer_points};
ghost use Rattle.entity_loading.specs.Places.{IsPlaceBelow, IsBelowSome, node_of};
ghost use Rattle.entity_loading.specs.Needs.{Adds};
ghost use Rattle.entity_loading.specs.Reached.{IsExplored, IsAnswerLed, AreReachedAsked, AreThere};

use crate::{Place, ask, follow_entity, root_places};
use access_tries::{Node, RootAccessTrie, TrieRef};
use entity_store::{Entities, Request};
use std::alloc::{AllocError, Global};
use std::collections::BTreeSet;

/// The places to which the paths of the trie lead in the store: each entity that is reached, with each node
/// at which it is.
pub(crate) fn reached_places(
    alloc: Global,
    request: &Request,
    trie: &RootAccessTrie,
    entities: &Entities,
) -> Result<BTreeSet<Place>, AllocError>
    requires { IsWhole request.now }
    ensures reached { IfOk result (λ places. AreReachedAsked trie.now request.now entities.now places.keys) }
    ensures there { IfOk result (λ places. AreThere trie.now places.keys) }
{
    let nodes = trie.nodes();
    let mut reached = BTreeSet::new(alloc);
    let mut pending = root_places(alloc, request, trie)?;
    // Each round leads to later nodes.
    while !pending.is_empty() {
        pending = follow_round(alloc, nodes, entities, &pending, &mut reached)?;
    }
    Ok(reached)
}

// Follows the places that were not reached before, and adds them to those that were. Answers the places to
// which they lead.
fn follow_round(
    alloc: Global,
    nodes: &[Node],
    entities: &Entities,
    pending: &BTreeSet<Place>,
    reached: &mut BTreeSet<Place>,
) -> Result<BTreeSet<Place>, AllocError>
    requires { IsTable nodes.now }
    ensures explored { IfOk result (λ next. (q : Request) →
        IsExplored nodes.now q entities.now reached.old.keys pending.now.keys →
        IsExplored nodes.now q entities.now reached.new.keys next.keys) }
    ensures below { IfOk result (λ next. (p : Place) → IsIn p next.keys →
        IsBelowSome nodes.now pending.now.keys p) }
    ensures only { IfOk result (λ _. (p : Place) → IsIn p reached.new.keys →
        IsIn p reached.old.keys ⊎ IsIn p pending.now.keys) }
{
    let mut next = BTreeSet::new(alloc);
    for place in pending.iter() {
        if !reached.contains(place) {
            follow_place(nodes, entities, place, &mut next)?;
            ask(reached, &place.uid, place.number)?;
        }
    }
    Ok(next)
}

// Adds the places to which the entity of a place leads, where the store has it.
fn follow_place(
    nodes: &[Node],
    entities: &Entities,
    place: &Place,
    next: &mut BTreeSet<Place>,
) -> Result<(), AllocError>
    requires { IsTable nodes.now }
    ensures asked { OnOk result
        (Adds nodes.now (answer_points (entity_at entities.now place.now.uid)
        (node_of nodes.now place.now)) next.old.keys next.new.keys) }
    ensures below { OnOk result ((p : Place) → IsIn p next.new.keys → IsIn p next.old.keys ⊎
        IsPlaceBelow (node_of nodes.now place.now) p) }
    ensures leads { OnOk result
        (IsAnswerLed (node_of nodes.now place.now) (entity_at entities.now place.now.uid)) }
{
    match entities.entity(&place.uid) {
        Some(entity) => follow_entity(entity, &TrieRef::new(nodes, place.number), next),
        None => Ok(()),
    }
}
