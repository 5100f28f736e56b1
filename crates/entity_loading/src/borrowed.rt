//! What is asked of each entity in a round.

ghost use Rattle.std.specs.Prelude.{◌≡◌, map, IfOk, OnOk};
ghost use Rattle.std.specs.BTreeMap.{get};
ghost use Rattle.std.specs.List.Sorted.{IsStrictlySortedBy};
ghost use Rattle.access_tries.specs.Table.{IsTable};
ghost use Rattle.policy_values.specs.Uid.{uid_cmp};
ghost use Rattle.entity_loading.specs.Lending.{view_in, AreBorrowed, Borrows, IsUnited, request_of};

use crate::Place;
use access_tries::{AccessTrie, Node, TrieRef};
use entity_loader::EntityRequest;
use policy_values::EntityUID;
use std::alloc::{AllocError, Global};
use std::collections::{BTreeMap, BTreeSet};

/// What is read of an entity: what stands at a node of a table, or at several of them.
#[derive(Debug, Drop)]
pub(crate) enum Borrowed {
    /// At the node with this number.
    One(usize),
    /// At several nodes, united.
    Many(AccessTrie),
}

impl Borrowed {
    // The trie, borrowed.
    pub(crate) fn trie<'a>(&'a self, nodes: &'a [Node]) -> TrieRef<'a>
        requires { IsTable nodes.now }
        ensures { result ≡ view_in nodes.now self.now }
    {
        match self {
            Borrowed::One(number) => TrieRef::new(nodes, *number),
            Borrowed::Many(trie) => trie.as_trie_ref(),
        }
    }
}

/// For each id of the places what is read of it at any of them.
pub(crate) fn borrowed_tries(
    alloc: Global,
    nodes: &[Node],
    places: &BTreeSet<Place>,
) -> Result<BTreeMap<EntityUID, Borrowed>, AllocError>
    requires { IsTable nodes.now }
    ensures { IfOk result (AreBorrowed nodes.now places.now.keys) }
{
    let mut borrowed = BTreeMap::new(alloc);
    for place in places.iter() {
        lend(alloc, nodes, place, &mut borrowed)?;
    }
    Ok(borrowed)
}

fn lend(
    alloc: Global,
    nodes: &[Node],
    place: &Place,
    borrowed: &mut BTreeMap<EntityUID, Borrowed>,
) -> Result<(), AllocError>
    requires { IsTable nodes.now }
    ensures { OnOk result (Borrows nodes.now place.now borrowed.old borrowed.new) }
{
    let known = borrowed.remove(&place.uid);
    let with = united(alloc, nodes, known, place.number)?;
    borrowed.insert(place.uid.try_clone()?, with)?;
    Ok(())
}

// What is known of an entity with what stands at one more node.
fn united(
    alloc: Global,
    nodes: &[Node],
    known: Option<Borrowed>,
    number: usize,
) -> Result<Borrowed, AllocError>
    requires { IsTable nodes.now }
    ensures { IfOk result (IsUnited nodes.now known number) }
{
    let trie = TrieRef::new(nodes, number);
    match known {
        None => Ok(Borrowed::One(number)),
        Some(Borrowed::One(first)) => {
            let first = TrieRef::new(nodes, first);
            let mut both = AccessTrie::new(alloc);
            both.add(alloc, &first)?;
            both.add(alloc, &trie)?;
            Ok(Borrowed::Many(both))
        }
        Some(Borrowed::Many(mut all)) => {
            all.add(alloc, &trie)?;
            Ok(Borrowed::Many(all))
        }
    }
}

/// The requests of a round: one for each id, ascending.
pub(crate) fn requests_of<'a>(
    alloc: Global,
    nodes: &'a [Node],
    borrowed: &'a BTreeMap<EntityUID, Borrowed>,
) -> Result<Vec<EntityRequest<'a>>, AllocError>
    requires { IsTable nodes.now }
    ensures requests { IfOk result (λ requests. requests.items ≡
        map (request_of nodes.now) borrowed.entry.now.entries) }
    ensures ascending { IfOk result
        (λ requests. IsStrictlySortedBy uid_cmp (map (λ r. r.entity_id) requests.items)) }
{
    let mut requests = Vec::new(alloc);
    for (uid, borrowed) in borrowed.iter() {
        requests.push(EntityRequest {
            entity_id: uid.try_clone()?,
            access_trie: borrowed.trie(nodes),
        })?;
    }
    Ok(requests)
}
