//! The ancestors that are asked for.

ghost use Rattle.std.specs.Prelude.{◌≡◌, IfOk, filter};
ghost use Rattle.access_tries.specs.Table.{IsTable};
ghost use Rattle.entity_store.specs.Request.{IsWhole};
ghost use Rattle.entity_loading.specs.Kept.{names, some_names, AreNamed};

use crate::{Place, named_ids};
use access_tries::{Node, TrieRef};
use entity_store::{Entity, Request};
use policy_values::EntityUID;
use std::alloc::{AllocError, Global};
use std::collections::{BTreeMap, BTreeSet};

/// Ids, by the numbers of nodes.
pub(crate) type Named = BTreeMap<usize, BTreeSet<EntityUID>>;

/// For each node of a place the ids that its ancestors' tries name, where they are followed in what is kept.
pub(crate) fn named_at_places(
    alloc: Global,
    request: &Request,
    nodes: &[Node],
    places: &BTreeSet<Place>,
    kept: &BTreeMap<EntityUID, Entity>,
) -> Result<Named, AllocError>
    requires whole { IsWhole request.now }
    requires table { IsTable nodes.now }
    ensures { IfOk result (λ named. AreNamed nodes.now request.now places.now.keys kept.now named) }
{
    let mut named = BTreeMap::new(alloc);
    for place in places.iter() {
        if !named.contains_key(&place.number) {
            let ids = named_ids(alloc, request, kept, &TrieRef::new(nodes, place.number))?;
            named.insert(place.number, ids)?;
        }
    }
    Ok(named)
}

/// Those ancestors of an entity that some of the nodes names.
pub(crate) fn ancestors_among(
    alloc: Global,
    entity: &Entity,
    numbers: &[usize],
    named: &Named,
) -> Result<BTreeSet<EntityUID>, AllocError>
    ensures { IfOk result (λ ids. ids.keys ≡
        filter (some_names named.now numbers.now) entity.now.ancestors) }
{
    let mut ids = BTreeSet::new(alloc);
    for uid in entity.ancestors().iter() {
        if some_names(named, numbers, uid) {
            ids.insert(uid.try_clone()?)?;
        }
    }
    Ok(ids)
}

// Whether some of the nodes names the id.
fn some_names(named: &Named, numbers: &[usize], uid: &EntityUID) -> bool
    ensures { result ≡ some_names named.now numbers.now uid.now }
{
    for number in numbers {
        if names(named, *number, uid) {
            return true;
        }
    }
    false
}

fn names(named: &Named, number: usize, uid: &EntityUID) -> bool
    ensures { result ≡ names named.now number uid.now }
{
    match named.get(&number) {
        Some(ids) => ids.contains(uid),
        None => false,
    }
}
