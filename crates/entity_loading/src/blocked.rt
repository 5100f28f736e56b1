//! Values from which paths cannot go on.

ghost use Rattle.std.specs.Prelude.{IfOk};
ghost use Rattle.std.specs.Option.{option_copied};
ghost use Rattle.access_tries.specs.Table.{IsTable};
ghost use Rattle.entity_store.specs.Request.{IsWhole};
ghost use Rattle.entity_store.specs.Store.{entity_at};
ghost use Rattle.entity_loading.specs.Answered.{AnswerBlocks, SomeAnswerBlocks};
ghost use Rattle.entity_loading.specs.Places.{node_of};
ghost use Rattle.entity_loading.specs.CannotGoOn.{tests_of, CannotStep};
ghost use Rattle.entity_loading.specs.Blocked.{IsBlocked};

use crate::reach::reached_places;
use crate::{Place, blocked_in_context, blocked_in_entity};
use access_tries::{Node, RootAccessTrie, TrieRef};
use entity_store::{Entities, Request};
use policy_values::Value;
use std::alloc::{AllocError, Global};
use std::collections::BTreeSet;

/// A value to which a path of the trie leads and below which it goes on, though the value is neither id nor
/// record, or of which ancestors are asked for, though it is no id. None exactly where there is no such
/// value. Errs where memory runs out.
pub fn blocked_value(
    alloc: Global,
    trie: &RootAccessTrie,
    request: &Request,
    entities: &Entities,
) -> Result<Option<Value>, AllocError>
    requires { IsWhole request.now }
    ensures { IfOk result (CannotStep (IsBlocked trie.now request.now entities.now)) }
{
    if let Some(value) = blocked_in_context(alloc, request, trie)? {
        return Ok(Some(value));
    }
    let places = reached_places(alloc, request, trie, entities)?;
    blocked_at_some(alloc, trie.nodes(), &places, entities)
}

// In an entity of some place.
fn blocked_at_some(
    alloc: Global,
    nodes: &[Node],
    places: &BTreeSet<Place>,
    entities: &Entities,
) -> Result<Option<Value>, AllocError>
    requires { IsTable nodes.now }
    ensures { IfOk result
        (CannotStep (SomeAnswerBlocks nodes.now (entity_at entities.now) places.now.keys)) }
{
    for place in places.iter() {
        if let Some(value) = blocked_at(nodes, place, entities) {
            return Ok(Some(value.try_clone(alloc)?));
        }
    }
    Ok(None)
}

// In the entity of a place, where the store has it.
fn blocked_at<'a>(nodes: &[Node], place: &Place, entities: &'a Entities) -> Option<&'a Value>
    requires { IsTable nodes.now }
    ensures { CannotStep (AnswerBlocks (entity_at entities.now place.now.uid)
        (tests_of (node_of nodes.now place.now))) (option_copied result) }
{
    match entities.entity(&place.uid) {
        Some(entity) => blocked_in_entity(entity, &TrieRef::new(nodes, place.number)),
        None => None,
    }
}
