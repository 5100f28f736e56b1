//! The store restricted to the paths of a trie.

ghost use Rattle.std.specs.Prelude.{◌≡◌, List, IfOk};
ghost use Rattle.reads_spec.specs.Paths.{AccessPath, Demand};
ghost use Rattle.reads_spec.specs.Restrict.{restrict};
ghost use Rattle.entity_store.specs.Request.{IsWhole};
ghost use Rattle.entity_loading.specs.Tries.{IsTrieOf};

use crate::kept_ancestors::named_at_places;
use crate::numbers::numbers_of;
use crate::parts::{parts_of, slice_of};
use crate::reach::reached_places;
use access_tries::RootAccessTrie;
use entity_store::{Entities, Request};
use std::alloc::{AllocError, Global};

/// The store restricted to the paths of a trie: each entity that a path reaches, with the attributes, tags
/// and fields along which paths go on there, and those of its ancestors that are asked for. Errs where memory
/// runs out.
pub fn restricted_store(
    alloc: Global,
    trie: &RootAccessTrie,
    request: &Request,
    entities: &Entities,
) -> Result<Entities, AllocError>
    requires { IsWhole request.now }
    ensures restricted { (reads : List AccessPath) (demands : List Demand) →
        IsTrieOf reads demands trie.now →
        IfOk result (λ s. s ≡ restrict reads demands request.now entities.now) }
{
    let nodes = trie.nodes();
    let places = reached_places(alloc, request, trie, entities)?;
    let numbers = numbers_of(alloc, &places)?;
    let kept = parts_of(alloc, nodes, &numbers, entities)?;
    let named = named_at_places(alloc, request, nodes, &places, &kept)?;
    drop(kept);
    slice_of(alloc, nodes, &numbers, &named, entities)
}
