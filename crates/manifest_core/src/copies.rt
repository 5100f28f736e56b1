//! Copies of manifests.

ghost use Rattle.std.specs.Prelude.{◌≡◌, IfOk};

use crate::declared::push_trie;
use access_tries::RootAccessTrie;
use entity_store::RequestType;
use std::alloc::{AllocError, Global};
use std::collections::BTreeMap;

/// The same tries.
pub(crate) fn copied_tries(
    alloc: Global,
    per_action: &BTreeMap<RequestType, RootAccessTrie>,
) -> Result<BTreeMap<RequestType, RootAccessTrie>, AllocError>
    ensures { IfOk result (λ m. m.entries ≡ per_action.now.entries) }
{
    let mut tries = BTreeMap::new(alloc);
    for (request_type, trie) in per_action.iter() {
        let request_type = request_type.try_clone()?;
        let trie = trie.try_clone(alloc)?;
        push_trie(&mut tries, request_type, trie)?;
    }
    Ok(tries)
}
