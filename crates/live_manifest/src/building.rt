//! The manifest of tries.

ghost use Rattle.std.specs.Prelude.{◌≡◌, length, IfOk};
ghost use Rattle.schema_core.specs.EnvData.{unlinked_envs};
ghost use Rattle.live_manifest.specs.Tries.{IsBuiltOf};

use access_tries::RootAccessTrie;
use manifest_computation::add_trie_of;
use manifest_core::EntityManifest;
use schema_core::ValidatorSchema;
use std::alloc::{AllocError, Global};
use std::collections::BTreeMap;

/// The manifest of the tries, one for each environment of the schema, in their order.
pub(crate) fn manifest_of(
    alloc: Global,
    schema: &ValidatorSchema,
    tries: Vec<RootAccessTrie>,
) -> Result<EntityManifest, AllocError>
    ensures { length tries.items ≡ length (unlinked_envs schema.now) →
        IfOk result (IsBuiltOf schema.now tries.items) }
{
    let _actions = schema.action_ids();
    let envs = schema.unlinked_request_envs(alloc)?;
    let mut per_action = BTreeMap::new(alloc);
    let mut left = tries.into_iter();
    for env in &envs {
        let Some(trie) = left.next() else {
            return Ok(EntityManifest::new(per_action));
        };
        let _nodes = trie.nodes();
        add_trie_of(env, trie, &mut per_action)?;
    }
    Ok(EntityManifest::new(per_action))
}
