//! The tries of the environments of a schema.

ghost use Rattle.std.specs.Prelude.{◌≡◌, ◌++◌, ◌∷◌, [], IfOk, OnOk, IfSome, IsSome, Some, None};
ghost use Rattle.std.specs.BTreeMap.{keys};
ghost use Rattle.std.specs.List.{AllByRecursion};
ghost use Rattle.entity_store.specs.declared.request.RequestType.{RequestType};
ghost use Rattle.schema_core.specs.EnvData.{request_type_in, unlinked_envs};
ghost use Rattle.schema_core.specs.RequestEnvs.{env_data_of};
ghost use Rattle.manifest_core.specs.Manifest.{IsNextType};
ghost use Rattle.manifest_computation.specs.Found.{AreEntries};
ghost use Rattle.policy_validate.specs.AcceptanceLaws.{LeavesAll};

use crate::gathering::trie_of_policies;
use access_tries::RootAccessTrie;
use entity_store::RequestType;
use policy_set::PolicySet;
use schema_core::{RequestEnv, ValidatorSchema};
use std::alloc::{AllocError, Global};
use std::collections::BTreeMap;
use typecheck_walk::Extensions;

/// A trie for each environment of the schema, under its request type; nothing where the check of some
/// condition fails.
pub(crate) fn tries_of(
    alloc: Global,
    schema: &ValidatorSchema,
    extensions: &Extensions<'_, '_>,
    policies: &PolicySet,
) -> Result<Option<BTreeMap<RequestType, RootAccessTrie>>, AllocError>
    ensures entries { IfOk result
        (λ o. IfSome o (λ m.
        AreEntries schema.now policies.now.policies (unlinked_envs schema.now) m.entries)) }
    ensures missing { IfOk result (λ o. o ≡ None →
        ¬ AllByRecursion (LeavesAll schema.now policies.now.policies) (unlinked_envs schema.now)) }
{
    let _actions = schema.action_ids();
    let envs = schema.unlinked_request_envs(alloc)?;
    let mut tries = BTreeMap::new(alloc);
    for env in &envs {
        // Lent again (`&*`), so that the references inside live no longer than `envs`.
        match trie_of_policies(alloc, schema, &*extensions, env, policies)? {
            Some(trie) => {
                let _nodes = trie.nodes();
                add_trie_of(env, trie, &mut tries)?;
            }
            None => return Ok(None),
        }
    }
    Ok(Some(tries))
}

/// Adds the trie of an environment, whose request type is the greatest yet.
pub fn add_trie_of(
    env: &RequestEnv<'_>,
    trie: RootAccessTrie,
    tries: &mut BTreeMap<RequestType, RootAccessTrie>,
) -> Result<(), AllocError>
    requires declared { IsSome (request_type_in (env_data_of env.now)) }
    requires next { IfSome (request_type_in (env_data_of env.now)) (λ q. IsNextType q (keys tries.old)) }
    ensures { OnOk result ((q : RequestType) ×
        ((tries.new.entries ≡ tries.old.entries ++ (q, trie) ∷ []) ×
        (request_type_in (env_data_of env.now) ≡ Some q))) }
{
    match env.to_request_type()? {
        Some(request_type) => push_trie(tries, request_type, trie),
        None => Ok(()),
    }
}

// Adds a trie behind the others.
fn push_trie(
    tries: &mut BTreeMap<RequestType, RootAccessTrie>,
    request_type: RequestType,
    trie: RootAccessTrie,
) -> Result<(), AllocError>
    requires { IsNextType request_type (keys tries.old) }
    ensures { OnOk result (tries.new.entries ≡ tries.old.entries ++ (request_type, trie) ∷ []) }
{
    tries.insert(request_type, trie)?;
    Ok(())
}
