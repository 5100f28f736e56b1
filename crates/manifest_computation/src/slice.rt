//! The store restricted to what policies read on a request.

ghost use Rattle.std.specs.Prelude.{◌≡◌, IfOk, IfSome, None, Some, option_map};
ghost use Rattle.reads_spec.specs.Cover.{restricted};
ghost use Rattle.entity_store.specs.Request.{IsWhole};
ghost use Rattle.typing_spec.specs.Conforms.{RequestConforms};
ghost use Rattle.policy_validate.specs.Accepted.{IsAccepted};
ghost use Rattle.policy_validate.specs.AcceptanceLaws.{LeavesAll};
ghost use Rattle.schema_core.specs.RequestEnvs.{env_data_of};
ghost use Rattle.policy_validate.specs.Found.{found_conditions};
ghost use Rattle.policy_validate.specs.Typed.{typed_conditions};
ghost use Rattle.manifest_computation.specs.Gathered.{IsTrieLeft};
ghost use Rattle.manifest_computation.specs.Rules.{KeepRules};
ghost use Rattle.manifest_computation.specs.Slice.{env_of, slice};

use crate::gathering::trie_of_policies;
use access_tries::RootAccessTrie;
use entity_loading::restricted_store;
use entity_store::{Entities, Request};
use link_spec::laws::typed_everywhere;
use policy_set::PolicySet;
use policy_set::laws::is_policy_set;
use policy_validate::condition_laws::found_are_typed;
use policy_validate::laws::accepted_are_typed;
use schema_core::{RequestEnv, ValidatorSchema};
use std::alloc::{AllocError, Global};
use typecheck_walk::Extensions;
use typing_spec::{ExtensionSchemas, all_objects};

/// The slice of the store: the store restricted to what the policies read on the request, each by its own
/// condition with its types in the environment of the request. Every rule holds.
pub fn restricted_to_reads(
    alloc: Global,
    schema: &ValidatorSchema,
    policies: &PolicySet,
    request: &Request,
    entities: &Entities,
) -> Result<Entities, AllocError>
    requires { KeepRules schema.now policies.now request.now entities.now }
    ensures { IfOk result (λ s. s ≡ slice schema.now policies.now.policies request.now entities.now) }
{
    match environment(schema, request) {
        Some(env) => restricted_in(alloc, schema, policies, request, entities, &env),
        None => Ok(Entities::new(alloc)),
    }
}

// The environment of the request.
fn environment<'a>(schema: &'a ValidatorSchema, request: &'a Request) -> Option<RequestEnv<'a>>
    requires { IsWhole request.now }
    ensures { option_map env_data_of result ≡ env_of schema.now request.now }
{
    let principal = request.principal.as_ref().unwrap();
    let uid = request.action.as_ref().unwrap();
    let resource = request.resource.as_ref().unwrap();
    let action = schema.get_action_id(uid)?;
    Some(RequestEnv::DeclaredAction {
        principal: principal.entity_type(),
        action: action.name(),
        resource: resource.entity_type(),
        context: action.context(),
        principal_slot: None,
        resource_slot: None,
    })
}

fn restricted_in<'a>(
    alloc: Global,
    schema: &'a ValidatorSchema,
    policies: &'a PolicySet,
    request: &Request,
    entities: &Entities,
    env: &'a RequestEnv<'a>,
) -> Result<Entities, AllocError>
    requires rules { KeepRules schema.now policies.now request.now entities.now }
    requires environment { env_of schema.now request.now ≡ Some (env_data_of env.now) }
    ensures { IfOk result (λ s. s ≡
        restricted schema.now (env_data_of env.now)
        (typed_conditions schema.now
        (env_data_of env.now) policies.now.policies) request.now entities.now) }
{
    found_in_environment(schema, policies, request, env);
    match trie_of(alloc, schema, policies, env)? {
        Some(trie) => restricted_store(alloc, &trie, request, entities),
        // Checks leave each condition of accepted policies.
        None => Ok(Entities::new(alloc)),
    }
}

// The trie of what the conditions read and ask for in the environment.
fn trie_of<'a>(
    alloc: Global,
    schema: &'a ValidatorSchema,
    policies: &'a PolicySet,
    env: &'a RequestEnv<'a>,
) -> Result<Option<RootAccessTrie>, AllocError>
    ensures trie { IfOk result
        (λ o. IfSome o (IsTrieLeft schema.now (env_data_of env.now) policies.now.policies)) }
    ensures missing { IfOk result (λ o. o ≡ None →
        ¬ LeavesAll schema.now policies.now.policies (env_data_of env.now)) }
{
    let objects = all_objects(alloc)?;
    let extensions = ExtensionSchemas::all_available(alloc, &objects)?;
    let extensions = Extensions::new(&extensions);
    // Lent again (`&*`), so that the references inside live no longer than `extensions`.
    trie_of_policies(alloc, schema, &extensions, &*env, policies)
}

// Of accepted policies checks leave each condition, as typing gives it.
fn found_in_environment(
    schema: &ValidatorSchema,
    policies: &PolicySet,
    request: &Request,
    env: &RequestEnv<'_>,
)
    requires accepted { IsAccepted schema.now policies.now }
    requires conforms { RequestConforms schema.now request.now }
    requires environment { env_of schema.now request.now ≡ Some (env_data_of env.now) }
    ensures same { found_conditions schema.now (env_data_of env.now) policies.now.policies ≡
        typed_conditions schema.now (env_data_of env.now) policies.now.policies }
    ensures left { LeavesAll schema.now policies.now.policies (env_data_of env.now) }
{
    found_are_typed();
    accepted_are_typed();
    typed_everywhere();
    let _actions = schema.action_ids();
    is_policy_set(policies);
}
