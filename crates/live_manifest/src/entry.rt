//! What is found of one entry, and its own tries.

ghost use Rattle.std.specs.Prelude.{◌≡◌, ◌+◌, ◌≤◌, [], length, option_to_list, IfOk, IfErr, IfSome, OnOk};
ghost use Rattle.schema_core.specs.EnvData.{unlinked_envs};
ghost use Rattle.schema_core.specs.RequestEnvs.{env_data_of};
ghost use Rattle.policy_set.specs.PolicySet.{IsTaken, policy_at};
ghost use Rattle.policy_validate.specs.Entries.{findings_of_entry, steps_of_entry};
ghost use Rattle.policy_validate.specs.Found.{condition_reported};
ghost use Rattle.live_manifest.specs.Faults.{IsFaulty};
ghost use Rattle.live_manifest.specs.Tries.{AreFoundTries, IsFoundTrie};

use crate::LiveManifestError;
use access_tries::RootAccessTrie;
use path_analysis::conditions_trie;
use plain_lemmas::Steps;
use policy_expressions::Expr;
use policy_set::{Policy, PolicySet};
use policy_validate::{PolicyCheck, Typechecker, Validator};
use policy_values::Text;
use schema_core::{RequestEnv, ValidationMode, ValidatorSchema};
use schema_types::Type;
use std::alloc::{AllocError, Global};
use std::sync::ledger::Ledger;
use typing_spec::{ExtensionSchemas, all_objects};

/// Errs with `Validation` exactly where an error is found of the entry with the id.
pub(crate) fn check_entry<L: Ledger>(
    alloc: Global,
    schema: &ValidatorSchema,
    policies: &PolicySet,
    id: &Text,
    steps: &mut Steps<L>,
) -> Result<(), LiveManifestError>
    requires { IsTaken policies.now id.now }
    ensures found { OnOk result ((findings_of_entry schema.now policies.now id.now).errors ≡ []) }
    ensures refused { IfErr result (IsFaulty (findings_of_entry schema.now policies.now id.now)) }
    ensures steps { steps.new ≤ steps.old + steps_of_entry schema.now policies.now id.now }
{
    let found = Validator::new(schema).validate_entry(alloc, policies, id, steps)?;
    if found.validation_passed() {
        drop(found);
        Ok(())
    } else {
        Err(LiveManifestError::Validation(found))
    }
}

/// The tries of the policy with the id, one for each environment of the schema, in their order; none where
/// there is no such policy. A step is counted for each environment.
pub(crate) fn tries_of_entry<L: Ledger>(
    alloc: Global,
    schema: &ValidatorSchema,
    policies: &PolicySet,
    id: &Text,
    steps: &mut Steps<L>,
) -> Result<Vec<RootAccessTrie>, AllocError>
    ensures tries { IfOk result
        (λ ts. IfSome (policy_at policies.now id.now) (λ p. AreFoundTries schema.now p ts.items)) }
    ensures steps { steps.new ≤ steps.old + length (unlinked_envs schema.now) }
{
    match policies.policy(id) {
        Some(policy) => own_tries(alloc, schema, policy, steps),
        None => Ok(Vec::new(alloc)),
    }
}

fn own_tries<L: Ledger>(
    alloc: Global,
    schema: &ValidatorSchema,
    policy: &Policy,
    steps: &mut Steps<L>,
) -> Result<Vec<RootAccessTrie>, AllocError>
    ensures tries { IfOk result (λ ts. AreFoundTries schema.now policy.now ts.items) }
    ensures steps { steps.new ≤ steps.old + length (unlinked_envs schema.now) }
{
    let objects = all_objects(alloc)?;
    let extensions = ExtensionSchemas::all_available(alloc, &objects)?;
    let typechecker = Typechecker::new(schema, &extensions, ValidationMode::Strict);
    let envs = schema.unlinked_request_envs(alloc)?;
    let mut tries = Vec::new(alloc);
    for env in &envs {
        steps.tick();
        tries.push(own_trie(alloc, schema, &typechecker, policy, env)?)?;
    }
    Ok(tries)
}

// The trie of what the check of a policy leaves in an environment.
fn own_trie<'a>(
    alloc: Global,
    schema: &'a ValidatorSchema,
    typechecker: &Typechecker<'_, '_>,
    policy: &'a Policy,
    env: &'a RequestEnv<'a>,
) -> Result<RootAccessTrie, AllocError>
    requires { typechecker.now ≡ schema.now }
    ensures { IfOk result (IsFoundTrie schema.now policy.now (env_data_of env.now)) }
{
    let check = typechecker.typecheck_linked_in(alloc, policy, env)?;
    let conditions = conditions_of(alloc, check)?;
    conditions_trie(alloc, schema, env, conditions.as_slice())
}

// The condition that a check leaves, if it does.
fn conditions_of(alloc: Global, check: PolicyCheck) -> Result<Vec<Expr<Option<Type>>>, AllocError>
    ensures { IfOk result (λ r. r.items ≡ option_to_list (condition_reported check)) }
{
    let mut conditions = Vec::new(alloc);
    match check {
        PolicyCheck::Success(condition) | PolicyCheck::Irrelevant(condition) => {
            conditions.push(condition)?;
        }
        PolicyCheck::Fail(found) => drop(found),
    }
    Ok(conditions)
}
