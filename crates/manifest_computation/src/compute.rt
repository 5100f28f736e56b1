//! The manifest of policies.

ghost use Rattle.std.specs.Prelude.{◌≡◌, ◌↔◌, IfOk, IfErr, IfSome, IsTrue, None};
ghost use Rattle.std.specs.List.{AllByRecursion};
ghost use Rattle.schema_core.specs.EnvData.{unlinked_envs};
ghost use Rattle.policy_validate.specs.AcceptanceLaws.{LeavesAll};
ghost use Rattle.policy_validate.specs.Rules.{keep_rules};
ghost use Rattle.policy_validate.specs.Accepted.{IsAccepted};
ghost use Rattle.manifest_core.specs.Manifest.{Manifest};
ghost use Rattle.manifest_computation.specs.Computed.{AreTypedEntries, IsManifestOf, WhyNone};
ghost use Rattle.manifest_computation.specs.Found.{AreEntries};

use crate::EntityManifestError;
use crate::tries::tries_of;
use access_tries::RootAccessTrie;
use entity_store::RequestType;
use manifest_core::EntityManifest;
use policy_set::PolicySet;
use policy_set::laws::is_policy_set;
use policy_validate::acceptance_laws::accepted_by_rules;
use policy_validate::condition_laws::found_are_typed;
use policy_validate::laws::accepted_are_typed;
use policy_validate::{Typechecker, Validator, keep_rules};
use schema_core::{ValidationMode, ValidatorSchema};
use std::alloc::{AllocError, Global};
use std::collections::BTreeMap;
use typecheck_walk::Extensions;
use typing_spec::{ExtensionSchemas, all_objects};

/// The manifest of policies: for each environment of the schema the trie of what the static policies and
/// links read and ask for there, each by its own condition, with its types; no trie where there is no policy.
/// Errs with `Validation` exactly where the policies are not accepted, and with `OutOfMemory` where memory
/// runs out.
pub fn compute_entity_manifest(
    alloc: Global,
    schema: &ValidatorSchema,
    policies: &PolicySet,
) -> Result<EntityManifest, EntityManifestError>
    ensures manifest { IfOk result (IsManifestOf schema.now policies.now.policies) }
    ensures accepted { IfOk result (λ m. IsAccepted schema.now policies.now) }
    ensures refused { IfErr result (WhyNone schema.now policies.now) }
{
    match tries_where_accepted(alloc, schema, policies)? {
        Some(tries) => Ok(EntityManifest::new(tries)),
        None => {
            let found = Validator::new(schema).validate(alloc, policies, ValidationMode::Strict)?;
            Err(EntityManifestError::Validation(found))
        }
    }
}

// A trie for each environment of the schema, or none without policies; nothing where the policies are not
// accepted. Each condition is typed once in an environment: the check that accepts it also gives what goes
// into the trie.
fn tries_where_accepted(
    alloc: Global,
    schema: &ValidatorSchema,
    policies: &PolicySet,
) -> Result<Option<BTreeMap<RequestType, RootAccessTrie>>, AllocError>
    ensures tries { IfOk result
        (λ o. IfSome o (λ m. IsAccepted schema.now policies.now ×
        IsManifestOf schema.now policies.now.policies m.entries)) }
    ensures refused { IfOk result (λ o. o ≡ None → ¬ IsAccepted schema.now policies.now) }
{
    accepted_exactly(schema, policies);
    let objects = all_objects(alloc)?;
    let extensions = ExtensionSchemas::all_available(alloc, &objects)?;
    let typechecker = Typechecker::new(schema, &extensions, ValidationMode::Strict);
    if keep_rules(alloc, schema, &typechecker, policies)? {
        tries_where_left(alloc, schema, &Extensions::new(&extensions), policies)
    } else {
        Ok(None)
    }
}

// The same of policies that keep the rules.
fn tries_where_left(
    alloc: Global,
    schema: &ValidatorSchema,
    extensions: &Extensions<'_, '_>,
    policies: &PolicySet,
) -> Result<Option<BTreeMap<RequestType, RootAccessTrie>>, AllocError>
    requires { IsTrue (keep_rules schema.now policies.now) }
    ensures tries { IfOk result
        (λ o. IfSome o (λ m. IsAccepted schema.now policies.now ×
        IsManifestOf schema.now policies.now.policies m.entries)) }
    ensures refused { IfOk result (λ o. o ≡ None → ¬ IsAccepted schema.now policies.now) }
{
    accepted_exactly(schema, policies);
    entries_where_accepted(schema, policies);
    if policies.len() == 0 {
        return Ok(Some(BTreeMap::new(alloc)));
    }
    tries_of(alloc, schema, extensions, policies)
}

// The policies are accepted exactly where they keep the rules and checks leave each condition.
fn accepted_exactly(schema: &ValidatorSchema, policies: &PolicySet)
    ensures { (IsTrue (keep_rules schema.now policies.now) ×
        AllByRecursion (LeavesAll schema.now policies.now.policies) (unlinked_envs schema.now)) ↔
        IsAccepted schema.now policies.now }
{
    accepted_by_rules();
    let _actions = schema.action_ids();
    is_policy_set(policies);
}

// Of accepted policies the conditions that checks leave are those that typing gives.
fn entries_where_accepted(schema: &ValidatorSchema, policies: &PolicySet)
    ensures { IsAccepted schema.now policies.now → (m : Manifest) →
        AreEntries schema.now policies.now.policies (unlinked_envs schema.now) m →
        AreTypedEntries schema.now policies.now.policies m }
{
    found_are_typed();
    accepted_are_typed();
    let _actions = schema.action_ids();
    is_policy_set(policies);
}
