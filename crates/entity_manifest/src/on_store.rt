//! Decisions on many requests, on a store in memory.

ghost use Rattle.std.specs.Prelude.{IfOk, IfErr};
ghost use Rattle.std.specs.List.{AllZip};
ghost use Rattle.entity_manifest.specs.Accepted.{IsAccepted};
ghost use Rattle.entity_manifest.specs.OfPolicies.{WhyNone};
ghost use Rattle.entity_manifest.specs.Answers.{IsStoreAnswer};

use crate::{
    BatchAnswer, EntityManifestError, SliceForRequestError, check_request, compute_entity_manifest,
};
use conformance::laws::request_rules_are_exact;
use entity_store::{Entities, Request};
use policy_set::{PolicySet, decide};
use schema_core::ValidatorSchema;
use std::alloc::{AllocError, Global};

/// An answer for each request, in their order: `Partial` exactly where an entry of the request is not known;
/// else `Refused` exactly where it breaks a rule, with the first one; else the response on the store. Nothing
/// is loaded, since the store is at hand, so no answer is `Loading`.
///
/// Errs with `Validation` exactly where the policies are not accepted, and with `OutOfMemory` where memory
/// runs out, at whichever request.
pub fn decide_batch_on_store(
    alloc: Global,
    schema: &ValidatorSchema,
    policies: &PolicySet,
    requests: &Vec<Request>,
    entities: &Entities,
) -> Result<Vec<BatchAnswer>, EntityManifestError>
    ensures answers { IfOk result (λ answers.
        AllZip (IsStoreAnswer schema.now policies.now.policies entities.now)
        requests.now.items answers.items) }
    ensures accepted { IfOk result (λ _. IsAccepted schema.now policies.now) }
    ensures refused { IfErr result (WhyNone schema.now policies.now) }
{
    check_policies(alloc, schema, policies)?;
    Ok(answers_on(alloc, schema, policies, requests, entities)?)
}

// Whether the policies are accepted: exactly then they have a manifest.
fn check_policies(
    alloc: Global,
    schema: &ValidatorSchema,
    policies: &PolicySet,
) -> Result<(), EntityManifestError>
    ensures accepted { IfOk result (λ _. IsAccepted schema.now policies.now) }
    ensures refused { IfErr result (WhyNone schema.now policies.now) }
{
    match compute_entity_manifest(alloc, schema, policies) {
        Ok(_) => Ok(()),
        Err(error) => Err(error),
    }
}

// An answer for each request.
fn answers_on(
    alloc: Global,
    schema: &ValidatorSchema,
    policies: &PolicySet,
    requests: &Vec<Request>,
    entities: &Entities,
) -> Result<Vec<BatchAnswer>, AllocError>
    ensures { IfOk result (λ answers.
        AllZip (IsStoreAnswer schema.now policies.now.policies entities.now)
        requests.now.items answers.items) }
{
    let mut answers = Vec::new(alloc);
    for request in requests {
        let answer = answer_on(alloc, schema, policies, request, entities)?;
        answers.push(answer)?;
    }
    Ok(answers)
}

// The answer to one request.
fn answer_on(
    alloc: Global,
    schema: &ValidatorSchema,
    policies: &PolicySet,
    request: &Request,
    entities: &Entities,
) -> Result<BatchAnswer, AllocError>
    ensures { IfOk result
        (IsStoreAnswer schema.now policies.now.policies entities.now request.now) }
{
    request_rules_are_exact();
    // for the proof: the names of a schema's actions ascend
    let _actions = schema.action_ids();
    if !request.is_whole() {
        return Ok(BatchAnswer::Partial);
    }
    match check_request(alloc, schema, request) {
        Ok(()) => Ok(BatchAnswer::Decided(decide(alloc, policies, request, entities)?)),
        Err(SliceForRequestError::Request(error)) => Ok(BatchAnswer::Refused(error)),
        Err(_) => Err(AllocError),
    }
}
