//! Decisions on many requests, over any loader.

ghost use Rattle.std.specs.Prelude.{◌≡◌, ◌≢◌, Err, IfOk, IfErr};
ghost use Rattle.entity_loader.specs.State.{Continues};
ghost use Rattle.entity_store.specs.Request.{IsWhole};
ghost use Rattle.typing_spec.specs.Conforms.{RequestConforms};
ghost use Rattle.entity_manifest.specs.Accepted.{IsAccepted};
ghost use Rattle.entity_manifest.specs.OfPolicies.{IsManifestOf, WhyNone};
ghost use Rattle.entity_loading.specs.declared.error.EntitySliceError.TheVariants.{OutOfMemory};
ghost use Rattle.entity_manifest.specs.Answers.{IsLoaderAnswer, AreLoaderAnswers};
ghost use Rattle.entity_manifest.specs.BatchLoaded.{answer_of};

use crate::{
    BatchAnswer, EntityManifest, EntityManifestError, EntitySliceError, SliceForRequestError,
    Steps, check_request, compute_entity_manifest, load_for_request,
};
use conformance::laws::request_rules_are_exact;
use entity_loader::EntityLoader;
use entity_store::{Entities, Request};
use policy_set::{PolicySet, decide};
use schema_core::ValidatorSchema;
use std::alloc::{AllocError, Global};
use std::marker::Brand;
use std::sync::ledger::{Blank, Ledger};

/// An answer for each request, in their order: `Partial` exactly where an entry of the request is not known;
/// else `Refused` exactly where it breaks a rule, with the first one; else the response on what the loader
/// gives for it, or why that is not loaded. The manifest is computed once, and for each request what it reads
/// is loaded anew.
///
/// Errs with `Validation` exactly where the policies are not accepted, and with `OutOfMemory` where memory
/// runs out, at whichever request.
pub fn decide_batch<D: EntityLoader>(
    alloc: Global,
    schema: &ValidatorSchema,
    policies: &PolicySet,
    requests: &Vec<Request>,
    loader: &mut D,
) -> Result<Vec<BatchAnswer>, EntityManifestError>
    ensures answers { IfOk result (λ answers. AreLoaderAnswers schema.now policies.now.policies
        (D.state loader.old) requests.now.items answers.items (D.state loader.new)) }
    ensures accepted { IfOk result (λ _. IsAccepted schema.now policies.now) }
    ensures refused { IfErr result (WhyNone schema.now policies.now) }
    ensures goes_on { Continues (D.state loader.old) (D.state loader.new) }
{
    let manifest = compute_entity_manifest(alloc, schema, policies)?;
    let answers = answers_by::<D, Brand>(
        alloc,
        schema,
        policies,
        &manifest,
        requests,
        loader,
        Blank::new(1),
    )?;
    Ok(answers)
}

// An answer for each request, by the manifest of the policies, which are accepted.
fn answers_by<D: EntityLoader, L: Ledger>(
    alloc: Global,
    schema: &ValidatorSchema,
    policies: &PolicySet,
    manifest: &EntityManifest,
    requests: &Vec<Request>,
    loader: &mut D,
    blank: Blank,
) -> Result<Vec<BatchAnswer>, AllocError>
    requires name { blank.name ≡ L.name }
    requires parts { blank.parts ≡ L.parts }
    requires one { blank.parts ≡ 1 }
    requires accepted { IsAccepted schema.now policies.now }
    requires manifest { IsManifestOf schema.now policies.now.policies manifest.now }
    ensures answers { IfOk result (λ answers. AreLoaderAnswers schema.now policies.now.policies
        (D.state loader.old) requests.now.items answers.items (D.state loader.new)) }
    ensures goes_on { Continues (D.state loader.old) (D.state loader.new) }
{
    let mut steps = Steps::<L>::new(blank);
    let mut answers = Vec::new(alloc);
    for request in requests {
        let answer = answer_to(
            alloc, schema, policies, manifest, request, loader, &mut steps,
        )?;
        answers.push(answer)?;
    }
    Ok(answers)
}

// The answer to one request.
fn answer_to<D: EntityLoader, L: Ledger>(
    alloc: Global,
    schema: &ValidatorSchema,
    policies: &PolicySet,
    manifest: &EntityManifest,
    request: &Request,
    loader: &mut D,
    steps: &mut Steps<L>,
) -> Result<BatchAnswer, AllocError>
    requires accepted { IsAccepted schema.now policies.now }
    requires manifest { IsManifestOf schema.now policies.now.policies manifest.now }
    ensures answer { IfOk result (IsLoaderAnswer schema.now policies.now.policies
        (D.state loader.old) (D.state loader.new) request.now) }
    ensures goes_on { Continues (D.state loader.old) (D.state loader.new) }
{
    request_rules_are_exact();
    // for the proof: the names of a schema's actions ascend
    let _actions = schema.action_ids();
    if !request.is_whole() {
        return Ok(BatchAnswer::Partial);
    }
    match check_request(alloc, schema, request) {
        Ok(()) => loaded_answer(alloc, schema, policies, manifest, request, loader, steps),
        Err(SliceForRequestError::Request(error)) => Ok(BatchAnswer::Refused(error)),
        Err(_) => Err(AllocError),
    }
}

// The answer to a request that conforms: the decision on what is loaded for it, or why it is not.
fn loaded_answer<D: EntityLoader, L: Ledger>(
    alloc: Global,
    schema: &ValidatorSchema,
    policies: &PolicySet,
    manifest: &EntityManifest,
    request: &Request,
    loader: &mut D,
    steps: &mut Steps<L>,
) -> Result<BatchAnswer, AllocError>
    requires accepted { IsAccepted schema.now policies.now }
    requires manifest { IsManifestOf schema.now policies.now.policies manifest.now }
    requires whole { IsWhole request.now }
    requires conforms { RequestConforms schema.now request.now }
    ensures answer { IfOk result (IsLoaderAnswer schema.now policies.now.policies
        (D.state loader.old) (D.state loader.new) request.now) }
    ensures goes_on { Continues (D.state loader.old) (D.state loader.new) }
{
    let loaded = load_for_request(alloc, schema, policies, manifest, request, loader, steps);
    answer_of(alloc, policies, request, loaded)
}

// The decision on what is loaded, or why it is not; for lack of memory there is no answer.
fn answer_of(
    alloc: Global,
    policies: &PolicySet,
    request: &Request,
    loaded: Result<Entities, EntitySliceError>,
) -> Result<BatchAnswer, AllocError>
    requires { IsWhole request.now }
    ensures answer { IfOk result (λ a. a ≡ answer_of policies.now.policies request.now loaded) }
    ensures memory { IfOk result (λ _. loaded ≢ Err OutOfMemory) }
{
    match loaded {
        Ok(entities) => Ok(BatchAnswer::Decided(decide(alloc, policies, request, &entities)?)),
        Err(EntitySliceError::OutOfMemory) => Err(AllocError),
        Err(error) => Ok(BatchAnswer::Loading(error)),
    }
}
