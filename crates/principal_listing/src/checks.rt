//! The rules that do not speak of the principal, one after another.

ghost use Rattle.std.specs.Prelude.{◌≡◌, true, None, IfOk, IfErr, MatchResult, OnOk};
ghost use Rattle.conformance.specs.RequestRules.{first_request_fault};
ghost use Rattle.entity_manifest.specs.Accepted.{IsAccepted};
ghost use Rattle.principal_listing.specs.Allowed.{passed_over, KeepOtherRules};
ghost use Rattle.principal_listing.specs.Refused.{WhyNoPage};
ghost use Rattle.principal_listing.specs.CheckSteps.{IsRequestRefusal, IsStoreRefusal, IsPoliciesRefusal};
ghost use Rattle.conformance.specs.StoreRules.{first_store_fault};

use crate::ListError;
use crate::request::{is_whole_but, without_principal};
use conformance::laws::store_rules_are_exact;
use conformance::{ConformanceError, conforms};
use entity_manifest::{
    EntityManifestError, SliceForRequestError, check_request, compute_entity_manifest,
};
use entity_store::{Entities, Request};
use policy_set::PolicySet;
use schema_core::ValidatorSchema;
use std::alloc::Global;

/// The request without its principal, where every rule holds that does not speak of the principal; else the
/// first that does not.
pub(crate) fn checked(
    alloc: Global,
    schema: &ValidatorSchema,
    policies: &PolicySet,
    request: &Request,
    entities: &Entities,
) -> Result<Request, ListError>
    ensures request { IfOk result (λ q. q ≡ passed_over request.now) }
    ensures rules { OnOk result (KeepOtherRules schema.now policies.now request.now entities.now) }
    ensures refused { IfErr result (WhyNoPage schema.now policies.now request.now entities.now) }
{
    store_rules_are_exact();
    let _actions = schema.action_ids();
    if !is_whole_but(request) {
        return Err(ListError::PartialRequest);
    }
    let asked = checked_request(alloc, schema, request)?;
    if let Err(error) = check_store(schema, entities) {
        return Err(error);
    }
    match check_policies(alloc, schema, policies) {
        Ok(()) => Ok(asked),
        Err(error) => Err(error),
    }
}

// The request without its principal, where it breaks no rule.
fn checked_request(
    alloc: Global,
    schema: &ValidatorSchema,
    request: &Request,
) -> Result<Request, ListError>
    ensures request { IfOk result (λ q. q ≡ passed_over request.now) }
    ensures rules { OnOk result
        (first_request_fault schema.now (λ _. true) (passed_over request.now) ≡ None) }
    ensures refused { IfErr result
        (IsRequestRefusal (first_request_fault schema.now (λ _. true) (passed_over request.now))) }
{
    let asked = without_principal(alloc, request)?;
    match check_request(alloc, schema, &asked) {
        Ok(()) => Ok(asked),
        Err(SliceForRequestError::Request(error)) => Err(ListError::Request(error)),
        Err(_) => Err(ListError::OutOfMemory),
    }
}

// Whether the store conforms.
fn check_store(schema: &ValidatorSchema, entities: &Entities) -> Result<(), ListError>
    ensures { MatchResult result (λ _. first_store_fault schema.now entities.now ≡ None)
        (IsStoreRefusal (first_store_fault schema.now entities.now)) }
{
    match conforms(schema, entities) {
        Ok(()) => Ok(()),
        Err(ConformanceError::EntityDoesNotConform(error)) => {
            Err(ListError::EntityDoesNotConform(error))
        }
        Err(ConformanceError::OutOfMemory) => Err(ListError::OutOfMemory),
    }
}

// Whether the policies are accepted: exactly then they have a manifest.
fn check_policies(
    alloc: Global,
    schema: &ValidatorSchema,
    policies: &PolicySet,
) -> Result<(), ListError>
    ensures accepted { OnOk result (IsAccepted schema.now policies.now) }
    ensures refused { IfErr result (IsPoliciesRefusal schema.now policies.now) }
{
    match compute_entity_manifest(alloc, schema, policies) {
        Ok(_) => Ok(()),
        Err(EntityManifestError::Validation(found)) => Err(ListError::Validation(found)),
        Err(EntityManifestError::OutOfMemory) => Err(ListError::OutOfMemory),
    }
}
