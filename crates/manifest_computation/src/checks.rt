//! Every rule, one after another.

ghost use Rattle.std.specs.Prelude.{◌≡◌, true, IfErr, IfOk, MatchResult, None};
ghost use Rattle.conformance.specs.Misfits.{knows};
ghost use Rattle.conformance.specs.RequestRules.{first_request_fault};
ghost use Rattle.conformance.specs.StoreRules.{first_store_fault};
ghost use Rattle.policy_validate.specs.Accepted.{IsAccepted};
ghost use Rattle.manifest_computation.specs.CheckSteps.{IsRequestRefusal, IsStoreRefusal, IsPoliciesRefusal};
ghost use Rattle.manifest_computation.specs.Refused.{WhyNoSlice};
ghost use Rattle.manifest_computation.specs.Rules.{KeepRules};

use crate::slice_error::SliceForRequestError;
use conformance::laws::{all_functions_are_known, request_rules_are_exact, store_rules_are_exact};
use conformance::{ConformanceError, RequestValidationError, conforms, validate_request};
use entity_store::{Entities, Request};
use policy_set::PolicySet;
use policy_validate::Validator;
use schema_core::{ValidationMode, ValidatorSchema};
use std::alloc::Global;
use typing_spec::{ExtensionSchemas, all_objects};

/// Whether every rule holds; else the first that does not.
pub(crate) fn check_rules(
    alloc: Global,
    schema: &ValidatorSchema,
    policies: &PolicySet,
    request: &Request,
    entities: &Entities,
) -> Result<(), SliceForRequestError>
    ensures ok { IfOk result (λ _. KeepRules schema.now policies.now request.now entities.now) }
    ensures err { IfErr result (WhyNoSlice schema.now policies.now request.now entities.now) }
{
    request_rules_are_exact();
    store_rules_are_exact();
    let _actions = schema.action_ids();
    if !request.is_whole() {
        return Err(SliceForRequestError::PartialRequest);
    }
    if let Err(error) = check_request(alloc, schema, request) {
        return Err(error);
    }
    if let Err(error) = check_store(schema, entities) {
        return Err(error);
    }
    check_policies(alloc, schema, policies)
}

/// Whether the request keeps every rule, where all extensions are there; else the first that it breaks.
pub fn check_request(
    alloc: Global,
    schema: &ValidatorSchema,
    request: &Request,
) -> Result<(), SliceForRequestError>
    ensures { MatchResult result (λ _. first_request_fault schema.now (λ _. true) request.now ≡ None)
        (IsRequestRefusal (first_request_fault schema.now (λ _. true) request.now)) }
{
    let objects = all_objects(alloc)?;
    let extensions = ExtensionSchemas::all_available(alloc, &objects)?;
    all_functions_are_known();
    check_with(alloc, schema, request, &extensions)
}

// The same, where these extensions are there.
fn check_with(
    alloc: Global,
    schema: &ValidatorSchema,
    request: &Request,
    extensions: &ExtensionSchemas<'_>,
) -> Result<(), SliceForRequestError>
    ensures { MatchResult result
        (λ _. first_request_fault schema.now (knows extensions.now) request.now ≡ None)
        (IsRequestRefusal (first_request_fault schema.now (knows extensions.now) request.now)) }
{
    match validate_request(alloc, schema, request, extensions) {
        Ok(()) => Ok(()),
        Err(RequestValidationError::OutOfMemory) => Err(SliceForRequestError::OutOfMemory),
        Err(error) => Err(SliceForRequestError::Request(error)),
    }
}

// The first entity that breaks a rule.
fn check_store(schema: &ValidatorSchema, entities: &Entities) -> Result<(), SliceForRequestError>
    ensures { MatchResult result (λ _. first_store_fault schema.now entities.now ≡ None)
        (IsStoreRefusal (first_store_fault schema.now entities.now)) }
{
    match conforms(schema, entities) {
        Ok(()) => Ok(()),
        Err(ConformanceError::OutOfMemory) => Err(SliceForRequestError::OutOfMemory),
        Err(ConformanceError::EntityDoesNotConform(error)) => {
            Err(SliceForRequestError::EntityDoesNotConform(error))
        }
    }
}

fn check_policies(
    alloc: Global,
    schema: &ValidatorSchema,
    policies: &PolicySet,
) -> Result<(), SliceForRequestError>
    ensures ok { IfOk result (λ _. IsAccepted schema.now policies.now) }
    ensures err { IfErr result (IsPoliciesRefusal schema.now policies.now) }
{
    let found = Validator::new(schema).validate(alloc, policies, ValidationMode::Strict)?;
    if found.validation_passed() {
        Ok(())
    } else {
        Err(SliceForRequestError::Validation(found))
    }
}
