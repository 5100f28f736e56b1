//! The slice for a request, after every check.

ghost use Rattle.std.specs.Prelude.{◌≡◌, IfErr, IfOk};
ghost use Rattle.manifest_computation.specs.Enough.{IsEnough};
ghost use Rattle.manifest_computation.specs.Refused.{WhyNoSlice};
ghost use Rattle.manifest_computation.specs.Rules.{KeepRules};
ghost use Rattle.manifest_computation.specs.Slice.{slice};
ghost use Rattle.manifest_computation.specs.declared.slice_error.SliceForRequestError.{SliceForRequestError};
ghost use Rattle.manifest_computation.specs.declared.slice_error.SliceForRequestError.TheVariants.{OutOfMemory};

use crate::checks::check_rules;
use crate::restricted_to_reads;
use crate::slice_error::SliceForRequestError;
use crate::slice_laws::slices_are_enough;
use conformance::laws::{request_rules_are_exact, store_rules_are_exact};
use entity_store::{Entities, Request};
use policy_set::PolicySet;
use policy_set::laws::{have_keys_once, is_policy_set};
use schema_core::ValidatorSchema;
use std::alloc::Global;

/// The slice of the store: the store restricted to what the policies read on the request. On it, and on each
/// store between it and the whole one, each policy has the outcome that it has on the whole one: a truth
/// value, a missing entity or an overflow.
///
/// Errs with the first of these that does not hold: the request is whole, it conforms to the schema, so does
/// the store, and the policies are accepted; a warning does not matter. Where all hold, it errs for lack of
/// memory alone.
pub fn slice_for_request(
    alloc: Global,
    schema: &ValidatorSchema,
    policies: &PolicySet,
    request: &Request,
    entities: &Entities,
) -> Result<Entities, SliceForRequestError>
    ensures slice { IfOk result (λ s. s ≡
        slice schema.now policies.now.policies request.now entities.now) }
    ensures rules { IfOk result (λ _. KeepRules schema.now policies.now request.now entities.now) }
    ensures enough { IfOk result (λ s. IsEnough policies.now.policies request.now s entities.now) }
    ensures refused { IfErr result (WhyNoSlice schema.now policies.now request.now entities.now) }
    ensures complete { KeepRules schema.now policies.now request.now entities.now →
        IfErr result (λ e. e ≡ OutOfMemory) }
{
    wants_memory_alone(schema, policies, request, entities);
    if let Err(error) = check_rules(alloc, schema, policies, request, entities) {
        return Err(error);
    }
    slice_is_enough(schema, policies, request, entities);
    match restricted_to_reads(alloc, schema, policies, request, entities) {
        Ok(slice) => Ok(slice),
        Err(_) => Err(SliceForRequestError::OutOfMemory),
    }
}

// Where every rule holds, nothing but lack of memory is a reason for no slice.
fn wants_memory_alone(
    schema: &ValidatorSchema,
    policies: &PolicySet,
    request: &Request,
    entities: &Entities,
)
    ensures { KeepRules schema.now policies.now request.now entities.now → (e : SliceForRequestError) →
        WhyNoSlice schema.now policies.now request.now entities.now e → e ≡ OutOfMemory }
{
    request_rules_are_exact();
    store_rules_are_exact();
    let _actions = schema.action_ids();
    let _policies = policies;
    let _request = request;
    let _entities = entities;
}

// Where every rule holds, the slice is enough.
fn slice_is_enough(
    schema: &ValidatorSchema,
    policies: &PolicySet,
    request: &Request,
    entities: &Entities,
)
    requires { KeepRules schema.now policies.now request.now entities.now }
    ensures { IsEnough policies.now.policies request.now
        (slice schema.now policies.now.policies request.now entities.now) entities.now }
{
    slices_are_enough();
    let _actions = schema.action_ids();
    is_policy_set(policies);
    have_keys_once(policies);
}
