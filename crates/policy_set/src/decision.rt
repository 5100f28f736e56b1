//! The decision on a request.

ghost use Rattle.std.specs.Prelude.{◌≡◌, ◌↔◌, ◌++◌, ℕ, List, IfOk, OnOk, IsTrue, true};
ghost use Rattle.policy_values.specs.Value.{truth};
ghost use Rattle.entity_store.specs.Request.{IsWhole};
ghost use Rattle.policy_set.specs.Response.{response, decided, if_permit, if_true, if_error};
ghost use Rattle.policy_set.specs.declared.response.PolicyFailure.{PolicyFailure as FailureOf};

use crate::{Decision, Effect, Policy, PolicyFailure, PolicySet, Response};
use policy_core::{Entities, EvalError, Outcome, Request, Text, Value, ValueKind, evaluate};
use std::alloc::{AllocError, Global};

/// Allow where some permit is true and no forbid is, else Deny. A policy whose condition has no value is
/// skipped, and listed. The request has to be whole.
pub fn decide(
    alloc: Global,
    policies: &PolicySet,
    request: &Request,
    entities: &Entities,
) -> Result<Response, AllocError>
    requires { IsWhole request.now }
    ensures { IfOk result (λ r. r ≡ response policies.now.policies request.now entities.now) }
{
    let mut permits = Vec::new(alloc);
    let mut forbids = Vec::new(alloc);
    let mut failures = Vec::new(alloc);
    for policy in policies.policies() {
        let outcome = evaluate(alloc, policy.condition(), request, entities)?;
        note(policy, outcome, &mut permits, &mut forbids, &mut failures)?;
    }
    Ok(respond(permits, forbids, failures))
}

// Puts what a policy's condition comes to behind what is known of the policies before it.
fn note(
    policy: &Policy,
    outcome: Outcome,
    permits: &mut Vec<Text>,
    forbids: &mut Vec<Text>,
    failures: &mut Vec<PolicyFailure>,
) -> Result<(), AllocError>
    ensures permits { OnOk result ((ids : List (List ℕ)) → permits.new.items ++ ids ≡
        permits.old.items ++ if_permit policy.now.effect (if_true outcome policy.now.id ids) ids) }
    ensures forbids { OnOk result ((ids : List (List ℕ)) → forbids.new.items ++ ids ≡
        forbids.old.items ++ if_permit policy.now.effect ids (if_true outcome policy.now.id ids)) }
    ensures failures { OnOk result ((fs : List FailureOf) →
        failures.new.items ++ fs ≡ failures.old.items ++ if_error outcome policy.now.id fs) }
{
    match outcome {
        Outcome::Value(value) => {
            let met = is_true(&value);
            drop(value);
            if met {
                let id = policy.id().try_clone()?;
                match policy.effect() {
                    Effect::Permit => permits.push(id)?,
                    Effect::Forbid => forbids.push(id)?,
                }
            }
        }
        Outcome::Error(error) => failures.push(failure(policy, error)?)?,
    }
    Ok(())
}

// A policy whose condition has no value.
fn failure(policy: &Policy, error: EvalError) -> Result<PolicyFailure, AllocError>
    ensures { IfOk result (λ f. f ≡ record { id = policy.now.id; error = error }) }
{
    let id = or_drop!(policy.id().try_clone(), error);
    Ok(PolicyFailure { id, error })
}

fn is_true(value: &Value) -> bool
    ensures { IsTrue result ↔ (value.now ≡ truth true) }
{
    match value.kind() {
        ValueKind::Bool(b) => *b,
        _ => false,
    }
}

fn respond(permits: Vec<Text>, forbids: Vec<Text>, failures: Vec<PolicyFailure>) -> Response
    ensures { result ≡ decided permits.items forbids.items failures.items }
{
    if !permits.is_empty() && forbids.is_empty() {
        Response::new(Decision::Allow, permits, failures)
    } else {
        Response::new(Decision::Deny, forbids, failures)
    }
}
