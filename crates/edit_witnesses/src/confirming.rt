//! Whether a request and a store are a witness.

ghost use Rattle.std.specs.Prelude.{◌≡◌, ◌↔◌, true, IfOk, IfSome, IsSomeAnd, IsTrue, None};
ghost use Rattle.entity_store.specs.Request.{IsWhole, known};
ghost use Rattle.schema_core.specs.RequestEnvs.{env_data_of};
ghost use Rattle.schema_core.specs.Schema.{action_at};
ghost use Rattle.policy_compare.specs.Compared.{IsOfEnvironment};
ghost use Rattle.policy_set.specs.Response.{response};
ghost use Rattle.typing_spec.specs.Conforms.{RequestConforms, StoreConforms};
ghost use Rattle.conformance.specs.Misfits.{knows};
ghost use Rattle.conformance.specs.RequestRules.{first_request_fault};
ghost use Rattle.edit_witnesses.specs.Witnesses.{IsWitness, decision_before, decision_after};

use crate::{Turn, Witness};
use conformance::laws::{all_functions_are_known, request_rules_are_exact, store_rules_are_exact};
use conformance::{ConformanceError, RequestValidationError, conforms, validate_request};
use entity_store::{Entities, Request};
use policy_compare::Edit;
use policy_set::{Decision, PolicySet, decide};
use policy_values::{EntityType, EntityUID};
use schema_core::{RequestEnv, ValidatorSchema};
use schema_types::laws::order_is_exact;
use schema_types::{Attributes, OpenTag, Type};
use std::alloc::{AllocError, Global};
use typecheck_walk::Setting;
use typing_spec::{ExtensionSchemas, all_objects};

impl Turn {
    /// The decision that is turned.
    pub fn before(self) -> Decision
        ensures { result ≡ decision_before self }
    {
        match self {
            Turn::ToDeny => Decision::Allow,
            Turn::ToAllow => Decision::Deny,
        }
    }

    /// What it is turned into.
    pub fn after(self) -> Decision
        ensures { result ≡ decision_after self }
    {
        match self {
            Turn::ToDeny => Decision::Deny,
            Turn::ToAllow => Decision::Allow,
        }
    }
}

/// The request and the store, if they are a witness: the request is whole and of the environment, both
/// conform, and the decision is turned.
pub fn confirmed(
    at: &Setting<'_, '_, '_, '_>,
    edit: &Edit<'_>,
    turn: Turn,
    shown: Witness,
) -> Result<Option<Witness>, AllocError>
    ensures { IfOk result (λ o. IfSome o (IsWitness at.now.schema.now (env_data_of at.now.env.now)
        edit.now.before.now.policies edit.now.after.now.policies turn)) }
{
    if is_turned(at.alloc, edit, turn, &shown.request, &shown.entities)?
        && is_of_environment(at.schema, at.env, &shown.request)?
        && request_conforms(at.alloc, at.schema, &shown.request)?
        && store_conforms(at.schema, &shown.entities)?
    {
        return Ok(Some(shown));
    }
    drop(shown);
    Ok(None)
}

// Whether the request is whole, and the decision on it is turned.
fn is_turned(
    alloc: Global,
    edit: &Edit<'_>,
    turn: Turn,
    request: &Request,
    entities: &Entities,
) -> Result<bool, AllocError>
    ensures whole { IfOk result (λ b. IsTrue b → IsWhole request.now) }
    ensures before { IfOk result (λ b. IsTrue b → (response edit.now.before.now.policies request.now
        entities.now).decision ≡ decision_before turn) }
    ensures after { IfOk result (λ b. IsTrue b → (response edit.now.after.now.policies request.now
        entities.now).decision ≡ decision_after turn) }
{
    if !request.is_whole() {
        return Ok(false);
    }
    let before = decision_by(alloc, edit.before, request, entities)?;
    let after = decision_by(alloc, edit.after, request, entities)?;
    Ok(before == turn.before() && after == turn.after())
}

// The decision by policies on a whole request.
fn decision_by(
    alloc: Global,
    policies: &PolicySet,
    request: &Request,
    entities: &Entities,
) -> Result<Decision, AllocError>
    requires { IsWhole request.now }
    ensures { IfOk result
        (λ d. d ≡ (response policies.now.policies request.now entities.now).decision) }
{
    let response = decide(alloc, policies, request, entities)?;
    Ok(response.decision())
}

// Whether the request is of the environment, whose context is the one that the schema declares.
fn is_of_environment(
    schema: &ValidatorSchema,
    env: &RequestEnv<'_>,
    request: &Request,
) -> Result<bool, AllocError>
    ensures { IfOk result
        (λ b. IsTrue b → IsOfEnvironment schema.now (env_data_of env.now) request.now) }
{
    let RequestEnv::DeclaredAction {
        principal,
        action,
        resource,
        context,
        ..
    } = env
    else {
        return Ok(false);
    };
    if !is_of_type(&request.principal, principal) {
        return Ok(false);
    }
    if !is_id(&request.action, action) {
        return Ok(false);
    }
    if !is_of_type(&request.resource, resource) {
        return Ok(false);
    }
    is_context_of(schema, action, context)
}

// Whether the entry is an id of the type.
fn is_of_type(entry: &Option<EntityUID>, entity_type: &EntityType) -> bool
    ensures { IsTrue result → (known entry.now).entity_type ≡ entity_type.now }
{
    match entry {
        Some(uid) => uid.entity_type().as_str() == entity_type.as_str(),
        None => false,
    }
}

// Whether the entry is the id.
fn is_id(entry: &Option<EntityUID>, uid: &EntityUID) -> bool
    ensures { IsTrue result → known entry.now ≡ uid.now }
{
    match entry {
        Some(known) => {
            known.entity_type().as_str() == uid.entity_type().as_str()
                && known.eid().as_str() == uid.eid().as_str()
        }
        None => false,
    }
}

// Whether the schema declares the context for the action.
fn is_context_of(
    schema: &ValidatorSchema,
    action: &EntityUID,
    context: &Attributes,
) -> Result<bool, AllocError>
    ensures { IfOk result (λ b. IsTrue b →
        IsSomeAnd (action_at schema.now action.now) (λ a. context.now ≡ a.context)) }
{
    match schema.get_action_id(action) {
        Some(declared) => are_same(context, declared.context()),
        None => Ok(false),
    }
}

// Whether the attributes are the same.
fn are_same(one: &Attributes, other: &Attributes) -> Result<bool, AllocError>
    ensures { IfOk result (λ b. IsTrue b → one.now ≡ other.now) }
{
    order_is_exact();
    let one = Type::record(one.try_clone()?, OpenTag::ClosedAttributes);
    let other = Type::record(other.try_clone()?, OpenTag::ClosedAttributes);
    Ok(one == other)
}

// Whether the request conforms, with all extensions.
fn request_conforms(
    alloc: Global,
    schema: &ValidatorSchema,
    request: &Request,
) -> Result<bool, AllocError>
    requires { IsWhole request.now }
    ensures { IfOk result (λ b. IsTrue b → RequestConforms schema.now request.now) }
{
    request_rules_are_exact();
    all_functions_are_known();
    let _actions = schema.action_ids();
    let objects = all_objects(alloc)?;
    let extensions = ExtensionSchemas::all_available(alloc, &objects)?;
    keeps_rules(alloc, schema, request, &extensions)
}

// Whether the request breaks no rule, where these extensions are there.
fn keeps_rules(
    alloc: Global,
    schema: &ValidatorSchema,
    request: &Request,
    extensions: &ExtensionSchemas<'_>,
) -> Result<bool, AllocError>
    ensures { IfOk result (λ b. IsTrue b →
        first_request_fault schema.now (knows extensions.now) request.now ≡ None) }
{
    match validate_request(alloc, schema, request, extensions) {
        Ok(()) => Ok(true),
        Err(RequestValidationError::OutOfMemory) => Err(AllocError),
        Err(error) => {
            drop(error);
            Ok(false)
        }
    }
}

fn store_conforms(schema: &ValidatorSchema, entities: &Entities) -> Result<bool, AllocError>
    ensures { IfOk result (λ b. IsTrue b → StoreConforms schema.now entities.now) }
{
    store_rules_are_exact();
    let _actions = schema.action_ids();
    match conforms(schema, entities) {
        Ok(()) => Ok(true),
        Err(ConformanceError::OutOfMemory) => Err(AllocError),
        Err(ConformanceError::EntityDoesNotConform(error)) => {
            drop(error);
            Ok(false)
        }
    }
}
