//! The least levels at which policies pass.

ghost use Rattle.std.specs.Prelude.{◌≡◌, IfOk, Some, map, fold, flat_map};
ghost use Rattle.schema_core.specs.EnvData.{action_in};
ghost use Rattle.schema_core.specs.RequestEnvs.{env_data_of};
ghost use Rattle.level_spec.specs.Levels.{greater, least, least_level};
ghost use Rattle.policy_validate.specs.Errors.{condition_in, dereferences_in};
ghost use Rattle.policy_validate.specs.Found.{condition_reported};
ghost use Rattle.policy_review.specs.Found.{needed_by, needed_in, level_reported, level_found};

use findings::{EntityDerefViolationKind, ValidationError};
use policy_expressions::Expr;
use policy_set::Template;
use policy_typecheck::{PolicyCheck, Typechecker, linked_request_envs};
use policy_validate::level_errors;
use policy_values::Text;
use schema_core::{RequestEnv, ValidatorSchema};
use schema_types::Type;
use std::alloc::{AllocError, Global};

/// The least level of a template or static policy, by what checks of its condition leave in its environments.
pub(crate) fn level_of(
    alloc: Global,
    schema: &ValidatorSchema,
    typechecker: &Typechecker<'_, '_>,
    template: &Template,
) -> Result<Option<u32>, AllocError>
    requires { typechecker.now ≡ schema.now }
    ensures { IfOk result (λ l. l ≡ level_found schema.now template.now) }
{
    let mut level = Some(0);
    for env in linked_request_envs(alloc, schema, template)? {
        let check = typechecker.typecheck_by_single_request_env(alloc, template, &env)?;
        level = raised_by(alloc, template.id(), level, &env, check)?;
    }
    Ok(level)
}

/// The level, raised to the least at which what the check leaves of a condition passes. What has no level is
/// not walked through: none stays none.
pub(crate) fn raised_by(
    alloc: Global,
    policy_id: &Text,
    level: Option<u32>,
    env: &RequestEnv<'_>,
    check: PolicyCheck,
) -> Result<Option<u32>, AllocError>
    ensures { IfOk result (λ l. l ≡
        greater level (level_reported (action_in (env_data_of env.now)) (condition_reported check))) }
{
    match condition_of(check) {
        Some(condition) => raised_past(alloc, policy_id, level, env, condition),
        None => Ok(level),
    }
}

fn raised_past(
    alloc: Global,
    policy_id: &Text,
    level: Option<u32>,
    env: &RequestEnv<'_>,
    condition: Expr<Option<Type>>,
) -> Result<Option<u32>, AllocError>
    ensures { IfOk result (λ l. l ≡
        greater level (least_level (action_in (env_data_of env.now)) condition)) }
{
    match level {
        Some(level) => raised_to(alloc, policy_id, level, env, condition),
        None => {
            drop(condition);
            Ok(None)
        }
    }
}

fn raised_to(
    alloc: Global,
    policy_id: &Text,
    level: u32,
    env: &RequestEnv<'_>,
    condition: Expr<Option<Type>>,
) -> Result<Option<u32>, AllocError>
    ensures { IfOk result (λ l. l ≡
        greater (Some level) (least_level (action_in (env_data_of env.now)) condition)) }
{
    let mut conditions = Vec::new(alloc);
    conditions.push((*env, condition))?;
    raised(alloc, policy_id, level, &conditions)
}

fn condition_of(check: PolicyCheck) -> Option<Expr<Option<Type>>>
    ensures { result ≡ condition_reported check }
{
    match check {
        PolicyCheck::Success(condition) | PolicyCheck::Irrelevant(condition) => Some(condition),
        PolicyCheck::Fail(found) => {
            drop(found);
            None
        }
    }
}

// The level, raised to the least at which conditions pass. The errors at a level say which level they need,
// and so the second turn passes as a rule.
fn raised(
    alloc: Global,
    policy_id: &Text,
    mut level: u32,
    conditions: &Vec<(RequestEnv<'_>, Expr<Option<Type>>)>,
) -> Result<Option<u32>, AllocError>
    ensures { IfOk result (λ l. l ≡
        greater (Some level)
        (least (flat_map dereferences_in (map condition_in conditions.now.items)))) }
{
    loop {
        let errors = level_errors(alloc, policy_id, level, conditions)?;
        if errors.is_empty() {
            return Ok(Some(level));
        }
        match needed_by(errors) {
            Some(more) => level = more,
            None => return Ok(None),
        }
    }
}

// The greatest level that errors on levels need; none, where one says of what has no level.
fn needed_by(errors: Vec<ValidationError>) -> Option<u32>
    ensures { result ≡ needed_by errors.items }
{
    let mut level = Some(0);
    for error in errors {
        level = greater(level, needed_in(&error));
    }
    level
}

fn needed_in(error: &ValidationError) -> Option<u32>
    ensures { result ≡ needed_in error.now }
{
    match error {
        ValidationError::EntityDerefLevelViolation(violation) => match violation.violation_kind {
            EntityDerefViolationKind::MaximumLevelExceeded { actual_level, .. } => {
                Some(actual_level.level)
            }
            EntityDerefViolationKind::LiteralDerefTarget => None,
        },
        _ => Some(0),
    }
}

fn greater(one: Option<u32>, other: Option<u32>) -> Option<u32>
    ensures { result ≡ greater one other }
{
    match (one, other) {
        (Some(one), Some(other)) => Some(one.max(other)),
        _ => None,
    }
}
