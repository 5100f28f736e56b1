//! The check of a policy whose scope names an action that is not declared.

ghost use Rattle.std.specs.Prelude.{◌≡◌, ◌&&◌, true, false, is_none, OnOk};
ghost use Rattle.std.specs.Option.{option_copied, option_map_or};
ghost use Rattle.schema_core.specs.EnvData.{literal_type};
ghost use Rattle.schema_core.specs.Faults.{IsSchema};
ghost use Rattle.schema_core.specs.RequestEnvs.{env_data_of};
ghost use Rattle.policy_scope.specs.Scope.{type_meets};
ghost use Rattle.link_spec.specs.Behind.{refused};
ghost use Rattle.link_spec.specs.Linked.{linked_envs, linked_envs_of};
ghost use Rattle.link_spec.specs.Met.{refused_check};
ghost use Rattle.typecheck_rules.specs.Check.{condition_walked};
ghost use Rattle.policy_typecheck.specs.NoAction.{names_no_action};
ghost use Rattle.policy_typecheck.specs.Reported.{all_reported, reported};

use crate::Typechecker;
use crate::environments::add_of_action;
use crate::policies::Summary;
use findings::ValidationError;
use indexmap::IndexSet;
use policy_scope::{is_plain_scope, type_meets};
use policy_set::{ActionConstraint, PrincipalOrResourceConstraint, Template};
use policy_values::{EntityType, EntityUID};
use schema_core::{RequestEnv, ValidatorActionId, ValidatorSchema};
use std::alloc::{AllocError, Global};

/// Whether the id of the action has no type, and all others of the scope have types.
pub(crate) fn names_no_action(
    schema: &ValidatorSchema,
    principal: &PrincipalOrResourceConstraint,
    action: &ActionConstraint,
    resource: &PrincipalOrResourceConstraint,
) -> bool
    ensures { result ≡ names_no_action schema.now principal.now action.now resource.now }
{
    match action {
        ActionConstraint::Eq(uid) => {
            has_no_type(schema, uid)
                && is_plain_scope(schema, principal, &ActionConstraint::Any, resource)
        }
        ActionConstraint::Any | ActionConstraint::In(_) => false,
    }
}

fn has_no_type(schema: &ValidatorSchema, uid: &EntityUID) -> bool
    ensures { result ≡ is_none (literal_type schema.now uid.now) }
{
    schema.get_action_id(uid).is_none() && schema.get_entity_type(uid.entity_type()).is_none()
}

/// Checks the body in the environments of the template whose principal meets the scope: there the scope
/// fails, with no finding of its own, and it is false in the others.
pub(crate) fn check_refused(
    checker: &Typechecker<'_, '_>,
    alloc: Global,
    t: &Template,
    summary: &mut Summary,
    found: &mut IndexSet<ValidationError>,
) -> Result<(), AllocError>
    ensures schema { IsSchema checker.now }
    ensures reported { OnOk result ((summary.new, found.new.keys) ≡
        all_reported t.now.id (refused_check checker.now t.now) (summary.old, found.old.keys)
        (linked_envs checker.now t.now)) }
{
    for action in checker.schema().action_ids() {
        check_of_action(checker, alloc, t, action, summary, found)?;
    }
    Ok(())
}

// In those of an action.
fn check_of_action(
    checker: &Typechecker<'_, '_>,
    alloc: Global,
    t: &Template,
    action: &ValidatorActionId,
    summary: &mut Summary,
    found: &mut IndexSet<ValidationError>,
) -> Result<(), AllocError>
    ensures { OnOk result ((summary.new, found.new.keys) ≡
        all_reported t.now.id (refused_check checker.now t.now) (summary.old, found.old.keys)
        (linked_envs_of checker.now t.now action.now)) }
{
    let mut envs = Vec::new(alloc);
    add_of_action(&mut envs, checker.schema(), t, action)?;
    for env in envs {
        say_where_met(checker, alloc, t, &env, summary, found)?;
    }
    Ok(())
}

// Reports of the condition in an environment: nothing where its principal does not meet the scope.
fn say_where_met<'b>(
    checker: &Typechecker<'_, '_>,
    alloc: Global,
    t: &'b Template,
    env: &'b RequestEnv<'b>,
    summary: &mut Summary,
    found: &mut IndexSet<ValidationError>,
) -> Result<(), AllocError>
    ensures { OnOk result ((summary.new, found.new.keys) ≡
        reported t.now.id (refused_check checker.now t.now (env_data_of env.now))
        (summary.old, found.old.keys)) }
{
    let principal = env.principal_entity_type();
    if is_met(checker.schema(), t.principal_constraint(), principal) {
        say_refused(checker, alloc, t, env, summary, found)
    } else {
        Ok(())
    }
}

// Reports that the condition fails, with what is found of its body.
fn say_refused<'b>(
    checker: &Typechecker<'_, '_>,
    alloc: Global,
    t: &'b Template,
    env: &'b RequestEnv<'b>,
    summary: &mut Summary,
    found: &mut IndexSet<ValidationError>,
) -> Result<(), AllocError>
    ensures { OnOk result ((summary.new, found.new.keys) ≡
        reported t.now.id
        (refused true (condition_walked checker.now (env_data_of env.now) t.now.body))
        (summary.old, found.old.keys)) }
{
    checker.say_body(alloc, t, env, summary, found)?;
    *summary = Summary {
        accepted: false,
        impossible: false,
    };
    Ok(())
}

// Whether an environment's principal meets the scope.
fn is_met(
    schema: &ValidatorSchema,
    constraint: &PrincipalOrResourceConstraint,
    principal: Option<&EntityType>,
) -> bool
    ensures { result ≡
        option_map_or (type_meets schema.now constraint.now) (option_copied principal.entry) false }
{
    match principal {
        Some(principal) => type_meets(schema, constraint, principal),
        None => false,
    }
}
