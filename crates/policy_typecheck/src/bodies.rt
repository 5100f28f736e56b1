//! The check of a template's body in the environments that meet its scope.

ghost use Rattle.std.specs.Prelude.{◌≡◌, OnOk};
ghost use Rattle.schema_core.specs.EnvData.{unlinked};
ghost use Rattle.schema_core.specs.Environments.{environment};
ghost use Rattle.schema_core.specs.Faults.{IsSchema};
ghost use Rattle.schema_core.specs.RequestEnvs.{env_data_of};
ghost use Rattle.policy_typecheck.specs.Reported.{all_reported};
ghost use Rattle.link_spec.specs.Met.{body_check, met_at, met_envs, met_with};

use crate::Typechecker;
use crate::met::met_actions;
use crate::policies::Summary;
use findings::ValidationError;
use indexmap::IndexSet;
use policy_scope::type_meets;
use policy_set::Template;
use policy_values::EntityType;
use schema_core::{RequestEnv, ValidatorActionId};
use std::alloc::{AllocError, Global};

/// Checks the body in the environments of the schema that meet the scope, one after another.
pub(crate) fn check_bodies(
    checker: &Typechecker<'_, '_>,
    alloc: Global,
    t: &Template,
    summary: &mut Summary,
    found: &mut IndexSet<ValidationError>,
) -> Result<(), AllocError>
    ensures schema { IsSchema checker.now }
    ensures reported { OnOk result ((summary.new, found.new.keys) ≡
        all_reported t.now.id (body_check checker.now t.now) (summary.old, found.old.keys)
        (met_envs checker.now t.now)) }
{
    for action in met_actions(alloc, checker.schema(), t.action_constraint())? {
        check_of_action(checker, alloc, t, action, summary, found)?;
    }
    Ok(())
}

// In those of an action.
fn check_of_action(
    checker: &Typechecker<'_, '_>,
    alloc: Global,
    t: &Template,
    action: &ValidatorActionId,
    summary: &mut Summary,
    found: &mut IndexSet<ValidationError>,
) -> Result<(), AllocError>
    ensures { OnOk result ((summary.new, found.new.keys) ≡
        all_reported t.now.id (body_check checker.now t.now) (summary.old, found.old.keys)
        (met_with checker.now t.now action.now)) }
{
    let schema = checker.schema();
    for principal in action.applies_to_principals() {
        if type_meets(schema, t.principal_constraint(), principal) {
            check_of_principal(checker, alloc, t, action, principal, summary, found)?;
        }
    }
    Ok(())
}

// In those with a principal type.
fn check_of_principal(
    checker: &Typechecker<'_, '_>,
    alloc: Global,
    t: &Template,
    action: &ValidatorActionId,
    principal: &EntityType,
    summary: &mut Summary,
    found: &mut IndexSet<ValidationError>,
) -> Result<(), AllocError>
    ensures { OnOk result ((summary.new, found.new.keys) ≡
        all_reported t.now.id (body_check checker.now t.now) (summary.old, found.old.keys)
        (met_at checker.now t.now action.now principal.now)) }
{
    let schema = checker.schema();
    for resource in action.applies_to_resources() {
        if type_meets(schema, t.resource_constraint(), resource) {
            let env = env_with(action, principal, resource);
            checker.say_body(alloc, t, &env, summary, found)?;
        }
    }
    Ok(())
}

// The environment of these types, without slots.
fn env_with<'a>(
    action: &'a ValidatorActionId,
    principal: &'a EntityType,
    resource: &'a EntityType,
) -> RequestEnv<'a>
    ensures { env_data_of result ≡
        unlinked action.now (environment principal.now action.now.name resource.now) }
{
    RequestEnv::DeclaredAction {
        principal,
        action: action.name(),
        resource,
        context: action.context(),
        principal_slot: None,
        resource_slot: None,
    }
}
