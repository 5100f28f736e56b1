//! The test of the action in the scope of a policy, where an environment decides it.

ghost use Rattle.std.specs.Prelude.{◌≡◌, IfOk};
ghost use Rattle.std.specs.List.{list_any};
ghost use Rattle.policy_values.specs.Uid.{uid_eq};
ghost use Rattle.schema_core.specs.EnvData.{action_in};
ghost use Rattle.schema_core.specs.RequestEnvs.{env_data_of};
ghost use Rattle.policy_set.specs.Condition.{anything};
ghost use Rattle.policy_compare.specs.ActionTest.{condition_for_any, lists_action, scope_for_any, sides_for_any};

use policy_expressions::{BuildError, Expr, ExprKind, Literal};
use policy_set::ActionConstraint;
use policy_values::EntityUID;
use schema_core::RequestEnv;
use std::alloc::Global;
use std::cmp::Ordering;

/// Whether the scope asks for one of a list of actions, and the environment's action itself is in the list:
/// then the test is true on each request of the environment.
pub(crate) fn lists_action(constraint: &ActionConstraint, env: &RequestEnv<'_>) -> bool
    ensures { result ≡ lists_action constraint.now (action_in (env_data_of env.now)) }
{
    match (constraint, env.action_entity_uid()) {
        (ActionConstraint::In(listed), Some(action)) => has(listed.as_slice(), action),
        _ => false,
    }
}

fn has(listed: &[EntityUID], action: &EntityUID) -> bool
    ensures { result ≡ list_any (uid_eq action.now) listed.now }
{
    listed.iter().any(|uid| is_same(action, uid))
}

fn is_same(one: &EntityUID, other: &EntityUID) -> bool
    ensures { result ≡ uid_eq one.now other.now }
{
    one.cmp(other) == Ordering::Equal
}

/// The condition of a policy with a scope that asks nothing of the action.
pub(crate) fn condition_for_any(alloc: Global, condition: &Expr<()>) -> Result<Expr<()>, BuildError>
    ensures { IfOk result (λ e. e ≡ condition_for_any condition.now) }
{
    match condition.kind() {
        ExprKind::And(scope, body) => {
            let scope = scope_for_any(alloc, scope)?;
            let body = body.try_clone(alloc)?;
            Expr::and(alloc, scope, body, (), None)
        }
        _ => Ok(condition.try_clone(alloc)?),
    }
}

// The scope, that asks nothing of the action.
fn scope_for_any(alloc: Global, scope: &Expr<()>) -> Result<Expr<()>, BuildError>
    ensures { IfOk result (λ e. e ≡ scope_for_any scope.now) }
{
    match scope.kind() {
        ExprKind::And(sides, resource) => {
            let sides = sides_for_any(alloc, sides)?;
            let resource = resource.try_clone(alloc)?;
            Expr::and(alloc, sides, resource, (), None)
        }
        _ => Ok(scope.try_clone(alloc)?),
    }
}

// What the scope asks of the principal, and nothing of the action.
fn sides_for_any(alloc: Global, sides: &Expr<()>) -> Result<Expr<()>, BuildError>
    ensures { IfOk result (λ e. e ≡ sides_for_any sides.now) }
{
    match sides.kind() {
        ExprKind::And(principal, _) => {
            let principal = principal.try_clone(alloc)?;
            Expr::and(alloc, principal, anything(), (), None)
        }
        _ => Ok(sides.try_clone(alloc)?),
    }
}

fn anything() -> Expr<()>
    ensures { result ≡ anything }
{
    Expr::lit(Literal::Bool(true), (), None)
}
