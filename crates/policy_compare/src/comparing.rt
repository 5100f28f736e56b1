//! What an edit changes in an environment.

ghost use Rattle.std.specs.Prelude.{◌≡◌, true, false, IfOk, IfSome, map};
ghost use Rattle.std.specs.Map.Iter.{deref};
ghost use Rattle.policy_set.specs.Data.{PolicyData};
ghost use Rattle.schema_core.specs.RequestEnvs.{env_data_of};
ghost use Rattle.policy_compare.specs.Compared.{AllowsAtMost};
ghost use Rattle.policy_expressions.specs.Slots.{has_slot};
ghost use Rattle.policy_compare.specs.Conditions.{HasSidesOf, IsConditionOf, is_permit};
ghost use Rattle.policy_compare.specs.Edits.{AreConditions, IsEdit};

use crate::Edit;
use crate::action::{condition_for_any, lists_action};
use crate::laws::comparison_holds;
use condition_compare::{Comparison, Condition, compare_conditions};
use condition_truth::laws::outline_decides;
use policy_expressions::laws::keys_are_once;
use policy_expressions::{BuildError, Expr};
use policy_set::{Effect, Policy};
use policy_values::Text;
use schema_types::Type;
use std::alloc::AllocError;
use typecheck_rules::laws::check_is_exact;
use typecheck_walk::{PolicyCheck, Setting, check_condition};

// What was found where some condition has no type.
const NOTHING: Comparison = Comparison {
    at_most: false,
    at_least: false,
};

/// What was found of the decisions by the policies before and after an edit, on the requests of an
/// environment. Only what the edit changes is typed and compared. The budget is of parts of propositions that
/// are looked at, and falls. Nothing is found where a condition has no type in the environment, which is so in
/// no environment of the schema where the policies are accepted.
pub fn compare_in<'a>(
    at: &Setting<'a, '_, '_, '_>,
    edit: &Edit<'a>,
    steps: &mut u64,
) -> Result<Comparison, AllocError>
    requires { IsEdit edit.now }
    ensures at_most { IfOk result (λ c. c.at_most ≡ true → AllowsAtMost at.now.schema.now
        (env_data_of at.now.env.now) edit.now.before.now.policies edit.now.after.now.policies) }
    ensures at_least { IfOk result (λ c. c.at_least ≡ true → AllowsAtMost at.now.schema.now
        (env_data_of at.now.env.now) edit.now.after.now.policies edit.now.before.now.policies) }
{
    comparison_holds();
    let Some(removed) = conditions_in(at, &edit.removed)? else {
        return Ok(NOTHING);
    };
    let Some(added) = conditions_in(at, &edit.added)? else {
        drop(removed);
        return Ok(NOTHING);
    };
    compare_conditions(at.alloc, &removed, &added, steps)
}

// The conditions of the policies, typed in the environment; none where one has no type there.
fn conditions_in<'a>(
    at: &Setting<'a, '_, '_, '_>,
    policies: &Vec<&'a Policy>,
) -> Result<Option<Vec<Condition>>, AllocError>
    ensures { IfOk result (λ o. IfSome o (λ cs. AreConditions at.now.schema.now
        (env_data_of at.now.env.now) (map (deref {X = PolicyData}) policies.now.items) cs.items)) }
{
    let mut conditions = Vec::new(at.alloc);
    for policy in policies {
        match condition_in(at, policy)? {
            Some(condition) => conditions.push(condition)?,
            None => {
                drop(conditions);
                return Ok(None);
            }
        }
    }
    Ok(Some(conditions))
}

// The condition of a policy, typed in the environment; none where it has no type there.
fn condition_in<'a>(
    at: &Setting<'a, '_, '_, '_>,
    policy: &'a Policy,
) -> Result<Option<Condition>, AllocError>
    ensures { IfOk result (λ o. IfSome o
        (IsConditionOf at.now.schema.now (env_data_of at.now.env.now) policy.now)) }
{
    match typed_of(at, policy)? {
        Some(typed) => Ok(Some(Condition {
            permits: is_permit(policy.effect()),
            typed,
        })),
        None => Ok(None),
    }
}

// The policy's condition, typed: without the test of the action, where this is true in the environment.
fn typed_of<'a>(
    at: &Setting<'a, '_, '_, '_>,
    policy: &'a Policy,
) -> Result<Option<Expr<Option<Type>>>, AllocError>
    ensures { IfOk result (λ o. IfSome o
        (HasSidesOf at.now.schema.now (env_data_of at.now.env.now) policy.now.condition)) }
{
    if lists_action(policy.action_constraint(), at.env) {
        match condition_for_any(at.alloc, policy.condition()) {
            Ok(condition) => return typed_in(at, policy.id(), &condition),
            Err(BuildError::OutOfMemory) => return Err(AllocError),
            // It is no deeper than the condition that is there.
            Err(BuildError::Nested) => {}
        }
    }
    typed_in(at, policy.id(), policy.condition())
}

// An expression without slots, typed in the environment; none where it has no type there.
fn typed_in<'a>(
    at: &Setting<'a, '_, '_, '_>,
    policy_id: &Text,
    condition: &Expr<()>,
) -> Result<Option<Expr<Option<Type>>>, AllocError>
    requires { has_slot condition.now ≡ false }
    ensures { IfOk result (λ o. IfSome o
        (HasSidesOf at.now.schema.now (env_data_of at.now.env.now) condition.now)) }
{
    check_is_exact();
    outline_decides();
    keys_are_once(condition);
    let _actions = at.schema.action_ids();
    match check_condition(at, policy_id, condition)? {
        PolicyCheck::Success(typed) => Ok(Some(typed)),
        PolicyCheck::Irrelevant(typed) => Ok(Some(typed)),
        PolicyCheck::Fail(errors) => {
            drop(errors);
            Ok(None)
        }
    }
}

fn is_permit(effect: Effect) -> bool
    ensures { result ≡ is_permit effect }
{
    match effect {
        Effect::Permit => true,
        Effect::Forbid => false,
    }
}
