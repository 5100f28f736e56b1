//! How the condition of a policy can end.

ghost use Rattle.std.specs.Prelude.{◌≡◌, true, false, map, IfOk, IfSome};
ghost use Rattle.policy_expressions.specs.Tree.{var};
ghost use Rattle.schema_core.specs.EnvData.{unlinked_envs};
ghost use Rattle.schema_core.specs.RequestEnvs.{env_data_of};
ghost use Rattle.policy_risks.specs.Closed.{IsClosed, IsClosedIn};
ghost use Rattle.condition_risks.specs.Listed.{expressions};
ghost use Rattle.policy_risks.specs.Typed.{IsTypedAs, stored_by};

use crate::cause::{Cause, add_causes};
use condition_risks::laws::without_risks;
use condition_risks::risks_of;
use policy_expressions::laws::keys_are_once;
use policy_expressions::{Expr, Var};
use policy_set::Policy;
use schema_core::{RequestEnv, ValidatorSchema};
use schema_types::Type;
use std::alloc::{AllocError, Global};
use typecheck_rules::laws::check_is_exact;
use typecheck_walk::{Extensions, PolicyCheck, Setting, check_condition};

/// What is assumed of the stores that are asked about.
#[derive(Clone, Copy, Debug, PartialEq, Eq)]
pub enum Assumed {
    /// Nothing.
    Nothing,
    /// That the request's principal and its resource are stored.
    PrincipalAndResource,
}

/// How the condition of a policy can end.
#[derive(Debug, Drop)]
pub struct Endings {
    /// It is true or false on every request and store that conform: it ends with no error.
    pub closed: bool,
    /// What can end it with an error, each once: none where it is closed.
    pub causes: Vec<Cause>,
}

/// How the condition of a policy can end, on the requests of all environments of the schema. It is called
/// closed where it has no risk in any of them, and not where it has no type in one, which is so in no
/// environment where the policies are accepted.
pub fn endings_of<'s>(
    alloc: Global,
    schema: &'s ValidatorSchema,
    extensions: &Extensions<'s, '_>,
    envs: &Vec<RequestEnv<'_>>,
    policy: &Policy,
    assumed: Assumed,
) -> Result<Endings, AllocError>
    requires { map env_data_of envs.now.items ≡ unlinked_envs schema.now }
    ensures { IfOk result (λ e. e.closed ≡ true → IsClosed schema.now assumed policy.now) }
{
    let mut closed = true;
    let mut causes = Vec::new(alloc);
    for env in envs {
        let closed_here = is_closed_in(
            alloc,
            schema,
            extensions,
            env,
            policy,
            assumed,
            &mut causes,
        )?;
        closed = closed && closed_here;
    }
    causes.sort()?;
    causes.dedup();
    Ok(Endings { closed, causes })
}

// Whether the condition has no risk on the requests of the environment; else what can end it is added.
fn is_closed_in<'a, 's>(
    alloc: Global,
    schema: &'s ValidatorSchema,
    extensions: &Extensions<'s, '_>,
    env: &'a RequestEnv<'a>,
    policy: &Policy,
    assumed: Assumed,
    causes: &mut Vec<Cause>,
) -> Result<bool, AllocError>
    ensures { IfOk result (λ b. b ≡ true →
        IsClosedIn schema.now (env_data_of env.now) assumed policy.now) }
{
    let at = Setting {
        alloc,
        schema,
        env,
        extensions,
    };
    match typed_in(&at, policy)? {
        Some(typed) => is_without_risks(alloc, schema, env, policy, &typed, assumed, causes),
        None => Ok(false),
    }
}

// The condition, typed in the environment; none where it has no type there.
fn typed_in<'a>(
    at: &Setting<'a, '_, '_, '_>,
    policy: &Policy,
) -> Result<Option<Expr<Option<Type>>>, AllocError>
    ensures { IfOk result (λ o. IfSome o
        (IsTypedAs at.now.schema.now (env_data_of at.now.env.now) policy.now.condition)) }
{
    check_is_exact();
    match check_condition(at, policy.id(), policy.condition())? {
        PolicyCheck::Success(typed) => Ok(Some(typed)),
        PolicyCheck::Irrelevant(typed) => Ok(Some(typed)),
        PolicyCheck::Fail(errors) => {
            drop(errors);
            Ok(None)
        }
    }
}

// Whether the typed condition has no risk, where what is assumed is stored; else what can end it is added.
fn is_without_risks(
    alloc: Global,
    schema: &ValidatorSchema,
    env: &RequestEnv<'_>,
    policy: &Policy,
    typed: &Expr<Option<Type>>,
    assumed: Assumed,
    causes: &mut Vec<Cause>,
) -> Result<bool, AllocError>
    requires { IsTypedAs schema.now (env_data_of env.now) policy.now.condition typed.now }
    ensures { IfOk result (λ b. b ≡ true →
        IsClosedIn schema.now (env_data_of env.now) assumed policy.now) }
{
    without_risks();
    keys_are_once(policy.condition());
    let _actions = schema.action_ids();
    let principal = Expr::var(Var::Principal, None, None);
    let resource = Expr::var(Var::Resource, None, None);
    let stored = stored_by(alloc, assumed, &principal, &resource)?;
    let risks = risks_of(alloc, &stored, typed)?;
    add_causes(&risks, causes)?;
    Ok(risks.is_empty())
}

// What is assumed to be stored.
fn stored_by<'a>(
    alloc: Global,
    assumed: Assumed,
    principal: &'a Expr<Option<Type>>,
    resource: &'a Expr<Option<Type>>,
) -> Result<Vec<&'a Expr<Option<Type>>>, AllocError>
    ensures { IfOk result (λ v. expressions v.items ≡ stored_by assumed principal.now resource.now) }
{
    let mut stored = Vec::new(alloc);
    match assumed {
        Assumed::Nothing => {}
        Assumed::PrincipalAndResource => {
            stored.push(principal)?;
            stored.push(resource)?;
        }
    }
    Ok(stored)
}
