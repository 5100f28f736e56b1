//! What is said of policies in the environments of a schema.

ghost use Rattle.std.specs.Prelude.{◌≡◌, ◌++◌, ◌∷◌, [], IfOk, OnOk, Some, None, fold, map, flat_map};
ghost use Rattle.std.specs.Bool.{OnTrue};
ghost use Rattle.std.specs.BTreeMap.{insert_entry};
ghost use Rattle.std.specs.List.{list_all};
ghost use Rattle.std.specs.Option.{option_to_list};
ghost use Rattle.policy_values.specs.Uid.{text_cmp};
ghost use Rattle.schema_core.specs.EnvData.{request_type_in, unlinked_envs};
ghost use Rattle.schema_core.specs.RequestEnvs.{env_data_of};
ghost use Rattle.policy_set.specs.Condition.{written_of};
ghost use Rattle.policy_set.specs.PolicySet.{statics};
ghost use Rattle.level_spec.specs.Levels.{greater};
ghost use Rattle.policy_review.specs.Levels.{greatest};
ghost use Rattle.policy_review.specs.Matrix.{row_at, rows_of};
ghost use Rattle.policy_review.specs.Found.{passed_verdict, level_found_in, passes_everywhere, with_level, with_static};

use crate::levels::{level_of, raised_by};
use crate::rows::ReviewRow;
use link_spec::laws::statics_are_unlinked;
use policy_set::{Policy, PolicySet};
use policy_typecheck::{PolicyCheck, Typechecker, Verdict};
use policy_values::Text;
use schema_core::{RequestEnv, ValidatorSchema};
use std::alloc::{AllocError, Global};
use std::collections::BTreeMap;
use typecheck_rules::laws::check_is_exact;

/// Adds the rows of all policies, and the levels of static ones. Answers whether each condition passes its
/// check in every environment of the schema: then all is added.
pub(crate) fn add_policies(
    alloc: Global,
    schema: &ValidatorSchema,
    typechecker: &Typechecker<'_, '_>,
    policies: &PolicySet,
    matrix: &mut Vec<ReviewRow>,
    levels: &mut BTreeMap<Text, Option<u32>>,
) -> Result<bool, AllocError>
    requires { typechecker.now ≡ schema.now }
    ensures passes { IfOk result (λ b. b ≡
        list_all (passes_everywhere schema.now) policies.now.policies) }
    ensures rows { IfOk result
        (λ b. OnTrue b (matrix.new.items ≡ matrix.old.items ++
        flat_map (rows_of schema.now) policies.now.policies)) }
    ensures levels { IfOk result
        (λ b. OnTrue b (levels.new.entries ≡
        fold (with_level schema.now) levels.old.entries (statics policies.now))) }
{
    for policy in policies.policies() {
        let passes = add_policy(alloc, schema, typechecker, policy, matrix, levels)?;
        if !passes {
            return Ok(false);
        }
    }
    Ok(true)
}

/// Adds the levels of all templates.
pub(crate) fn add_templates(
    alloc: Global,
    schema: &ValidatorSchema,
    typechecker: &Typechecker<'_, '_>,
    policies: &PolicySet,
    levels: &mut BTreeMap<Text, Option<u32>>,
) -> Result<(), AllocError>
    requires { typechecker.now ≡ schema.now }
    ensures { OnOk result (levels.new.entries ≡
        fold (with_level schema.now) levels.old.entries policies.now.templates) }
{
    for template in policies.templates() {
        let level = level_of(alloc, schema, typechecker, template)?;
        put(levels, template.id(), level)?;
    }
    Ok(())
}

// The same of a policy. It is typed once in each environment, also for its level.
fn add_policy(
    alloc: Global,
    schema: &ValidatorSchema,
    typechecker: &Typechecker<'_, '_>,
    policy: &Policy,
    matrix: &mut Vec<ReviewRow>,
    levels: &mut BTreeMap<Text, Option<u32>>,
) -> Result<bool, AllocError>
    requires { typechecker.now ≡ schema.now }
    ensures passes { IfOk result (λ b. b ≡ passes_everywhere schema.now policy.now) }
    ensures rows { IfOk result
        (λ b. OnTrue b (matrix.new.items ≡ matrix.old.items ++ rows_of schema.now policy.now)) }
    ensures levels { IfOk result
        (λ b. OnTrue b (levels.new.entries ≡
        with_static schema.now levels.old.entries policy.now)) }
{
    if policy.is_static() {
        add_static(alloc, schema, typechecker, policy, matrix, levels)
    } else {
        // A link has no level of its own, and where there is none nothing is walked through for it.
        add_rows(alloc, schema, typechecker, policy, &mut None, matrix)
    }
}

fn add_static(
    alloc: Global,
    schema: &ValidatorSchema,
    typechecker: &Typechecker<'_, '_>,
    policy: &Policy,
    matrix: &mut Vec<ReviewRow>,
    levels: &mut BTreeMap<Text, Option<u32>>,
) -> Result<bool, AllocError>
    requires { typechecker.now ≡ schema.now }
    ensures passes { IfOk result (λ b. b ≡ passes_everywhere schema.now policy.now) }
    ensures rows { IfOk result
        (λ b. OnTrue b (matrix.new.items ≡ matrix.old.items ++ rows_of schema.now policy.now)) }
    ensures levels { IfOk result
        (λ b. OnTrue b (levels.new.entries ≡
        with_level schema.now levels.old.entries (written_of policy.now))) }
{
    statics_are_unlinked();
    let _condition = policy.condition();
    let mut level = Some(0);
    let passes = add_rows(alloc, schema, typechecker, policy, &mut level, matrix)?;
    if !passes {
        return Ok(false);
    }
    put(levels, policy.id(), level)?;
    Ok(true)
}

// Adds the rows of a policy, and raises the level to the least at which it passes.
fn add_rows(
    alloc: Global,
    schema: &ValidatorSchema,
    typechecker: &Typechecker<'_, '_>,
    policy: &Policy,
    level: &mut Option<u32>,
    matrix: &mut Vec<ReviewRow>,
) -> Result<bool, AllocError>
    requires { typechecker.now ≡ schema.now }
    ensures passes { IfOk result (λ b. b ≡ passes_everywhere schema.now policy.now) }
    ensures rows { IfOk result
        (λ b. OnTrue b (matrix.new.items ≡ matrix.old.items ++ rows_of schema.now policy.now)) }
    ensures level { IfOk result
        (λ b. OnTrue b (level.new ≡
        greater level.old (greatest
        (map (level_found_in schema.now policy.now.condition) (unlinked_envs schema.now))))) }
{
    check_is_exact();
    for env in schema.unlinked_request_envs(alloc)? {
        let check = typechecker.typecheck_linked_in(alloc, policy, &env)?;
        let Some(verdict) = passed_verdict(&check) else {
            drop(check);
            return Ok(false);
        };
        add_row(policy.id(), &env, verdict, matrix)?;
        let raised = raised_by(alloc, policy.id(), *level, &env, check)?;
        *level = raised;
    }
    Ok(true)
}

fn passed_verdict(check: &PolicyCheck) -> Option<Verdict>
    ensures { result ≡ passed_verdict check.now }
{
    match check {
        PolicyCheck::Success(_) => Some(Verdict::May),
        PolicyCheck::Irrelevant(_) => Some(Verdict::Never),
        PolicyCheck::Fail(_) => None,
    }
}

// Adds what is said of a policy in an environment.
fn add_row(
    policy_id: &Text,
    env: &RequestEnv<'_>,
    verdict: Verdict,
    matrix: &mut Vec<ReviewRow>,
) -> Result<(), AllocError>
    ensures { OnOk result (matrix.new.items ≡ matrix.old.items ++
        option_to_list (row_at policy_id.now (env_data_of env.now) verdict)) }
{
    if let Some(request_type) = env.to_request_type()? {
        matrix.push(ReviewRow {
            policy_id: policy_id.try_clone()?,
            request_type,
            verdict,
        })?;
    }
    Ok(())
}

fn put(
    levels: &mut BTreeMap<Text, Option<u32>>,
    id: &Text,
    level: Option<u32>,
) -> Result<(), AllocError>
    ensures { OnOk result (levels.new.entries ≡ insert_entry text_cmp levels.old.entries id.now level) }
{
    levels.insert(id.try_clone()?, level)?;
    Ok(())
}
