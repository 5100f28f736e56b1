//! The review of policies.

ghost use Rattle.std.specs.Prelude.{◌≡◌, ◌↔◌, IfOk, OnOk, IfErr, IsTrue, MatchOption, map};
ghost use Rattle.std.specs.List.{list_all};
ghost use Rattle.policy_validate.specs.Accepted.{IsAccepted};
ghost use Rattle.policy_validate.specs.Rules.{keep_rules};
ghost use Rattle.policy_review.specs.Levels.{levels_of};
ghost use Rattle.policy_review.specs.Matrix.{matrix_of};
ghost use Rattle.policy_review.specs.Laws.{NeversAreNeverTrue, LevelsAreLeast};
ghost use Rattle.policy_review.specs.Refused.{WhyNone};
ghost use Rattle.policy_review.specs.Found.{passes_everywhere, level_at, IsReviewOf};

use crate::ReviewError;
use crate::laws::{least_levels_are_least, never_is_never_true};
use crate::matrix::{add_policies, add_templates};
use crate::rows::{PolicyLevel, Review};
use policy_set::PolicySet;
use policy_set::laws::{have_keys_once, is_policy_set};
use policy_typecheck::Typechecker;
use policy_validate::acceptance_laws::accepted_by_rules;
use policy_validate::{Validator, keep_rules};
use policy_values::Text;
use schema_core::{ValidationMode, ValidatorSchema};
use std::alloc::{AllocError, Global};
use std::collections::BTreeMap;
use typecheck_rules::laws::check_is_exact;
use typing_spec::{ExtensionSchemas, all_objects};

/// The review of policies: for each static policy and link, in each environment of the schema, whether it can
/// be true on requests of that type; and for each template and static policy the least level at which it
/// passes. Errs with `Validation` exactly where the policies are not accepted, and with `OutOfMemory` where
/// memory runs out.
///
/// The condition of each static policy and link is typed once in each environment, for its rows and its
/// level. Time and memory are those of the typing, but for the rows themselves.
pub fn review(
    alloc: Global,
    schema: &ValidatorSchema,
    policies: &PolicySet,
) -> Result<Review, ReviewError>
    ensures matrix { IfOk result (λ r. r.matrix.items ≡ matrix_of schema.now policies.now) }
    ensures levels { IfOk result (λ r. r.levels.items ≡ levels_of schema.now policies.now) }
    ensures accepted { OnOk result (IsAccepted schema.now policies.now) }
    ensures never { OnOk result (NeversAreNeverTrue schema.now policies.now) }
    ensures least { OnOk result (LevelsAreLeast schema.now policies.now) }
    ensures refused { IfErr result (WhyNone schema.now policies.now) }
{
    nevers_are_never_true(schema, policies);
    levels_are_least(schema, policies);
    match review_where_accepted(alloc, schema, policies)? {
        Some(review) => Ok(review),
        None => {
            let found = Validator::new(schema).validate(alloc, policies, ValidationMode::Strict)?;
            Err(ReviewError::Validation(found))
        }
    }
}

fn nevers_are_never_true(schema: &ValidatorSchema, policies: &PolicySet)
    ensures { IsAccepted schema.now policies.now → NeversAreNeverTrue schema.now policies.now }
{
    never_is_never_true();
    let _actions = schema.action_ids();
    is_policy_set(policies);
    have_keys_once(policies);
}

fn levels_are_least(schema: &ValidatorSchema, policies: &PolicySet)
    ensures { LevelsAreLeast schema.now policies.now }
{
    least_levels_are_least();
    // These stand in the contract alone.
    let _schema = schema;
    let _policies = policies;
}

// The review; nothing where the policies are not accepted. The checks that accept them give what it says.
fn review_where_accepted(
    alloc: Global,
    schema: &ValidatorSchema,
    policies: &PolicySet,
) -> Result<Option<Review>, AllocError>
    ensures { IfOk result
        (λ o. MatchOption o (¬ IsAccepted schema.now policies.now)
        (IsReviewOf schema.now policies.now)) }
{
    accepted_exactly(schema, policies);
    let objects = all_objects(alloc)?;
    let extensions = ExtensionSchemas::all_available(alloc, &objects)?;
    let typechecker = Typechecker::new(schema, &extensions, ValidationMode::Strict);
    if keep_rules(alloc, schema, &typechecker, policies)? {
        review_where_left(alloc, schema, &typechecker, policies)
    } else {
        Ok(None)
    }
}

// Policies are accepted exactly where they keep the rules and each condition passes its check in every
// environment.
fn accepted_exactly(schema: &ValidatorSchema, policies: &PolicySet)
    ensures { (IsTrue (keep_rules schema.now policies.now) ×
        IsTrue (list_all (passes_everywhere schema.now) policies.now.policies)) ↔
        IsAccepted schema.now policies.now }
{
    accepted_by_rules();
    let _actions = schema.action_ids();
    is_policy_set(policies);
}

// The same of policies that keep the rules.
fn review_where_left(
    alloc: Global,
    schema: &ValidatorSchema,
    typechecker: &Typechecker<'_, '_>,
    policies: &PolicySet,
) -> Result<Option<Review>, AllocError>
    requires typechecker { typechecker.now ≡ schema.now }
    requires rules { IsTrue (keep_rules schema.now policies.now) }
    ensures { IfOk result
        (λ o. MatchOption o (¬ IsAccepted schema.now policies.now)
        (IsReviewOf schema.now policies.now)) }
{
    accepted_exactly(schema, policies);
    check_is_exact();
    let mut levels = BTreeMap::new(alloc);
    add_templates(alloc, schema, typechecker, policies, &mut levels)?;
    let mut matrix = Vec::new(alloc);
    let passes = add_policies(
        alloc,
        schema,
        typechecker,
        policies,
        &mut matrix,
        &mut levels,
    )?;
    if !passes {
        return Ok(None);
    }
    let levels = collected(alloc, levels)?;
    Ok(Some(Review { matrix, levels }))
}

fn collected(
    alloc: Global,
    levels: BTreeMap<Text, Option<u32>>,
) -> Result<Vec<PolicyLevel>, AllocError>
    ensures { IfOk result (λ ls. ls.items ≡ map level_at levels.entries) }
{
    let mut collected = Vec::new(alloc);
    for (policy_id, level) in levels {
        collected.push(PolicyLevel { policy_id, level })?;
    }
    Ok(collected)
}
