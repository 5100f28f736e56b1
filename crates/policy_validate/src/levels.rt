//! Policies that are checked for a level.

ghost use Rattle.std.specs.Prelude.{◌≡◌, ◌↔◌, ◌++◌, ◌∷◌, ◌&&◌, [], fold, map, flat_map, IfOk, OnOk, MatchOption, if◌then◌else◌};
ghost use Rattle.schema_core.specs.EnvData.{action_in};
ghost use Rattle.schema_core.specs.RequestEnvs.{env_data_of};
ghost use Rattle.policy_scope.specs.Names.{with_new};
ghost use Rattle.policy_set.specs.PolicySet.{written};
ghost use Rattle.level_spec.specs.Findings.{level_faults};
ghost use Rattle.level_validate.specs.Errors.{level_error};
ghost use Rattle.level_validate.specs.Faults.{fault_cmp};
ghost use Rattle.policy_typecheck.specs.Checks.{errors_in, is_false};
ghost use Rattle.policy_typecheck.specs.Policies.{impossible};
ghost use Rattle.policy_validate.specs.Accepted.{typing_errors, warnings_of};
ghost use Rattle.policy_validate.specs.AtLevel.{faults_reported, has_any, IsTypedAtLevel};
ghost use Rattle.policy_validate.specs.Levels.{or_else, level_errors_of, errors_at_level, level_findings_of, IsAcceptedAt, CutIsEnough};

use crate::Validator;
use crate::laws::{accepted_levels_are_sound, no_errors_where_accepted_at};
use crate::validator::{add_all_links, add_typing, add_untyped};
use findings::ImpossiblePolicy;
use level_validate::LevelFaults;
use policy_expressions::Expr;
use policy_scope::{ValidationError, ValidationResult, ValidationWarning};
use policy_set::laws::{have_keys_once, is_policy_set};
use policy_set::{PolicySet, Template};
use policy_typecheck::{PolicyCheck, Typechecker, is_too_deep, linked_request_envs};
use policy_values::Text;
use schema_core::{RequestEnv, ValidationMode, ValidatorSchema};
use schema_types::Type;
use std::alloc::{AllocError, Global};
use typing_spec::{ExtensionSchemas, all_objects};

impl<'a> Validator<'a> {
    /// All findings on policies that are checked for a level: those of [`Validator::validate`], and behind
    /// them, for each template and static policy on which there are no other errors, that it asks for
    /// entities which are further from the request than the level allows, or for those of literals or slots.
    /// Where there is no error, each policy has, on the store cut at the level, the outcome that it has on
    /// the whole store, for each request and store that conform.
    pub fn validate_with_level(
        &self,
        alloc: Global,
        policies: &PolicySet,
        mode: ValidationMode,
        level: u32,
    ) -> Result<ValidationResult, AllocError>
        ensures found { IfOk result (λ found. found ≡ level_findings_of self.now level policies.now) }
        ensures accepted { IfOk result (λ found. (found.errors ≡ []) ↔
            IsAcceptedAt self.now level policies.now) }
        ensures sound { IfOk result (λ found. found.errors ≡ [] →
            CutIsEnough self.now level policies.now) }
    {
        let schema = self.schema();
        let objects = all_objects(alloc)?;
        let extensions = ExtensionSchemas::all_available(alloc, &objects)?;
        let typechecker = Typechecker::new(schema, &extensions, mode);
        checked_at(alloc, schema, &typechecker, policies, level)
    }
}

// All findings, and what holds where there is no error among them.
fn checked_at(
    alloc: Global,
    schema: &ValidatorSchema,
    typechecker: &Typechecker<'_, '_>,
    policies: &PolicySet,
    level: u32,
) -> Result<ValidationResult, AllocError>
    requires { typechecker.now ≡ schema.now }
    ensures found { IfOk result (λ found. found ≡ level_findings_of schema.now level policies.now) }
    ensures accepted { IfOk result (λ found. (found.errors ≡ []) ↔
        IsAcceptedAt schema.now level policies.now) }
    ensures sound { IfOk result (λ found. found.errors ≡ [] →
        CutIsEnough schema.now level policies.now) }
{
    no_errors_where_accepted_at();
    sound_where_accepted(schema, policies, level);
    findings_at(alloc, schema, typechecker, policies, level)
}

// Where no error is found, the store cut at the level is enough.
fn sound_where_accepted(schema: &ValidatorSchema, policies: &PolicySet, level: u32)
    ensures { (level_findings_of schema.now level policies.now).errors ≡ [] →
        CutIsEnough schema.now level policies.now }
{
    no_errors_where_accepted_at();
    accepted_levels_are_sound();
    let _actions = schema.action_ids();
    is_policy_set(policies);
    have_keys_once(policies);
    let _level = level;
}

fn findings_at(
    alloc: Global,
    schema: &ValidatorSchema,
    typechecker: &Typechecker<'_, '_>,
    policies: &PolicySet,
    level: u32,
) -> Result<ValidationResult, AllocError>
    requires { typechecker.now ≡ schema.now }
    ensures { IfOk result (λ found. found ≡ level_findings_of schema.now level policies.now) }
{
    let mut errors = Vec::new(alloc);
    let mut warnings = Vec::new(alloc);
    add_all_at(
        alloc,
        schema,
        typechecker,
        policies,
        level,
        &mut errors,
        &mut warnings,
    )?;
    add_all_links(alloc, schema, policies, &mut errors)?;
    Ok(ValidationResult::new(errors, warnings))
}

// Adds the findings on all templates and static policies.
fn add_all_at(
    alloc: Global,
    schema: &ValidatorSchema,
    typechecker: &Typechecker<'_, '_>,
    policies: &PolicySet,
    level: u32,
    errors: &mut Vec<ValidationError>,
    warnings: &mut Vec<ValidationWarning>,
) -> Result<(), AllocError>
    requires { typechecker.now ≡ schema.now }
    ensures errors { OnOk result (errors.new.items ≡ errors.old.items ++
        flat_map (errors_at_level schema.now level) (written policies.now)) }
    ensures warnings { OnOk result (warnings.new.items ≡ warnings.old.items ++
        flat_map (warnings_of schema.now) (written policies.now)) }
{
    for template in policies.written(alloc)? {
        add_at(
            alloc,
            schema,
            typechecker,
            template,
            level,
            errors,
            warnings,
        )?;
    }
    Ok(())
}

// Adds the findings on a template or a static policy: those on levels only where there are no other errors.
fn add_at(
    alloc: Global,
    schema: &ValidatorSchema,
    typechecker: &Typechecker<'_, '_>,
    template: &Template,
    level: u32,
    errors: &mut Vec<ValidationError>,
    warnings: &mut Vec<ValidationWarning>,
) -> Result<(), AllocError>
    requires { typechecker.now ≡ schema.now }
    ensures errors { OnOk result (errors.new.items ≡ errors.old.items ++
        errors_at_level schema.now level template.now) }
    ensures warnings { OnOk result (warnings.new.items ≡ warnings.old.items ++
        warnings_of schema.now template.now) }
{
    let mut found = Vec::new(alloc);
    add_untyped(alloc, schema, template, &mut found)?;
    if found.is_empty() {
        add_typed_at(
            alloc,
            schema,
            typechecker,
            template,
            level,
            errors,
            warnings,
        )
    } else {
        add_typing(alloc, typechecker, template, &mut found, warnings)?;
        errors.append(&mut found)?;
        Ok(())
    }
}

// The same where nothing is found but by typing.
fn add_typed_at(
    alloc: Global,
    schema: &ValidatorSchema,
    typechecker: &Typechecker<'_, '_>,
    template: &Template,
    level: u32,
    errors: &mut Vec<ValidationError>,
    warnings: &mut Vec<ValidationWarning>,
) -> Result<(), AllocError>
    requires { typechecker.now ≡ schema.now }
    ensures errors { OnOk result (errors.new.items ≡ errors.old.items ++
        or_else (typing_errors schema.now template.now)
        (level_errors_of schema.now level template.now)) }
    ensures warnings { OnOk result (warnings.new.items ≡ warnings.old.items ++
        warnings_of schema.now template.now) }
{
    match typed_at(alloc, schema, typechecker, template, level)? {
        Some(typed) => add_levels(alloc, template.id(), level, &typed, errors, warnings),
        None => add_typing(alloc, typechecker, template, errors, warnings),
    }
}

// What typing leaves of a condition where it finds no error: whether it is false in each environment, and
// what of it is too far from the request.
#[derive(Drop)]
struct TypedAt {
    impossible: bool,
    faults: LevelFaults,
}

// Types the condition in its environments, one after another, up to the first in which it finds an error.
fn typed_at(
    alloc: Global,
    schema: &ValidatorSchema,
    typechecker: &Typechecker<'_, '_>,
    template: &Template,
    level: u32,
) -> Result<Option<TypedAt>, AllocError>
    requires { typechecker.now ≡ schema.now }
    ensures { IfOk result
        (λ o. MatchOption o (¬ (typing_errors schema.now template.now ≡ []))
        (IsTypedAtLevel schema.now level template.now)) }
{
    if is_too_deep(template.condition()) {
        return Ok(None);
    }
    let mut typed = TypedAt {
        impossible: true,
        faults: LevelFaults::new(alloc),
    };
    for env in linked_request_envs(alloc, schema, template)? {
        let check = typechecker.typecheck_by_single_request_env(alloc, template, &env)?;
        if has_errors(&check) {
            drop(check);
            drop(typed);
            return Ok(None);
        }
        typed = with_check(alloc, typed, &env, level, check)?;
    }
    Ok(Some(typed))
}

fn has_errors(check: &PolicyCheck) -> bool
    ensures { result ≡ has_any (errors_in check.now) }
{
    match check {
        PolicyCheck::Success(_) | PolicyCheck::Irrelevant(_) => false,
        PolicyCheck::Fail(errors) => match errors.as_slice() {
            [] => false,
            _ => true,
        },
    }
}

// With what one check more leaves.
fn with_check(
    alloc: Global,
    typed: TypedAt,
    env: &RequestEnv<'_>,
    level: u32,
    check: PolicyCheck,
) -> Result<TypedAt, AllocError>
    ensures impossible { IfOk result (λ a. a.impossible ≡ (is_false check && typed.impossible)) }
    ensures faults { IfOk result (λ a. a.faults ≡
        fold (with_new fault_cmp) typed.faults (faults_reported level (env_data_of env.now) check)) }
{
    let TypedAt { impossible, faults } = typed;
    match check {
        PolicyCheck::Success(condition) => {
            let faults = with_condition(alloc, faults, env, level, condition)?;
            Ok(TypedAt {
                impossible: false,
                faults,
            })
        }
        PolicyCheck::Irrelevant(condition) => {
            let faults = with_condition(alloc, faults, env, level, condition)?;
            Ok(TypedAt { impossible, faults })
        }
        PolicyCheck::Fail(errors) => {
            drop(errors);
            Ok(TypedAt {
                impossible: false,
                faults,
            })
        }
    }
}

fn with_condition(
    alloc: Global,
    faults: LevelFaults,
    env: &RequestEnv<'_>,
    level: u32,
    condition: Expr<Option<Type>>,
) -> Result<LevelFaults, AllocError>
    ensures { IfOk result (λ more. more ≡
        fold (with_new fault_cmp) faults
        (level_faults (action_in (env_data_of env.now)) level condition)) }
{
    let more = faults.with(alloc, env, level, &condition);
    drop(condition);
    more
}

// Adds what is found on the levels of a template or a static policy in which typing finds no error, and warns
// where it is false everywhere.
fn add_levels(
    alloc: Global,
    id: &Text,
    level: u32,
    typed: &TypedAt,
    errors: &mut Vec<ValidationError>,
    warnings: &mut Vec<ValidationWarning>,
) -> Result<(), AllocError>
    ensures errors { OnOk result (errors.new.items ≡ errors.old.items ++
        map (level_error id.now level) typed.now.faults) }
    ensures warnings { OnOk result (warnings.new.items ≡ warnings.old.items ++
        (if typed.now.impossible then impossible id.now ∷ [] else [])) }
{
    let mut found = typed.faults.errors(alloc, id, level)?;
    errors.append(&mut found)?;
    if typed.impossible {
        warnings.push(ValidationWarning::ImpossiblePolicy(ImpossiblePolicy {
            source_loc: None,
            policy_id: id.try_clone()?,
        }))?;
    }
    Ok(())
}
