//! The validator.

ghost use Rattle.std.specs.Prelude.{◌≡◌, ◌↔◌, ◌≤◌, ◌+◌, ◌++◌, [], length, map, flat_map, IfOk, OnOk};
ghost use Rattle.std.specs.List.{AllByRecursion};
ghost use Rattle.findings.specs.declared.error.ValidationError.TheVariants as error;
ghost use Rattle.schema_core.specs.EnvData.{unlinked_envs};
ghost use Rattle.link_spec.specs.Accepted.{IsTypedIn};
ghost use Rattle.link_spec.specs.Linked.{linked_envs};
ghost use Rattle.policy_set.specs.PolicySet.{IsTaken, written, links};
ghost use Rattle.policy_validate.specs.Accepted.{typing_errors, errors_of_written, errors_of_link, warnings_of, findings_of, IsAccepted};
ghost use Rattle.policy_validate.specs.AtLevel.{untyped_errors};
ghost use Rattle.policy_validate.specs.Entries.{findings_of_entry, findings_of_policy, findings_of_written, steps_of_entry, steps_of_policy};

use crate::laws::{accepted_are_typed, no_errors_where_accepted};
use plain_lemmas::Steps;
use policy_scope::{
    InvalidActionApplication, InvalidEnumEntity, UnrecognizedActionId, UnrecognizedEntityType,
    ValidationError, ValidationResult, ValidationWarning, validate_action_ids,
    validate_entity_types, validate_entity_types_in_slots, validate_enum_entity,
    validate_linked_action_application, validate_template_action_application,
};
use policy_set::laws::is_policy_set;
use policy_set::{Policy, PolicySet, Template};
use policy_typecheck::{Typechecker, linked_request_envs};
use policy_values::Text;
use schema_core::{ValidationMode, ValidatorSchema};
use std::alloc::{AllocError, Global};
use std::marker::Model;
use std::sync::ledger::Ledger;
use typing_spec::{ExtensionSchemas, all_objects};

/// Validates policies against a schema.
#[derive(Debug, Drop)]
pub struct Validator<'a> {
    schema: &'a ValidatorSchema,
}

impl<'a> Model for Validator<'a> {
    ghost use Rattle.schema_core.specs.Schema.{SchemaData, coded_schema};

    ghost Value = { SchemaData };

    ghost coded = { coded_schema };

    ghost view = { λ v. v.schema.now };
}

impl<'a> Validator<'a> {
    /// A validator for the schema.
    pub fn new(schema: &'a ValidatorSchema) -> Validator<'a>
        ensures { result ≡ schema.now }
    {
        Validator { schema }
    }

    /// The schema.
    pub fn schema(&self) -> &ValidatorSchema
        ensures { result.now ≡ self.now }
    {
        self.schema
    }

    /// All findings on the policies. The set is accepted exactly where there is no error among them.
    ///
    /// First come the errors of templates and static policies in the order of their ids, of each in this
    /// order: types that are not declared, ids that their enumerated types do not list, actions that are not
    /// declared, a scope that no declared action meets, and then what typing its condition finds, environment
    /// by environment, or that the condition is too deep to be typed. Then come those of links in the order
    /// of their ids, of each: types of the ids that it gives for slots, and a scope that no declared action
    /// meets. A template or a static policy is warned of where its condition is false in every environment.
    pub fn validate(
        &self,
        alloc: Global,
        policies: &PolicySet,
        mode: ValidationMode,
    ) -> Result<ValidationResult, AllocError>
        ensures found { IfOk result (λ found. found ≡ findings_of self.now policies.now) }
        ensures accepted { IfOk result (λ found. (found.errors ≡ []) ↔
            IsAccepted self.now policies.now) }
        ensures typed { IfOk result (λ found. found.errors ≡ [] →
            AllByRecursion (λ p.
            IsTypedIn self.now p.condition (unlinked_envs self.now)) policies.now.policies) }
    {
        let objects = all_objects(alloc)?;
        let extensions = ExtensionSchemas::all_available(alloc, &objects)?;
        let typechecker = Typechecker::new(self.schema, &extensions, mode);
        checked(alloc, self.schema, &typechecker, policies)
    }

    /// The findings on the entry of the set that has the id, in strict mode: of a template or a static policy
    /// its own errors and warnings, of a link its own errors, each as [`Validator::validate`] has them. A
    /// step is counted for each environment in which a condition is typed; the condition of a link is not.
    pub fn validate_entry<L: Ledger>(
        &self,
        alloc: Global,
        policies: &PolicySet,
        id: &Text,
        steps: &mut Steps<L>,
    ) -> Result<ValidationResult, AllocError>
        requires { IsTaken policies.now id.now }
        ensures found { IfOk result (λ found. found ≡ findings_of_entry self.now policies.now id.now) }
        ensures steps { steps.new ≤ steps.old + steps_of_entry self.now policies.now id.now }
    {
        if let Some(template) = policies.template(id) {
            return written_findings(alloc, self.schema, template, steps);
        }
        match policies.policy(id) {
            Some(policy) => policy_findings(alloc, self.schema, policy, steps),
            None => Ok(ValidationResult::new(Vec::new(alloc), Vec::new(alloc))),
        }
    }
}

// The findings on a policy, static or a link.
fn policy_findings<L: Ledger>(
    alloc: Global,
    schema: &ValidatorSchema,
    policy: &Policy,
    steps: &mut Steps<L>,
) -> Result<ValidationResult, AllocError>
    ensures found { IfOk result (λ found. found ≡ findings_of_policy schema.now policy.now) }
    ensures steps { steps.new ≤ steps.old + steps_of_policy schema.now policy.now }
{
    if policy.is_static() {
        written_findings(alloc, schema, policy.written(), steps)
    } else {
        let mut errors = Vec::new(alloc);
        add_link(alloc, schema, policy, &mut errors)?;
        Ok(ValidationResult::new(errors, Vec::new(alloc)))
    }
}

// The findings on a template or a static policy.
fn written_findings<L: Ledger>(
    alloc: Global,
    schema: &ValidatorSchema,
    template: &Template,
    steps: &mut Steps<L>,
) -> Result<ValidationResult, AllocError>
    ensures found { IfOk result (λ found. found ≡ findings_of_written schema.now template.now) }
    ensures steps { steps.new ≤ steps.old + length (linked_envs schema.now template.now) }
{
    let objects = all_objects(alloc)?;
    let extensions = ExtensionSchemas::all_available(alloc, &objects)?;
    let typechecker = Typechecker::new(schema, &extensions, ValidationMode::Strict);
    let mut errors = Vec::new(alloc);
    let mut warnings = Vec::new(alloc);
    count_environments(alloc, schema, template, steps)?;
    add_written(
        alloc,
        schema,
        &typechecker,
        template,
        &mut errors,
        &mut warnings,
    )?;
    Ok(ValidationResult::new(errors, warnings))
}

// Counts a step for each environment in which the condition of a template or a static policy is to be typed.
fn count_environments<L: Ledger>(
    alloc: Global,
    schema: &ValidatorSchema,
    template: &Template,
    steps: &mut Steps<L>,
) -> Result<(), AllocError>
    ensures { steps.new ≤ steps.old + length (linked_envs schema.now template.now) }
{
    let envs = linked_request_envs(alloc, schema, template)?;
    for _env in 0..envs.len() {
        steps.tick();
    }
    Ok(())
}

// All findings, and what holds where there is no error among them.
fn checked(
    alloc: Global,
    schema: &ValidatorSchema,
    typechecker: &Typechecker<'_, '_>,
    policies: &PolicySet,
) -> Result<ValidationResult, AllocError>
    requires { typechecker.now ≡ schema.now }
    ensures found { IfOk result (λ found. found ≡ findings_of schema.now policies.now) }
    ensures accepted { IfOk result (λ found. (found.errors ≡ []) ↔ IsAccepted schema.now policies.now) }
    ensures typed { IfOk result (λ found. found.errors ≡ [] →
        AllByRecursion (λ p.
        IsTypedIn schema.now p.condition (unlinked_envs schema.now)) policies.now.policies) }
{
    no_errors_where_accepted();
    typed_where_accepted(schema, policies);
    findings_on(alloc, schema, typechecker, policies)
}

// Where no error is found, the condition of each policy has a type in every environment of the schema.
fn typed_where_accepted(schema: &ValidatorSchema, policies: &PolicySet)
    ensures { (findings_of schema.now policies.now).errors ≡ [] →
        AllByRecursion (λ p.
        IsTypedIn schema.now p.condition (unlinked_envs schema.now)) policies.now.policies }
{
    no_errors_where_accepted();
    accepted_are_typed();
    let _actions = schema.action_ids();
    is_policy_set(policies);
}

fn findings_on(
    alloc: Global,
    schema: &ValidatorSchema,
    typechecker: &Typechecker<'_, '_>,
    policies: &PolicySet,
) -> Result<ValidationResult, AllocError>
    requires { typechecker.now ≡ schema.now }
    ensures { IfOk result (λ found. found ≡ findings_of schema.now policies.now) }
{
    let mut errors = Vec::new(alloc);
    let mut warnings = Vec::new(alloc);
    add_all_written(
        alloc,
        schema,
        typechecker,
        policies,
        &mut errors,
        &mut warnings,
    )?;
    add_all_links(alloc, schema, policies, &mut errors)?;
    Ok(ValidationResult::new(errors, warnings))
}

// Adds the findings on all templates and static policies.
fn add_all_written(
    alloc: Global,
    schema: &ValidatorSchema,
    typechecker: &Typechecker<'_, '_>,
    policies: &PolicySet,
    errors: &mut Vec<ValidationError>,
    warnings: &mut Vec<ValidationWarning>,
) -> Result<(), AllocError>
    requires { typechecker.now ≡ schema.now }
    ensures errors { OnOk result (errors.new.items ≡ errors.old.items ++
        flat_map (errors_of_written schema.now) (written policies.now)) }
    ensures warnings { OnOk result (warnings.new.items ≡ warnings.old.items ++
        flat_map (warnings_of schema.now) (written policies.now)) }
{
    for template in policies.written(alloc)? {
        add_written(alloc, schema, typechecker, template, errors, warnings)?;
    }
    Ok(())
}

// Adds the findings on a template or a static policy.
fn add_written(
    alloc: Global,
    schema: &ValidatorSchema,
    typechecker: &Typechecker<'_, '_>,
    template: &Template,
    errors: &mut Vec<ValidationError>,
    warnings: &mut Vec<ValidationWarning>,
) -> Result<(), AllocError>
    requires { typechecker.now ≡ schema.now }
    ensures errors { OnOk result (errors.new.items ≡ errors.old.items ++
        errors_of_written schema.now template.now) }
    ensures warnings { OnOk result (warnings.new.items ≡ warnings.old.items ++
        warnings_of schema.now template.now) }
{
    add_untyped(alloc, schema, template, errors)?;
    add_typing(alloc, typechecker, template, errors, warnings)
}

// Adds what is found of a template or a static policy before its condition is typed: of names and of the
// scope.
pub(crate) fn add_untyped(
    alloc: Global,
    schema: &ValidatorSchema,
    template: &Template,
    errors: &mut Vec<ValidationError>,
) -> Result<(), AllocError>
    ensures { OnOk result (errors.new.items ≡ errors.old.items ++
        untyped_errors schema.now template.now) }
{
    add_types(validate_entity_types(alloc, schema, template)?, errors)?;
    add_unlisted(validate_enum_entity(alloc, schema, template)?, errors)?;
    add_actions(validate_action_ids(alloc, schema, template)?, errors)?;
    add_applications(
        validate_template_action_application(alloc, schema, template)?,
        errors,
    )
}

// Adds what typing the condition of a template or a static policy finds. It goes into lists of its own first,
// since the typechecker looks through the errors that it is handed for each that it adds.
pub(crate) fn add_typing(
    alloc: Global,
    typechecker: &Typechecker<'_, '_>,
    template: &Template,
    errors: &mut Vec<ValidationError>,
    warnings: &mut Vec<ValidationWarning>,
) -> Result<(), AllocError>
    ensures errors { OnOk result (errors.new.items ≡ errors.old.items ++
        typing_errors typechecker.now template.now) }
    ensures warnings { OnOk result (warnings.new.items ≡ warnings.old.items ++
        warnings_of typechecker.now template.now) }
{
    let mut found = Vec::new(alloc);
    let mut warned = Vec::new(alloc);
    typechecker.typecheck_policy(alloc, template, &mut found, &mut warned)?;
    errors.append(&mut found)?;
    warnings.append(&mut warned)?;
    Ok(())
}

// Adds the errors of all links.
pub(crate) fn add_all_links(
    alloc: Global,
    schema: &ValidatorSchema,
    policies: &PolicySet,
    errors: &mut Vec<ValidationError>,
) -> Result<(), AllocError>
    ensures { OnOk result (errors.new.items ≡ errors.old.items ++
        flat_map (errors_of_link schema.now) (links policies.now)) }
{
    for link in policies.links(alloc)? {
        add_link(alloc, schema, link, errors)?;
    }
    Ok(())
}

// Adds the errors of a link.
fn add_link(
    alloc: Global,
    schema: &ValidatorSchema,
    link: &Policy,
    errors: &mut Vec<ValidationError>,
) -> Result<(), AllocError>
    ensures { OnOk result (errors.new.items ≡ errors.old.items ++ errors_of_link schema.now link.now) }
{
    add_types(validate_entity_types_in_slots(alloc, schema, link)?, errors)?;
    add_applications(
        validate_linked_action_application(alloc, schema, link)?,
        errors,
    )
}

fn add_types(
    found: Vec<UnrecognizedEntityType>,
    errors: &mut Vec<ValidationError>,
) -> Result<(), AllocError>
    ensures { OnOk result (errors.new.items ≡ errors.old.items ++
        map error.UnrecognizedEntityType found.items) }
{
    for finding in found {
        errors.push(ValidationError::UnrecognizedEntityType(finding))?;
    }
    Ok(())
}

fn add_unlisted(
    found: Vec<InvalidEnumEntity>,
    errors: &mut Vec<ValidationError>,
) -> Result<(), AllocError>
    ensures { OnOk result (errors.new.items ≡ errors.old.items ++
        map error.InvalidEnumEntity found.items) }
{
    for finding in found {
        errors.push(ValidationError::InvalidEnumEntity(finding))?;
    }
    Ok(())
}

fn add_actions(
    found: Vec<UnrecognizedActionId>,
    errors: &mut Vec<ValidationError>,
) -> Result<(), AllocError>
    ensures { OnOk result (errors.new.items ≡ errors.old.items ++
        map error.UnrecognizedActionId found.items) }
{
    for finding in found {
        errors.push(ValidationError::UnrecognizedActionId(finding))?;
    }
    Ok(())
}

fn add_applications(
    found: Vec<InvalidActionApplication>,
    errors: &mut Vec<ValidationError>,
) -> Result<(), AllocError>
    ensures { OnOk result (errors.new.items ≡ errors.old.items ++
        map error.InvalidActionApplication found.items) }
{
    for finding in found {
        errors.push(ValidationError::InvalidActionApplication(finding))?;
    }
    Ok(())
}
