//! Policies in the environments of their requests, requests, and ids in schemas.

use crate::lines::{assert_same, document_of, uid};
use conformance::{RequestValidationError, validate_request};
use extension_types::decimal;
use json_document::Document;
use policy_expressions::{Expr, ExprKind, Literal, SlotId};
use policy_set::{
    ActionConstraint, Effect, Policy, PrincipalOrResourceConstraint, Template, TemplateError,
};
use policy_typecheck::{PolicyCheck, Typechecker, Verdict};
use policy_values::Text;
use schema_core::{Type, ValidationMode, ValidatorSchema};
use std::alloc::{AllocError, Global};
use typing_spec::{ExtensionSchemas, all_objects};

// A template, its link, and a policy whose condition is never true: what stands behind `false` is not typed.
const POLICIES: &str =
    r#"{"schema":{"entityTypes":{"Group":{},"Photo":{},"User":{"memberOf":["Group"]}},"actions":[{"id":["Action","view"],"principals":["User"],"resources":["Photo"]}]},"policies":[{"id":"t","effect":"permit","principal":{"in":"?"}},{"id":"l","link":"t","principal":["Group","g"]},{"id":"s","effect":"permit","body":[{"when":{"all":[false,{"<":[1,"a"]}]}}]}]}"#;

const WITH_DECIMAL: &str =
    r#"{"schema":{"entityTypes":{"Photo":{},"User":{}},"actions":[{"id":["Action","view"],"principals":["User"],"resources":["Photo"],"context":{"d":"decimal"}}]},"request":{"principal":["User","a"],"action":["Action","view"],"resource":["Photo","x"],"context":{"d":{"decimal":"1.5"}}}}"#;

fn kind_of(check: &PolicyCheck) -> &'static str {
    match check {
        PolicyCheck::Success(_) => "success",
        PolicyCheck::Irrelevant(_) => "irrelevant",
        PolicyCheck::Fail(_) => "fail",
    }
}

// The kinds of a template's checks, each behind the type that the principal's slot has.
fn add_template_checks(
    alloc: Global,
    typechecker: &Typechecker<'_, '_>,
    template: &Template,
    text: &mut String,
) -> Result<(), AllocError> {
    for (env, check) in typechecker.typecheck_by_request_env(alloc, template)? {
        let single = typechecker.typecheck_by_single_request_env(alloc, template, &env)?;
        if let Some(slot) = env.principal_slot() {
            write!(text, "{slot} {} {}|", kind_of(&check), kind_of(&single))?;
        }
    }
    Ok(())
}

// Whether the condition ends with `false && true`, of which the first alone has a type.
fn ends_untyped(condition: &Expr<Option<Type>>) -> bool {
    let ExprKind::And(_, body) = condition.kind() else {
        return false;
    };
    let ExprKind::And(left, right) = body.kind() else {
        return false;
    };
    match right.kind() {
        ExprKind::Lit(Literal::Bool(true)) => right.data().is_none() && left.data().is_some(),
        _ => false,
    }
}

fn is_untyped(check: &PolicyCheck) -> bool {
    match check {
        PolicyCheck::Irrelevant(condition) => ends_untyped(condition),
        _ => false,
    }
}

// The kinds of a policy's checks, and whether the end of its condition has no type.
fn add_policy_checks(
    alloc: Global,
    typechecker: &Typechecker<'_, '_>,
    policy: &Policy,
    text: &mut String,
) -> Result<(), AllocError> {
    for (_, check) in typechecker.typecheck_linked(alloc, policy)? {
        let untyped = is_untyped(&check);
        write!(text, "{} {} {untyped}|", policy.id(), kind_of(&check))?;
    }
    Ok(())
}

// The checks of the templates, and then those of the policies.
fn add_checks(
    alloc: Global,
    typechecker: &Typechecker<'_, '_>,
    document: &Document,
    text: &mut String,
) -> Result<(), AllocError> {
    for template in document.policies.templates() {
        add_template_checks(alloc, typechecker, template, text)?;
    }
    for policy in document.policies.policies() {
        add_policy_checks(alloc, typechecker, policy, text)?;
    }
    Ok(())
}

fn checks_of(alloc: Global, document: &Document) -> Result<String, AllocError> {
    let objects = all_objects(alloc)?;
    let extensions = ExtensionSchemas::all_available(alloc, &objects)?;
    let typechecker = Typechecker::new(&document.schema, &extensions, ValidationMode::Strict);
    let mut text = String::new(alloc);
    add_checks(alloc, &typechecker, document, &mut text)?;
    Ok(text)
}

// The slot has each type that fits; what is not reached is true without a type.
#[test]
fn policies_are_checked_in_environments(rt: HostRuntime) -> Result<(), AllocError> {
    let document = document_of(rt.alloc(), POLICIES)?;
    let checks = checks_of(rt.alloc(), &document)?;
    assert_same(
        &rt,
        checks.as_str(),
        "Group success success|User success success|l success false|s irrelevant true|",
    );
    Ok(())
}

// Whether the policy may be true in each environment of the schema.
fn add_verdicts(
    alloc: Global,
    typechecker: &Typechecker<'_, '_>,
    schema: &ValidatorSchema,
    policy: &Policy,
    text: &mut String,
) -> Result<(), AllocError> {
    if policy.condition().depth() > 200 {
        return text.push_str("too deep|");
    }
    for env in schema.unlinked_request_envs(alloc)? {
        let verdict = match typechecker.verdict(alloc, policy, &env)? {
            Verdict::Never => "never",
            Verdict::May => "may",
        };
        write!(text, "{} {verdict}|", policy.id())?;
    }
    Ok(())
}

fn verdicts_of(alloc: Global, document: &Document) -> Result<String, AllocError> {
    let objects = all_objects(alloc)?;
    let extensions = ExtensionSchemas::all_available(alloc, &objects)?;
    let typechecker = Typechecker::new(&document.schema, &extensions, ValidationMode::Strict);
    let mut text = String::new(alloc);
    for policy in document.policies.policies() {
        add_verdicts(alloc, &typechecker, &document.schema, policy, &mut text)?;
    }
    Ok(text)
}

#[test]
fn verdicts_on_policies(rt: HostRuntime) -> Result<(), AllocError> {
    let document = document_of(rt.alloc(), POLICIES)?;
    let verdicts = verdicts_of(rt.alloc(), &document)?;
    assert_same(&rt, verdicts.as_str(), "l may|s never|");
    Ok(())
}

// Why there is no template with a slot in its condition.
fn refusal(alloc: Global) -> Result<&'static str, AllocError> {
    let found = Template::new(
        alloc,
        Text::from_str(alloc, "t")?,
        Effect::Permit,
        PrincipalOrResourceConstraint::Any,
        ActionConstraint::Any,
        PrincipalOrResourceConstraint::Any,
        Expr::slot(SlotId::Principal, (), None),
    );
    match &found {
        Err(TemplateError::SlotInCondition) => Ok("slot in condition"),
        _ => Ok("another answer"),
    }
}

#[test]
fn conditions_have_no_slots(rt: HostRuntime) -> Result<(), AllocError> {
    assert_same(&rt, refusal(rt.alloc())?, "slot in condition");
    Ok(())
}

// The function of the context's value that no extension has.
fn unknown_function(alloc: Global, document: &Document) -> Result<String, AllocError> {
    let none = Vec::new(alloc);
    let extensions = ExtensionSchemas::specific_extension_schemas(alloc, &none);
    let extensions = extensions.ok().ok_or(AllocError)?;
    match validate_request(alloc, &document.schema, &document.request, &extensions) {
        Err(RequestValidationError::TypeOfContext(name)) => format!(in alloc; "{name}"),
        _ => String::from_str(alloc, "another answer"),
    }
}

#[test]
fn values_of_unknown_functions_have_no_type(rt: HostRuntime) -> Result<(), AllocError> {
    let document = document_of(rt.alloc(), WITH_DECIMAL)?;
    let name = unknown_function(rt.alloc(), &document)?;
    assert_same(&rt, name.as_str(), "decimal");
    Ok(())
}

// What the function is called that two extensions define.
fn twice(alloc: Global) -> Result<String, AllocError> {
    let mut twice = Vec::new(alloc);
    twice.push(decimal::extension_schema(alloc)?)?;
    twice.push(decimal::extension_schema(alloc)?)?;
    match ExtensionSchemas::specific_extension_schemas(alloc, &twice) {
        Ok(_) => String::from_str(alloc, "both are taken"),
        Err(error) => format!(in alloc; "{error}"),
    }
}

#[test]
fn a_function_is_defined_once(rt: HostRuntime) -> Result<(), AllocError> {
    let error = twice(rt.alloc())?;
    assert_same(
        &rt,
        error.as_str(),
        "extension function `decimal` is defined multiple times",
    );
    Ok(())
}

// The entity types of a group and of what may be in it.
fn add_types_in(
    alloc: Global,
    schema: &ValidatorSchema,
    text: &mut String,
) -> Result<(), AllocError> {
    for below in schema.get_entity_types_in(alloc, &uid(alloc, "Group", "g")?)? {
        write!(text, "{below} ")?;
    }
    Ok(())
}

// The action of a name with those in it, or that it is not declared.
fn add_actions_in(
    alloc: Global,
    schema: &ValidatorSchema,
    eid: &str,
    text: &mut String,
) -> Result<(), AllocError> {
    let mut ids = Vec::new(alloc);
    ids.push(uid(alloc, "Action", eid)?)?;
    match schema.get_actions_in_set(alloc, ids.as_slice())? {
        Some(actions) => write!(text, "{} ", actions.len()),
        None => text.push_str("none "),
    }
}

fn below(alloc: Global, schema: &ValidatorSchema) -> Result<String, AllocError> {
    let mut text = String::new(alloc);
    add_types_in(alloc, schema, &mut text)?;
    add_actions_in(alloc, schema, "view", &mut text)?;
    add_actions_in(alloc, schema, "gone", &mut text)?;
    Ok(text)
}

#[test]
fn types_and_actions_below_ids(rt: HostRuntime) -> Result<(), AllocError> {
    let document = document_of(rt.alloc(), POLICIES)?;
    let text = below(rt.alloc(), &document.schema)?;
    assert_same(&rt, text.as_str(), "Group User 1 none ");
    Ok(())
}
