//! Copies of findings and of contexts.

use crate::lines::{assert_same, document_of, uid};
use json_document::Document;
use policy_validate::{
    ContextSchema, ValidationMode, ValidationResult, Validator, context_schema_for_action,
};
use schema_core::ValidatorSchema;
use std::alloc::{AllocError, Global};

// One action applies to anything, so there is one environment. An attribute is read that is not declared, a
// text is compared with a number, and is asked whether it equals one: three errors. The last policy is never
// true: a warning.
const FOUND: &str =
    r#"{"schema":{"entityTypes":{"Photo":{},"User":{}},"actions":[{"id":["Action","view"],"principals":["User"],"resources":["Photo"],"context":{"mfa":"Bool"}},{"id":["Action","edit"]}]},"policies":[{"id":"p0","effect":"permit","body":[{"when":{"get":[{"var":"principal"},"none"]}}]},{"id":"p1","effect":"permit","body":[{"when":{"<":["a",1]}}]},{"id":"p2","effect":"permit","body":[{"when":{"==":["a",1]}}]},{"id":"p3","effect":"permit","body":[{"when":false}]}]}"#;

// Of each error, whether it equals its copy.
fn add_errors(
    alloc: Global,
    found: &ValidationResult,
    text: &mut String,
) -> Result<(), AllocError> {
    for error in found.validation_errors() {
        let copy = error.try_clone(alloc)?;
        write!(text, "error {} ", copy == *error)?;
    }
    Ok(())
}

fn add_warnings(found: &ValidationResult, text: &mut String) -> Result<(), AllocError> {
    for warning in found.validation_warnings() {
        let copy = warning.try_clone()?;
        write!(text, "warning {} ", copy == *warning)?;
    }
    Ok(())
}

fn copied_findings(alloc: Global, document: &Document) -> Result<String, AllocError> {
    let validator = Validator::new(&document.schema);
    let found = validator.validate(alloc, &document.policies, ValidationMode::Strict)?;
    let mut text = String::new(alloc);
    add_errors(alloc, &found, &mut text)?;
    add_warnings(&found, &mut text)?;
    Ok(text)
}

#[test]
fn findings_equal_their_copies(rt: HostRuntime) -> Result<(), AllocError> {
    let document = document_of(rt.alloc(), FOUND)?;
    let text = copied_findings(rt.alloc(), &document)?;
    assert_same(
        &rt,
        text.as_str(),
        "error true error true error true warning true ",
    );
    Ok(())
}

// What the schema says of the contexts of the action with this name.
fn context_of<'a>(
    alloc: Global,
    schema: &'a ValidatorSchema,
    eid: &str,
) -> Result<ContextSchema<'a>, AllocError> {
    let action = uid(alloc, "Action", eid)?;
    context_schema_for_action(schema, &action).ok_or(AllocError)
}

// Whether what is said of the contexts of one action equals its copy, and whether it equals that of another.
fn copied_contexts(alloc: Global, schema: &ValidatorSchema) -> Result<String, AllocError> {
    let view = context_of(alloc, schema, "view")?;
    let edit = context_of(alloc, schema, "edit")?;
    let is_equal = view.try_clone()? == view;
    let is_alike = view == edit;
    format!(in alloc; "{is_equal} {is_alike}")
}

#[test]
fn contexts_equal_their_copies(rt: HostRuntime) -> Result<(), AllocError> {
    let document = document_of(rt.alloc(), FOUND)?;
    let text = copied_contexts(rt.alloc(), &document.schema)?;
    assert_same(&rt, text.as_str(), "true false");
    Ok(())
}
