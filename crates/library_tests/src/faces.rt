//! The crates that callers name, which pass on the calls of those behind them.

use crate::texts::{assert_same, document_of};
use entity_manifest::{EntityManifest, compute_entity_manifest, slice_entities, slice_for_request};
use json_document::Document;
use policy_typecheck::{PolicyCheck, Typechecker};
use policy_validate::{
    CoreSchema, RequestSchema, ValidationMode, ValidationResult, Validator, conforms,
    slice_at_level,
};
use std::alloc::{AllocError, Global};
use typing_spec::{ExtensionSchemas, all_objects};

// The name of the principal's manager and the department of the resource's owner are read.
const DOCUMENT: &str =
    r#"{"schema":{"entityTypes":{"Photo":{"attributes":{"owner":{"entity":"User"}}},"User":{"attributes":{"dept":"String","manager":{"entity":"User"},"name":"String"}}},"actions":[{"id":["Action","view"],"principals":["User"],"resources":["Photo"]}]},"policies":[{"id":"p0","effect":"permit","body":[{"when":{"all":[{"==":[{"get":[{"var":"principal"},"manager","name"]},"m"]},{"==":[{"get":[{"var":"resource"},"owner","dept"]},"d"]}]}}]}],"entities":[{"id":["User","alice"],"attrs":{"dept":"c","manager":{"id":["User","bob"]},"name":"a"}},{"id":["User","bob"],"attrs":{"dept":"d","manager":{"id":["User","bob"]},"name":"m"}},{"id":["Photo","x"],"attrs":{"owner":{"id":["User","bob"]}}}],"request":{"principal":["User","alice"],"action":["Action","view"],"resource":["Photo","x"],"context":{}}}"#;

// Whether the policies are accepted, the store conforms, and the request does.
fn add_rules(alloc: Global, document: &Document, text: &mut String) -> Result<(), AllocError> {
    let found = found_of(alloc, document)?;
    let is_conforming = conforms(&document.schema, &document.entities).is_ok();
    let is_requested = request_conforms(alloc, document)?;
    let is_accepted = found.validation_passed();
    write!(
        text,
        "accepted {is_accepted} conforms {is_conforming} {is_requested}"
    )
}

fn found_of(alloc: Global, document: &Document) -> Result<ValidationResult, AllocError> {
    let validator = Validator::new(&document.schema);
    validator.validate(alloc, &document.policies, ValidationMode::Strict)
}

fn request_conforms(alloc: Global, document: &Document) -> Result<bool, AllocError> {
    let objects = all_objects(alloc)?;
    let extensions = ExtensionSchemas::all_available(alloc, &objects)?;
    let schema = CoreSchema::new(&document.schema);
    let answer = schema.validate_request(alloc, &document.request, &extensions);
    Ok(answer.is_ok())
}

// Whether each policy's condition has a type in each environment.
fn add_checks(alloc: Global, document: &Document, text: &mut String) -> Result<(), AllocError> {
    let objects = all_objects(alloc)?;
    let extensions = ExtensionSchemas::all_available(alloc, &objects)?;
    let typechecker = Typechecker::new(&document.schema, &extensions, ValidationMode::Strict);
    for policy in document.policies.policies() {
        for (_, check) in typechecker.typecheck_linked(alloc, policy)?.iter() {
            text.push_str(if matches!(check, PolicyCheck::Success(_)) {
                " typed"
            } else {
                " not"
            })?;
        }
    }
    Ok(())
}

// How many entities the slice for the request keeps, and the store cut at level 1.
fn add_slices(alloc: Global, document: &Document, text: &mut String) -> Result<(), AllocError> {
    let Document {
        schema,
        policies,
        entities,
        request,
        ..
    } = document;
    if !request.is_whole() {
        return text.push_str(" no request");
    }
    let kept = slice_for_request(alloc, schema, policies, request, entities);
    let kept = kept.ok().ok_or(AllocError)?;
    let cut = slice_at_level(alloc, request, entities, 1)?;
    write!(text, " slice {} level {}", kept.len(), cut.len())
}

// How many types of requests the manifest has, and how many entities an equal copy keeps.
fn add_manifest(alloc: Global, document: &Document, text: &mut String) -> Result<(), AllocError> {
    let manifest = compute_entity_manifest(alloc, &document.schema, &document.policies);
    let manifest = manifest.ok().ok_or(AllocError)?;
    let copy = manifest.try_clone(alloc)?;
    let is_equal = copy == manifest;
    let kept = kept_by(alloc, &copy, document);
    write!(
        text,
        " manifest {} {is_equal} {kept}",
        manifest.per_action().len()
    )
}

fn kept_by(alloc: Global, manifest: &EntityManifest, document: &Document) -> usize {
    match slice_entities(alloc, manifest, &document.entities, &document.request) {
        Ok(slice) => slice.len(),
        Err(_) => 0,
    }
}

// What is answered of the document, call by call.
fn answers(alloc: Global, document: &Document) -> Result<String, AllocError> {
    let mut text = String::new(alloc);
    add_rules(alloc, document, &mut text)?;
    add_checks(alloc, document, &mut text)?;
    add_slices(alloc, document, &mut text)?;
    add_manifest(alloc, document, &mut text)?;
    Ok(text)
}

#[test]
fn faces_answer(rt: HostRuntime) -> Result<(), AllocError> {
    let document = document_of(rt.alloc(), DOCUMENT)?;
    let text = answers(rt.alloc(), &document)?;
    assert_same(
        &rt,
        text.as_str(),
        "accepted true conforms true true typed slice 3 level 2 manifest 1 true 3",
    );
    Ok(())
}
