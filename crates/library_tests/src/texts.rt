//! Documents, the texts of stores and manifests, and the one assertion of these tests.

use entity_store::{Entities, Entity};
use json_document::{Document, read_document};
use json_response::write_entity;
use manifest_core::EntityManifest;
use std::alloc::{AllocError, Global};
use std::process::Abort;

/// Asserts that a text is the expected one.
pub(crate) fn assert_same(rt: &impl Abort, text: &str, expected: &str) {
    assert_eq!(rt; text, expected);
}

/// The document that a text says; a text that says none counts as out of memory.
pub(crate) fn document_of(alloc: Global, text: &str) -> Result<Document, AllocError> {
    read_document(alloc, text.as_bytes()).ok().ok_or(AllocError)
}

/// The entities of a store, with a bar behind each.
pub(crate) fn store_text(alloc: Global, store: &Entities) -> Result<String, AllocError> {
    let mut text = String::new(alloc);
    for entity in store.iter() {
        add_entity(alloc, &mut text, entity)?;
    }
    Ok(text)
}

fn add_entity(alloc: Global, text: &mut String, entity: &Entity) -> Result<(), AllocError> {
    let json = write_entity(alloc, entity)?.to_string(alloc)?;
    text.push_str(json.as_str())?;
    text.push_str("|")
}

/// The JSON of a manifest.
pub(crate) fn manifest_text(
    alloc: Global,
    manifest: &EntityManifest,
) -> Result<String, AllocError> {
    manifest.to_json(alloc)?.to_string(alloc)
}

/// The texts, one after another.
pub(crate) fn joined(alloc: Global, parts: &[&str]) -> Result<String, AllocError> {
    let mut text = String::new(alloc);
    for part in parts {
        text.push_str(part)?;
    }
    Ok(text)
}
