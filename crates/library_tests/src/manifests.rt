//! Manifests that JSON says, typed by schemas.

use crate::texts::{assert_same, manifest_text};
use json_document::{parse_json, read_schema};
use manifest_core::{EntityManifest, EntityManifestFromJsonError, MismatchedEntityManifestError};
use schema_core::ValidatorSchema;
use std::alloc::{AllocError, Global};

const USERS: &str =
    r#"{"entityTypes":{"Photo":{"attributes":{"owner":{"entity":"User"}}},"User":{"attributes":{"dept":"String","manager":{"entity":"User"},"name":"String"}}},"actions":[{"id":["Action","view"],"principals":["User"],"resources":["Photo"]}]}"#;

// The types and the action alone.
const GROUPS: &str =
    r#"{"entityTypes":{"Group":{},"Photo":{},"User":{"memberOf":["Group"]}},"actions":[{"id":["Action","view"],"principals":["User"],"resources":["Photo"]}]}"#;

const MANAGER: &str =
    r#"{"perAction":[[{"action":["Action","view"],"principal":"User","resource":"Photo"},{"trie":[[{"var":"principal"},{"ancestorsTrie":{"trie":[]},"children":[["manager",{"ancestorsTrie":{"trie":[]},"children":[["name",{"ancestorsTrie":{"trie":[]},"children":[],"isAncestor":false}]],"isAncestor":false}]],"isAncestor":false}]]}]]}"#;

const PRINCIPAL: &str =
    r#"{"perAction":[[{"action":["Action","view"],"principal":"User","resource":"Photo"},{"trie":[[{"var":"principal"},{"ancestorsTrie":{"trie":[]},"children":[],"isAncestor":false}]]}]]}"#;

// Below the name another field; a root that is an action without declaration; a type without declaration; a
// field twice; a request type twice; a root twice; a member missing; a member too many; no JSON.
const REFUSED: &str =
    r#"{"perAction":[[{"action":["Action","view"],"principal":"User","resource":"Photo"},{"trie":[[{"var":"principal"},{"ancestorsTrie":{"trie":[]},"children":[["manager",{"ancestorsTrie":{"trie":[]},"children":[["name",{"ancestorsTrie":{"trie":[]},"children":[["x",{"ancestorsTrie":{"trie":[]},"children":[],"isAncestor":false}]],"isAncestor":false}]],"isAncestor":false}]],"isAncestor":false}]]}]]} => ChildOfPrimitive
{"perAction":[[{"action":["Action","gone"],"principal":"User","resource":"Photo"},{"trie":[[{"var":"action"},{"ancestorsTrie":{"trie":[]},"children":[],"isAncestor":false}]]}]]} => MismatchedMissingEntity Action::"gone"
{"perAction":[[{"action":["Action","view"],"principal":"Gone","resource":"Photo"},{"trie":[[{"var":"principal"},{"ancestorsTrie":{"trie":[]},"children":[],"isAncestor":false}]]}]]} => MismatchedNotStrictSchema
{"perAction":[[{"action":["Action","view"],"principal":"User","resource":"Photo"},{"trie":[[{"var":"principal"},{"ancestorsTrie":{"trie":[]},"children":[["name",{"ancestorsTrie":{"trie":[]},"children":[],"isAncestor":false}],["name",{"ancestorsTrie":{"trie":[]},"children":[],"isAncestor":false}]],"isAncestor":false}]]}]]} => SerdeJsonParseError
{"perAction":[[{"action":["Action","view"],"principal":"User","resource":"Photo"},{"trie":[]}],[{"action":["Action","view"],"principal":"User","resource":"Photo"},{"trie":[]}]]} => SerdeJsonParseError
{"perAction":[[{"action":["Action","view"],"principal":"User","resource":"Photo"},{"trie":[[{"var":"principal"},{"ancestorsTrie":{"trie":[]},"children":[],"isAncestor":false}],[{"var":"principal"},{"ancestorsTrie":{"trie":[]},"children":[],"isAncestor":false}]]}]]} => SerdeJsonParseError
{"perAction":[[{"action":["Action","view"],"principal":"User","resource":"Photo"},{"trie":[[{"var":"principal"},{"ancestorsTrie":{"trie":[]},"children":[]}]]}]]} => SerdeJsonParseError
{"perAction":[],"more":[]} => SerdeJsonParseError
{"perAction":[] => SerdeJsonParseError"#;

fn mismatch_text(
    alloc: Global,
    mismatch: &MismatchedEntityManifestError,
) -> Result<String, AllocError> {
    match mismatch {
        MismatchedEntityManifestError::MismatchedMissingEntity(missing) => {
            format!(in alloc; "MismatchedMissingEntity {}", missing.entity)
        }
        MismatchedEntityManifestError::MismatchedNotStrictSchema(_) => {
            String::from_str(alloc, "MismatchedNotStrictSchema")
        }
        MismatchedEntityManifestError::ChildOfPrimitive => {
            String::from_str(alloc, "ChildOfPrimitive")
        }
    }
}

/// The JSON of a manifest, or why there is none.
pub(crate) fn answer_text(
    alloc: Global,
    manifest: &Result<EntityManifest, EntityManifestFromJsonError>,
) -> Result<String, AllocError> {
    match manifest {
        Ok(manifest) => manifest_text(alloc, manifest),
        Err(EntityManifestFromJsonError::SerdeJsonParseError) => {
            String::from_str(alloc, "SerdeJsonParseError")
        }
        Err(EntityManifestFromJsonError::MismatchedEntityManifest(mismatch)) => {
            mismatch_text(alloc, mismatch)
        }
        Err(EntityManifestFromJsonError::OutOfMemory) => Err(AllocError),
    }
}

fn schema(alloc: Global, text: &str) -> Result<ValidatorSchema, AllocError> {
    match parse_json(alloc, text.as_bytes())? {
        Some(value) => read_schema(alloc, &value).ok().ok_or(AllocError),
        None => Err(AllocError),
    }
}

// What a text says, typed by the schema.
fn read_by(alloc: Global, by: &str, text: &str) -> Result<String, AllocError> {
    let schema = schema(alloc, by)?;
    answer_text(alloc, &EntityManifest::from_json_str(alloc, text, &schema))
}

#[test]
fn manifests_are_read(rt: HostRuntime) -> Result<(), AllocError> {
    for (schema, expected) in [(USERS, MANAGER), (GROUPS, PRINCIPAL)] {
        let text = read_by(rt.alloc(), schema, MANAGER)?;
        assert_same(&rt, text.as_str(), expected);
    }
    Ok(())
}

#[test]
fn manifests_are_refused(rt: HostRuntime) -> Result<(), AllocError> {
    for line in REFUSED.lines() {
        let (manifest, expected) = line.split_once(" => ").unwrap_or((line, "nothing"));
        let text = read_by(rt.alloc(), USERS, manifest)?;
        assert_same(&rt, text.as_str(), expected);
    }
    Ok(())
}
