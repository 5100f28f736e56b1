//! Manifests that are computed, read from their texts, and typed by other schemas.

use crate::manifests::answer_text;
use crate::texts::{assert_same, document_of, manifest_text};
use entity_manifest::checked_manifest;
use manifest_computation::compute_entity_manifest;
use manifest_core::EntityManifest;
use std::alloc::{AllocError, Global};
use std::process::Abort;

// The name of the principal's manager and the department of the resource's owner are read.
const NAMES: &str =
    r#"{"schema":{"entityTypes":{"Photo":{"attributes":{"owner":{"entity":"User"}}},"User":{"attributes":{"dept":"String","manager":{"entity":"User"},"name":"String"}}},"actions":[{"id":["Action","view"],"principals":["User"],"resources":["Photo"]}]},"policies":[{"id":"p0","effect":"permit","body":[{"when":{"all":[{"==":[{"get":[{"var":"principal"},"manager","name"]},"m"]},{"==":[{"get":[{"var":"resource"},"owner","dept"]},"d"]}]}}]}]}"#;

const NAMES_READ: &str =
    r#"{"perAction":[[{"action":["Action","view"],"principal":"User","resource":"Photo"},{"trie":[[{"var":"principal"},{"ancestorsTrie":{"trie":[]},"children":[["manager",{"ancestorsTrie":{"trie":[]},"children":[["name",{"ancestorsTrie":{"trie":[]},"children":[],"isAncestor":false}]],"isAncestor":false}]],"isAncestor":false}],[{"var":"resource"},{"ancestorsTrie":{"trie":[]},"children":[["owner",{"ancestorsTrie":{"trie":[]},"children":[["dept",{"ancestorsTrie":{"trie":[]},"children":[],"isAncestor":false}]],"isAncestor":false}]],"isAncestor":false}]]}]]}"#;

// The principal alone is read.
const PRINCIPAL_READ: &str =
    r#"{"perAction":[[{"action":["Action","view"],"principal":"User","resource":"Photo"},{"trie":[[{"var":"principal"},{"ancestorsTrie":{"trie":[]},"children":[],"isAncestor":false}]]}]]}"#;

// No attribute is declared; the first ones are; a manager is no entity; there are no photos.
const NAMES_TYPED: &str =
    r#"{"schema":{"entityTypes":{"Photo":{},"User":{}},"actions":[{"id":["Action","view"],"principals":["User"],"resources":["Photo"]}]}} => {"perAction":[[{"action":["Action","view"],"principal":"User","resource":"Photo"},{"trie":[[{"var":"principal"},{"ancestorsTrie":{"trie":[]},"children":[],"isAncestor":false}],[{"var":"resource"},{"ancestorsTrie":{"trie":[]},"children":[],"isAncestor":false}]]}]]}
{"schema":{"entityTypes":{"Photo":{"attributes":{"owner":{"entity":"User"}}},"User":{"attributes":{"manager":{"entity":"User"}}}},"actions":[{"id":["Action","view"],"principals":["User"],"resources":["Photo"]}]}} => {"perAction":[[{"action":["Action","view"],"principal":"User","resource":"Photo"},{"trie":[[{"var":"principal"},{"ancestorsTrie":{"trie":[]},"children":[["manager",{"ancestorsTrie":{"trie":[]},"children":[],"isAncestor":false}]],"isAncestor":false}],[{"var":"resource"},{"ancestorsTrie":{"trie":[]},"children":[["owner",{"ancestorsTrie":{"trie":[]},"children":[],"isAncestor":false}]],"isAncestor":false}]]}]]}
{"schema":{"entityTypes":{"Photo":{},"User":{"attributes":{"manager":"String"}}},"actions":[{"id":["Action","view"],"principals":["User"],"resources":["Photo"]}]}} => ChildOfPrimitive
{"schema":{"entityTypes":{"User":{}},"actions":[{"id":["Action","view"],"principals":["User"],"resources":[]}]}} => MismatchedNotStrictSchema"#;

// The name of each tag is read, and whether the tag is in a group.
const TAGS: &str =
    r#"{"schema":{"entityTypes":{"Group":{},"Photo":{},"User":{"memberOf":["Group"],"attributes":{"name":"String"},"tags":{"entity":"User"}}},"actions":[{"id":["Action","view"],"principals":["User"],"resources":["Photo"]}]},"policies":[{"id":"p0","effect":"permit","body":[{"when":{"all":[{"hasTag":[{"var":"principal"},"t"]},{"==":[{"get":[{"getTag":[{"var":"principal"},"t"]},"name"]},"x"]},{"in":[{"getTag":[{"var":"principal"},"t"]},{"id":["Group","g"]}]}]}}]}]}"#;

const TAGS_READ: &str =
    r#"{"perAction":[[{"action":["Action","view"],"principal":"User","resource":"Photo"},{"trie":[[{"var":"principal"},{"ancestorsTrie":{"trie":[]},"children":[],"isAncestor":false,"tags":[{"ancestorsTrie":{"trie":[[{"literal":["Group","g"]},{"ancestorsTrie":{"trie":[]},"children":[],"isAncestor":true}]]},"children":[["name",{"ancestorsTrie":{"trie":[]},"children":[],"isAncestor":false}]],"isAncestor":false}]}]]}]]}"#;

// Tags without attributes; no tags; no groups.
const TAGS_TYPED: &str =
    r#"{"schema":{"entityTypes":{"Group":{},"Photo":{},"User":{"tags":{"entity":"User"}}},"actions":[{"id":["Action","view"],"principals":["User"],"resources":["Photo"]}]}} => {"perAction":[[{"action":["Action","view"],"principal":"User","resource":"Photo"},{"trie":[[{"var":"principal"},{"ancestorsTrie":{"trie":[]},"children":[],"isAncestor":false,"tags":[{"ancestorsTrie":{"trie":[[{"literal":["Group","g"]},{"ancestorsTrie":{"trie":[]},"children":[],"isAncestor":true}]]},"children":[],"isAncestor":false}]}]]}]]}
{"schema":{"entityTypes":{"Group":{},"Photo":{},"User":{}},"actions":[{"id":["Action","view"],"principals":["User"],"resources":["Photo"]}]}} => {"perAction":[[{"action":["Action","view"],"principal":"User","resource":"Photo"},{"trie":[[{"var":"principal"},{"ancestorsTrie":{"trie":[]},"children":[],"isAncestor":false}]]}]]}
{"schema":{"entityTypes":{"Photo":{},"User":{"tags":{"entity":"User"}}},"actions":[{"id":["Action","view"],"principals":["User"],"resources":["Photo"]}]}} => MismatchedMissingEntity Group::"g""#;

// The manifest of a document's policies; a text that says none counts as out of memory.
fn computed(alloc: Global, text: &str) -> Result<EntityManifest, AllocError> {
    let document = document_of(alloc, text)?;
    let manifest = compute_entity_manifest(alloc, &document.schema, &document.policies);
    manifest.ok().ok_or(AllocError)
}

// The manifest of a document's policies, as the schema of another document types it.
fn typed_by(alloc: Global, policies: &str, other: &str) -> Result<String, AllocError> {
    let manifest = computed(alloc, policies)?;
    let other = document_of(alloc, other)?;
    answer_text(alloc, &manifest.to_typed(alloc, &other.schema))
}

// The text of a manifest, as it is read by that schema.
fn read_by(alloc: Global, text: &str, other: &str) -> Result<String, AllocError> {
    let other = document_of(alloc, other)?;
    answer_text(
        alloc,
        &EntityManifest::from_json_str(alloc, text, &other.schema),
    )
}

// Asserts that a manifest, and its text, are so by the schema of another document.
fn assert_typed(
    rt: &impl Abort,
    alloc: Global,
    row: (&str, &str),
    other: &str,
    expected: &str,
) -> Result<(), AllocError> {
    let (policies, text) = row;
    let typed = typed_by(alloc, policies, other)?;
    assert_same(rt, typed.as_str(), expected);
    let read = read_by(alloc, text, other)?;
    assert_same(rt, read.as_str(), expected);
    Ok(())
}

// Of each line of a table: a document with another schema, and what is expected by it.
fn assert_lines(
    rt: &impl Abort,
    alloc: Global,
    row: (&str, &str),
    table: &str,
) -> Result<(), AllocError> {
    for line in table.lines() {
        let (other, expected) = line.split_once(" => ").unwrap_or((line, "nothing"));
        assert_typed(rt, alloc, row, other, expected)?;
    }
    Ok(())
}

#[test]
fn computed_manifests_have_their_texts(rt: HostRuntime) -> Result<(), AllocError> {
    for (policies, expected) in [(NAMES, NAMES_READ), (TAGS, TAGS_READ)] {
        let text = manifest_text(rt.alloc(), &computed(rt.alloc(), policies)?)?;
        assert_same(&rt, text.as_str(), expected);
    }
    Ok(())
}

#[test]
fn manifests_are_typed(rt: HostRuntime) -> Result<(), AllocError> {
    let alloc = rt.alloc();
    assert_typed(&rt, alloc, (NAMES, NAMES_READ), NAMES, NAMES_READ)?;
    assert_lines(&rt, alloc, (NAMES, NAMES_READ), NAMES_TYPED)?;
    assert_typed(&rt, alloc, (TAGS, TAGS_READ), TAGS, TAGS_READ)?;
    assert_lines(&rt, alloc, (TAGS, TAGS_READ), TAGS_TYPED)
}

// Whether the manifest that a text says is that of a document's policies.
fn is_of_policies(alloc: Global, text: &str, policies: &str) -> Result<bool, AllocError> {
    let document = document_of(alloc, policies)?;
    let given = EntityManifest::from_json_str(alloc, text, &document.schema);
    let given = given.ok().ok_or(AllocError)?;
    match checked_manifest(alloc, &document.schema, &document.policies, &given) {
        Ok(Some(_)) => Ok(true),
        Ok(None) => Ok(false),
        Err(_) => Err(AllocError),
    }
}

#[test]
fn manifests_are_of_policies(rt: HostRuntime) -> Result<(), AllocError> {
    let own = is_of_policies(rt.alloc(), NAMES_READ, NAMES)?;
    let other = is_of_policies(rt.alloc(), PRINCIPAL_READ, NAMES)?;
    assert_same(&rt, if own { "its own" } else { "another's" }, "its own");
    assert_same(
        &rt,
        if other { "its own" } else { "another's" },
        "another's",
    );
    Ok(())
}
