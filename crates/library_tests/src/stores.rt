//! Stores that are cut, and values that are merged.

use crate::texts::{assert_same, document_of, joined, store_text};
use entity_loader::merge_values;
use json_document::{Document, Scratch, read_tree, read_value};
use json_response::write_value;
use level_validate::slice_at_level;
use policy_values::Value;
use std::alloc::{AllocError, Global};

// Two users, one of whom manages both and owns the photo of the request.
const DOCUMENT: &str =
    r#"{"schema":{"entityTypes":{"Photo":{"attributes":{"owner":{"entity":"User"}}},"User":{"attributes":{"dept":"String","manager":{"entity":"User"},"name":"String"}}},"actions":[{"id":["Action","view"],"principals":["User"],"resources":["Photo"]}]},"entities":[{"id":["User","alice"],"attrs":{"dept":"c","manager":{"id":["User","bob"]},"name":"a"}},{"id":["User","bob"],"attrs":{"dept":"d","manager":{"id":["User","bob"]},"name":"m"}},{"id":["Photo","x"],"attrs":{"owner":{"id":["User","bob"]}}}],"request":{"principal":["User","alice"],"action":["Action","view"],"resource":["Photo","x"],"context":{}}}"#;

const PHOTO: &str =
    r#"{"ancestors":[],"attrs":{"owner":{"id":["User","bob"]}},"id":["Photo","x"],"tags":{}}|"#;

const ALICE: &str =
    r#"{"ancestors":[],"attrs":{"dept":"c","manager":{"id":["User","bob"]},"name":"a"},"id":["User","alice"],"tags":{}}|"#;

const BOB: &str =
    r#"{"ancestors":[],"attrs":{"dept":"d","manager":{"id":["User","bob"]},"name":"m"},"id":["User","bob"],"tags":{}}|"#;

// The document's store cut at a level, a bar behind each entity.
fn cut(alloc: Global, document: &Document, level: u32) -> Result<String, AllocError> {
    if !document.request.is_whole() {
        return String::from_str(alloc, "no request");
    }
    let store = slice_at_level(alloc, &document.request, &document.entities, level)?;
    store_text(alloc, &store)
}

#[test]
fn stores_are_cut_at_levels(rt: HostRuntime) -> Result<(), AllocError> {
    let document = document_of(rt.alloc(), DOCUMENT)?;
    let rows: [(u32, &[&str]); 4] = [
        (0, &[]),
        (1, &[PHOTO, ALICE]),
        (2, &[PHOTO, ALICE, BOB]),
        (3, &[PHOTO, ALICE, BOB]),
    ];
    for (level, entities) in rows {
        let expected = joined(rt.alloc(), entities)?;
        let text = cut(rt.alloc(), &document, level)?;
        assert_same(&rt, text.as_str(), expected.as_str());
    }
    Ok(())
}

// The values that two JSON texts say, merged; `none` where they do not merge.
fn merged(alloc: Global, one: &str, other: &str) -> Result<String, AllocError> {
    let one = value_of(alloc, one)?;
    let other = value_of(alloc, other)?;
    match merge_values(alloc, &one, &other)? {
        Some(value) => write_value(alloc, &value)?.to_string(alloc),
        None => String::from_str(alloc, "none"),
    }
}

// A text that says no value counts as out of memory.
fn value_of(alloc: Global, text: &str) -> Result<Value, AllocError> {
    let mut scratch = Scratch::new(alloc);
    match read_tree(alloc, text.as_bytes(), &mut scratch)? {
        Some(tree) => read_value(alloc, &tree)?.ok_or(AllocError),
        None => Err(AllocError),
    }
}

#[test]
fn values_are_merged(rt: HostRuntime) -> Result<(), AllocError> {
    let rows = [
        (
            r#"{"record":{"a":1}}"#,
            r#"{"record":{"b":2}}"#,
            r#"{"record":{"a":1,"b":2}}"#,
        ),
        ("1", "2", "none"),
        ("1", "1", "1"),
        (
            r#"{"record":{"a":{"record":{"b":1}}}}"#,
            r#"{"record":{"a":{"record":{"c":[2]}}}}"#,
            r#"{"record":{"a":{"record":{"b":1,"c":[2]}}}}"#,
        ),
        (r#"{"record":{"a":1}}"#, r#"{"record":{"a":2}}"#, "none"),
        (r#"{"record":{}}"#, "[]", "none"),
    ];
    for (one, other, expected) in rows {
        let text = merged(rt.alloc(), one, other)?;
        assert_same(&rt, text.as_str(), expected);
    }
    Ok(())
}
