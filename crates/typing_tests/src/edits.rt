//! What an edit of policies changes.
ghost use Rattle.policy_compare.specs.Edits.{IsEdit};

use crate::lines::{Answers, assert_same, failures};
use edit_witnesses::{Turn, find_witness};
use json_document::{Document, read_document};
use policy_compare::{Comparison, Edit, compare_in, edit_between};
use schema_core::RequestEnv;
use std::alloc::{AllocError, Global};
use typecheck_walk::{Extensions, Setting};
use typing_spec::{ExtensionSchemas, all_objects};

const SCHEMA: &str =
    r#"{"entityTypes":{"Photo":{},"User":{"attributes":{"a":"Bool","b":"Bool"}}},"actions":[{"id":["Action","view"],"principals":["User"],"resources":["Photo"]}]}"#;

// How many policies only one of two sets has, removed and added; whether the edit gives nothing, and whether
// it takes nothing; whether a witness shows that it takes access, and that it gives some.
struct Edits;

// What is found of an edit.
#[derive(Drop)]
struct Found {
    comparison: Comparison,
    narrower: bool,
    wider: bool,
}

impl Answers for Edits {
    fn answer(alloc: Global, asked: &str) -> Result<String, AllocError> {
        let (before, after) = asked.split_once(" -> ").unwrap_or((asked, asked));
        let before = policies(alloc, before)?;
        let after = policies(alloc, after)?;
        match before.schema.unlinked_request_envs(alloc)?.first() {
            Some(env) => edit_text(alloc, env, &before, &after),
            None => Err(AllocError),
        }
    }
}

// The document of the policies.
fn policies(alloc: Global, policies: &str) -> Result<Document, AllocError> {
    let text = format!(in alloc; "{{\"schema\":{SCHEMA},\"policies\":[{policies}]}}")?;
    read_document(alloc, text.as_bytes()).ok().ok_or(AllocError)
}

fn edit_text<'a>(
    alloc: Global,
    env: &'a RequestEnv<'a>,
    before: &'a Document,
    after: &'a Document,
) -> Result<String, AllocError> {
    let edit = edit_between(alloc, &before.policies, &after.policies)?;
    let found = compared(alloc, env, before, &edit)?;
    let removed = edit.removed.len();
    let added = edit.added.len();
    let Comparison { at_most, at_least } = found.comparison;
    format!(in alloc;
        "-{removed} +{added} {at_most} {at_least} {} {}",
        found.narrower, found.wider
    )
}

fn compared<'a>(
    alloc: Global,
    env: &'a RequestEnv<'a>,
    document: &'a Document,
    edit: &Edit<'a>,
) -> Result<Found, AllocError>
    requires { IsEdit edit.now }
{
    let objects = all_objects(alloc)?;
    let schemas = ExtensionSchemas::all_available(alloc, &objects)?;
    let extensions = Extensions::new(&schemas);
    let setting = Setting {
        alloc,
        schema: &document.schema,
        env,
        extensions: &extensions,
    };
    let comparison = compare_in(&setting, edit, &mut 100000)?;
    let narrower = is_shown(&setting, edit, Turn::ToDeny)?;
    let wider = is_shown(&setting, edit, Turn::ToAllow)?;
    Ok(Found {
        comparison,
        narrower,
        wider,
    })
}

// Whether a witness of the edit is found.
fn is_shown<'a>(
    at: &Setting<'_, '_, '_, '_>,
    edit: &Edit<'a>,
    turn: Turn,
) -> Result<bool, AllocError> {
    match find_witness(at, edit, turn, &mut 1000)? {
        Some(witness) => {
            drop(witness);
            Ok(true)
        }
        None => Ok(false),
    }
}

// The same; a permit more, and one less; a forbid more; a permit under one condition more; its two conditions
// the other way round; another permit; the same policy under another id.
const ROWS: &str =
    r#"{"id":"p","effect":"permit"} -> {"id":"p","effect":"permit"} => -0 +0 true true false false
 -> {"id":"p","effect":"permit"} => -0 +1 false true false true
{"id":"p","effect":"permit"} ->  => -1 +0 true false true false
{"id":"p","effect":"permit"} -> {"id":"p","effect":"permit"},{"id":"q","effect":"forbid","body":[{"when":{"get":[{"var":"principal"},"a"]}}]} => -0 +1 true false true false
{"id":"p","effect":"permit","body":[{"when":{"get":[{"var":"principal"},"a"]}}]} -> {"id":"p","effect":"permit","body":[{"when":{"all":[{"get":[{"var":"principal"},"a"]},{"get":[{"var":"principal"},"b"]}]}}]} => -1 +1 true false true false
{"id":"p","effect":"permit","body":[{"when":{"all":[{"get":[{"var":"principal"},"b"]},{"get":[{"var":"principal"},"a"]}]}}]} -> {"id":"p","effect":"permit","body":[{"when":{"all":[{"get":[{"var":"principal"},"a"]},{"get":[{"var":"principal"},"b"]}]}}]} => -1 +1 true true false false
{"id":"p","effect":"permit","body":[{"when":{"get":[{"var":"principal"},"a"]}}]} -> {"id":"p","effect":"permit","body":[{"when":{"get":[{"var":"principal"},"b"]}}]} => -1 +1 false false true true
{"id":"p","effect":"permit"} -> {"id":"q","effect":"permit"} => -1 +1 true true false false"#;

#[test]
fn edits_are_compared(rt: HostRuntime) -> Result<(), AllocError> {
    let failures = failures::<Edits>(rt.alloc(), ROWS)?;
    assert_same(&rt, failures.as_str(), "");
    Ok(())
}
