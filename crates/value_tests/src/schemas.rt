//! The fault of a schema, and the name or id that it comes with. Which JSON is a schema is in
//! examples/lines/schemas.txt.

use crate::lines::{Answers, assert_same, failures};
use json_document::{DocumentFault, Place, parse_json, read_schema};
use schema_core::SchemaFault;
use std::alloc::{AllocError, Global};

// The fault of a schema.
struct Faults;

impl Answers for Faults {
    fn answer(alloc: Global, asked: &str) -> Result<String, AllocError> {
        let Some(value) = parse_json(alloc, asked.as_bytes())? else {
            return String::from_str(alloc, "no JSON");
        };
        match read_schema(alloc, &value) {
            Ok(_) => String::from_str(alloc, "a schema"),
            Err(DocumentFault::Place(place)) => place_text(alloc, &place),
            Err(DocumentFault::OutOfMemory) => Err(AllocError),
        }
    }
}

// What is wrong, with the name or the id that it comes with.
fn place_text(alloc: Global, place: &Place) -> Result<String, AllocError> {
    let mut text = format!(in alloc; "{place}")?;
    if let Place::SchemaFault(fault) = place {
        add_name(&mut text, fault)?;
    }
    Ok(text)
}

fn add_name(text: &mut String, fault: &SchemaFault) -> Result<(), AllocError> {
    match fault {
        SchemaFault::DuplicateAction(uid)
        | SchemaFault::NotAnAction(uid)
        | SchemaFault::UndeclaredAction(uid)
        | SchemaFault::ActionCycle(uid) => write!(text, ": {uid}"),
        SchemaFault::ActionTypeDeclared(name)
        | SchemaFault::EmptyEnum(name)
        | SchemaFault::UndeclaredType(name) => write!(text, ": {name}"),
        _ => text.push_str(": never read"),
    }
}

// Each fault alone.
const ALONE: &str =
    r#"{"actions":[{"id":["Action","a"]},{"id":["Action","a"]}]} => document: schema: duplicate action: Action::"a"
{"entityTypes":{"X::Action":{}}} => document: schema: declared type has basename Action: X::Action
{"entityTypes":{"F":{"enum":[]}}} => document: schema: no listed id: F
{"actions":[{"id":["Act","a"]}]} => document: schema: action type has another basename: Act::"a"
{"entityTypes":{"U":{"memberOf":["V"]}}} => document: schema: type is not declared: V
{"actions":[{"id":["Action","a"],"memberOf":[["Action","b"]]}]} => document: schema: action is not declared: Action::"b"
{"actions":[{"id":["Action","a"],"memberOf":[["Action","a"]]}]} => document: schema: action is its own member: Action::"a"
{"actions":[{"id":["Action","b"],"memberOf":[["Action","a"]]},{"id":["Action","a"],"memberOf":[["Action","b"]]}]} => document: schema: action is its own member: Action::"a""#;

// Types that are not declared, wherever they are named.
const UNDECLARED: &str =
    r#"{"actions":[{"id":["Action","a"],"principals":["V"]}]} => document: schema: type is not declared: V
{"actions":[{"id":["Action","a"],"resources":["V"]}]} => document: schema: type is not declared: V
{"actions":[{"id":["Action","a"],"context":{"x":{"entity":"V"}}}]} => document: schema: type is not declared: V
{"actions":[{"id":["Action","a"],"context":{"x":{"optional":{"set":{"entity":"V"}}}}}]} => document: schema: type is not declared: V
{"entityTypes":{"U":{"attributes":{"x":{"entity":"V"}}}}} => document: schema: type is not declared: V
{"entityTypes":{"U":{"attributes":{"x":{"optional":{"entity":"V"}}}}}} => document: schema: type is not declared: V
{"entityTypes":{"U":{"attributes":{"x":{"set":{"entity":"V"}}}}}} => document: schema: type is not declared: V
{"entityTypes":{"U":{"attributes":{"x":{"record":{"y":{"entity":"V"}}}}}}} => document: schema: type is not declared: V
{"entityTypes":{"U":{"tags":{"entity":"V"}}}} => document: schema: type is not declared: V
{"entityTypes":{"U":{"tags":{"set":{"record":{"y":{"entity":"V"}}}}}}} => document: schema: type is not declared: V
{"entityTypes":{"U":{"tags":{"entity":"Action"}}},"actions":[{"id":["Action","a"]}]} => document: schema: type is not declared: Action"#;

// The least name or id of a fault.
const LEAST: &str =
    r#"{"actions":[{"id":["Action","b"]},{"id":["Action","b"]},{"id":["Action","a"]},{"id":["Action","a"]}]} => document: schema: duplicate action: Action::"a"
{"entityTypes":{"Y::Action":{},"X::Action":{"enum":["a"]}}} => document: schema: declared type has basename Action: X::Action
{"entityTypes":{"G":{"enum":[]},"F":{"enum":[]}}} => document: schema: no listed id: F
{"actions":[{"id":["B","a"]},{"id":["A","b"]},{"id":["A","a"]}]} => document: schema: action type has another basename: A::"a"
{"entityTypes":{"U":{"memberOf":["D"],"attributes":{"x":{"entity":"C"}},"tags":{"entity":"B"}}},"actions":[{"id":["Action","a"],"principals":["D"],"context":{"x":{"entity":"A"}}}]} => document: schema: type is not declared: A
{"entityTypes":{"U":{"memberOf":["A::B","A0"]}}} => document: schema: type is not declared: A0
{"actions":[{"id":["Action","a"],"memberOf":[["Action","d"],["Action","c"]]}]} => document: schema: action is not declared: Action::"c""#;

// Of two faults the one that the order has first.
const FIRST: &str = r#"{"entityTypes":{"Action":{"attributes":null}}} => document: schema
{"entityTypes":{"Action":{}},"actions":[{"id":["Action","a"]},{"id":["Action","a"]}]} => document: schema: duplicate action: Action::"a"
{"entityTypes":{"Action":{"enum":[]},"A":{"enum":[]}}} => document: schema: declared type has basename Action: Action
{"entityTypes":{"F":{"enum":[]}},"actions":[{"id":["Act","a"]}]} => document: schema: no listed id: F
{"entityTypes":{"F":{"enum":[]},"A":{"memberOf":["B"]}}} => document: schema: no listed id: F
{"actions":[{"id":["Act","a"],"principals":["V"]}]} => document: schema: action type has another basename: Act::"a"
{"actions":[{"id":["Action","a"],"resources":["V"],"memberOf":[["Action","b"]]}]} => document: schema: type is not declared: V
{"actions":[{"id":["Action","a"],"memberOf":[["Action","a"],["Action","b"]]}]} => document: schema: action is not declared: Action::"b"
{"actions":[{"id":["Action","a"],"memberOf":[["Action","a"]],"context":{"x":{"entity":"V"}}}]} => document: schema: type is not declared: V"#;

#[test]
fn faults_have_their_names(rt: HostRuntime) -> Result<(), AllocError> {
    for table in [ALONE, UNDECLARED, LEAST, FIRST] {
        let failures = failures::<Faults>(rt.alloc(), table)?;
        assert_same(&rt, failures.as_str(), "");
    }
    Ok(())
}
