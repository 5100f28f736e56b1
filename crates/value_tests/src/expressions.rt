//! Expressions in JSON and their values, which come from the rules of evaluation (docs/DEFINITIONS.md). Each
//! line of a table says an expression and, behind ` => `, the value that it has in JSON, or the name of the
//! error.

mod grid;
mod rows;
mod texts;
mod wide;

use crate::lines::{Answers, assert_same, uid};
use entity_store::{Entities, EntitiesError, Entity};
use json_document::{Document, Scratch, Tree, read_document, read_tree};
use json_expressions::{Bounded, read_expr};
use json_response::write_value;
use policy_core::{EvalError, Expr, Outcome, evaluate};
use std::alloc::{AllocError, Global};
use std::collections::{BTreeMap, BTreeSet};

// Ann, who is one of the staff, who are of all, asks to view the photo x. Neither Bob, who is her boss, nor
// the photo is stored.
const DOCUMENT: &str =
    r#"{"schema":{},"entities":[{"id":["User","ann"],"parents":[["Group","staff"]],"attrs":{"a":1,"boss":{"id":["User","bob"]},"home":{"record":{"city":"Bonn"}}},"tags":{"floor":2}},{"id":["Group","staff"],"parents":[["Group","all"]]}],"request":{"principal":["User","ann"],"action":["Action","view"],"resource":["Photo","x"],"context":{"tries":3}}}"#;

// What an expression in JSON comes to: its value, the name of its error, or what is wrong with its text.
struct Evaluated;

impl Answers for Evaluated {
    fn answer(alloc: Global, asked: &str) -> Result<String, AllocError> {
        let mut scratch = Scratch::new(alloc);
        match read_tree(alloc, asked.as_bytes(), &mut scratch)? {
            Some(tree) => tree_answer(alloc, &tree),
            None => String::from_str(alloc, "json"),
        }
    }
}

fn tree_answer(alloc: Global, tree: &Tree<'_>) -> Result<String, AllocError> {
    match read_expr(alloc, tree)? {
        Some(Bounded::Within(expr)) => expr_answer(alloc, &expr),
        Some(Bounded::Nested) => String::from_str(alloc, "nested"),
        None => String::from_str(alloc, "form"),
    }
}

fn expr_answer(alloc: Global, expr: &Expr<()>) -> Result<String, AllocError> {
    match read_document(alloc, DOCUMENT.as_bytes()).ok() {
        Some(document) => answer_in(alloc, &document, expr),
        None => String::from_str(alloc, "no document"),
    }
}

fn answer_in(alloc: Global, document: &Document, expr: &Expr<()>) -> Result<String, AllocError> {
    if document.request.is_whole() {
        let outcome = evaluate(alloc, expr, &document.request, &document.entities)?;
        outcome_text(alloc, &outcome)
    } else {
        String::from_str(alloc, "no request")
    }
}

// The value in JSON, or the name of the error.
fn outcome_text(alloc: Global, outcome: &Outcome) -> Result<String, AllocError> {
    match outcome {
        Outcome::Value(value) => write_value(alloc, value)?.to_string(alloc),
        Outcome::Error(EvalError::MissingEntity(uid)) => format!(in alloc; "MissingEntity {uid}"),
        Outcome::Error(error) => format!(in alloc; "{error:?}"),
    }
}

fn staff(alloc: Global) -> Result<Entity, AllocError> {
    let id = uid(alloc, "Group", "staff")?;
    let none = BTreeMap::new(alloc);
    Ok(Entity::new(id, none, BTreeSet::new(alloc), BTreeMap::new(alloc)))
}

// How many entities the store has that is made of the staff so many times, or the id that stands twice.
fn stored(alloc: Global, times: u64) -> Result<String, AllocError> {
    let mut entities = Vec::new(alloc);
    for _ in 0..times {
        entities.push(staff(alloc)?)?;
    }
    match Entities::from_ancestors(alloc, entities) {
        Ok(store) => format!(in alloc; "{}", store.len()),
        Err(EntitiesError::Duplicate(uid)) => format!(in alloc; "{uid} twice"),
        Err(_) => Err(AllocError),
    }
}

#[test]
fn entities_stand_once(rt: HostRuntime) -> Result<(), AllocError> {
    let once = stored(rt.alloc(), 1)?;
    assert_same(&rt, once.as_str(), "1");
    let twice = stored(rt.alloc(), 2)?;
    assert_same(&rt, twice.as_str(), "Group::\"staff\" twice");
    Ok(())
}
