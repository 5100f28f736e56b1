//! Decisions on many requests, over rows of which a call fails, and over the store.

use crate::texts::assert_same;
use entity_loading::EntitySliceError;
use entity_manifest::{BatchAnswer, decide_batch_on_rows, decide_batch_on_store};
use json_document::{Document, Shape, read_document_as};
use policy_set::{Decision, Response};
use std::alloc::{AllocError, Global};
use table_loader::{MemoryRows, RowLoader};

// Who is in the group g may view; alice is in it.
const GROUP: &str =
    r#"{"schema":{"entityTypes":{"Group":{},"Photo":{},"User":{"memberOf":["Group"]}},"actions":[{"id":["Action","view"],"principals":["User"],"resources":["Photo"]}]},"policies":[{"id":"p0","effect":"permit","principal":{"in":["Group","g"]}}],"entities":[{"id":["User","alice"],"parents":[["Group","g"],["Group","h"]]}]"#;

// Of alice and of bob, whom the store does not have. Of each the rows are asked whether there is such a user,
// and whether it is in g.
const BOTH: &str =
    r#"[{"principal":["User","alice"],"action":["Action","view"],"resource":["Photo","x"],"context":{}},{"principal":["User","bob"],"action":["Action","view"],"resource":["Photo","x"],"context":{}}]"#;

// Of alice; of nobody that is known; of a group, for which the action is not; of bob.
const MIXED: &str =
    r#"[{"principal":["User","alice"],"action":["Action","view"],"resource":["Photo","x"],"context":{}},{"principal":null,"action":["Action","view"],"resource":["Photo","x"],"context":{}},{"principal":["Group","g"],"action":["Action","view"],"resource":["Photo","x"],"context":{}},{"principal":["User","bob"],"action":["Action","view"],"resource":["Photo","x"],"context":{}}]"#;

fn answer_word(answer: &BatchAnswer) -> &'static str {
    match answer {
        BatchAnswer::Partial => "partial ",
        BatchAnswer::Refused(_) => "refused ",
        BatchAnswer::Loading(EntitySliceError::LoaderFault) => "fault ",
        BatchAnswer::Loading(_) => "not loaded ",
        BatchAnswer::Decided(response) => decision_word(response),
    }
}

fn decision_word(response: &Response) -> &'static str {
    match response.decision() {
        Decision::Allow => "allow ",
        Decision::Deny => "deny ",
    }
}

fn answers_text(alloc: Global, answers: &Vec<BatchAnswer>) -> Result<String, AllocError> {
    let mut text = String::new(alloc);
    for answer in answers {
        text.push_str(answer_word(answer))?;
    }
    Ok(text)
}

// The answers over rows of the document's store, of which this call fails.
fn on_rows(alloc: Global, document: &Document, failing: u64) -> Result<String, AllocError> {
    let calls = vec![in alloc; failing]?;
    let rows = MemoryRows::from_entities(alloc, &document.entities, &calls)?;
    let mut loader = RowLoader::new(rows);
    let Document {
        schema,
        policies,
        requests,
        ..
    } = document;
    let requests = requests.as_vec();
    let answers = decide_batch_on_rows(alloc, schema, policies, requests, &mut loader);
    answers_text(alloc, &answers.ok().ok_or(AllocError)?)
}

fn on_store(alloc: Global, document: &Document) -> Result<String, AllocError> {
    let Document {
        schema,
        policies,
        entities,
        requests,
        ..
    } = document;
    let requests = requests.as_vec();
    let answers = decide_batch_on_store(alloc, schema, policies, requests, entities);
    answers_text(alloc, &answers.ok().ok_or(AllocError)?)
}

// The document of some requests; a text that says none counts as out of memory.
fn document_of(alloc: Global, requests: &str) -> Result<Document, AllocError> {
    let text = format!(in alloc; "{GROUP},\"requests\":{requests}}}")?;
    let document = read_document_as(alloc, Shape::Batch, text.as_bytes());
    document.ok().ok_or(AllocError)
}

// The answers over rows of which this call fails; without one, over the store.
fn answered(alloc: Global, requests: &str, failing: Option<u64>) -> Result<String, AllocError> {
    let document = document_of(alloc, requests)?;
    match failing {
        Some(failing) => on_rows(alloc, &document, failing),
        None => on_store(alloc, &document),
    }
}

#[test]
fn requests_are_answered(rt: HostRuntime) -> Result<(), AllocError> {
    let rows = [
        (BOTH, None, "allow deny "),
        (BOTH, Some(0), "fault deny "),
        (BOTH, Some(1), "fault deny "),
        (BOTH, Some(2), "allow fault "),
        (BOTH, Some(3), "allow fault "),
        (BOTH, Some(4), "allow deny "),
        (MIXED, None, "allow partial refused deny "),
        (MIXED, Some(2), "allow partial refused fault "),
        ("[]", None, ""),
        ("[]", Some(0), ""),
    ];
    for (requests, failing, expected) in rows {
        let text = answered(rt.alloc(), requests, failing)?;
        assert_same(&rt, text.as_str(), expected);
    }
    Ok(())
}
