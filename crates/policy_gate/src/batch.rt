//! Many requests, decided over one store.
ghost use Rattle.std.specs.Prelude.{◌≡◌, None, IfOk, string_bytes};
ghost use Rattle.std.specs.List.{All, flat_map};
ghost use Rattle.serde_json.specs.View.{view};
ghost use Rattle.policy_gate.specs.Answer.{IsAnswerTo, IsRefusedOr, IsWork, refused_json, refused_line, refused_policies, refused_store};
ghost use Rattle.policy_gate.specs.Batch.{IsReportedOfStore, line_on};
ghost use Rattle.policy_gate.specs.declared.command.Command.{Command};
ghost use Rattle.policy_gate.specs.Reply.{reply_view};

use crate::answer::{is_well_made, refused_store, reported};
use crate::laws::laws;
use crate::reply::Reply;
use crate::status::Status;
use entity_manifest::{BatchAnswer, decide_batch_on_store};
use finding_messages::Diagnostic;
use json_document::Document;
use json_response::response_text;
use manifest_computation::EntityManifestError;
use serde_json::{Map, Value, put};
use std::alloc::{AllocError, Global};

const PARTIAL: &str = "entity slicing requires a fully concrete request. Got a partial request";

/// A line for each request, where the store conforms and the policies are accepted.
pub(crate) fn batch(alloc: Global, document: &Document) -> Result<Reply, AllocError>
    ensures { IfOk result (λ r. IsAnswerTo Command.Batch document.now (reply_view r)) }
{
    match refused_store(alloc, document)? {
        Some(reply) => Ok(reply),
        None => over_store(alloc, document),
    }
}

// The same, where the store conforms.
fn over_store(alloc: Global, document: &Document) -> Result<Reply, AllocError>
    requires { refused_store document.now ≡ None }
    ensures { IfOk result (λ r. IsRefusedOr (refused_policies document.now)
        (IsWork Command.Batch document.now) (reply_view r)) }
{
    laws();
    is_well_made(document);
    match decide_batch_on_store(
        alloc,
        &document.schema,
        &document.policies,
        document.requests.as_vec(),
        &document.entities,
    ) {
        Ok(answers) => lines_reply(alloc, &answers),
        Err(EntityManifestError::Validation(found)) => reported(alloc, &found),
        Err(EntityManifestError::OutOfMemory) => Err(AllocError),
    }
}

fn lines_reply(alloc: Global, answers: &Vec<BatchAnswer>) -> Result<Reply, AllocError>
    requires { All IsReportedOfStore answers.now.items }
    ensures { IfOk result (λ r. (r.status ≡ Status.Done) ×
        (string_bytes r.text ≡ flat_map line_on answers.now.items)) }
{
    let text = lines(alloc, answers)?;
    Ok(Reply {
        status: Status::Done,
        text,
    })
}

fn lines(alloc: Global, answers: &Vec<BatchAnswer>) -> Result<String, AllocError>
    requires { All IsReportedOfStore answers.now.items }
    ensures { IfOk result (λ s. string_bytes s ≡ flat_map line_on answers.now.items) }
{
    let mut text = String::new(alloc);
    for answer in answers {
        let line = line_on(alloc, answer)?;
        text.push_str(line.as_str())?;
    }
    Ok(text)
}

// The line on the answer to a request.
fn line_on(alloc: Global, answer: &BatchAnswer) -> Result<String, AllocError>
    requires { IsReportedOfStore answer.now }
    ensures { IfOk result (λ s. string_bytes s ≡ line_on answer.now) }
{
    match answer {
        BatchAnswer::Partial => refused_line(alloc, PARTIAL),
        BatchAnswer::Refused(error) => {
            let message = error.message(alloc)?;
            refused_line(alloc, message.as_str())
        }
        BatchAnswer::Decided(response) => response_text(alloc, response),
        // A store in memory is at hand.
        BatchAnswer::Loading(_) => unreachable!(),
    }
}

// Why there is no response to a request, on a line of its own.
fn refused_line(alloc: Global, message: &str) -> Result<String, AllocError>
    ensures { IfOk result (λ s. string_bytes s ≡ refused_line message.now) }
{
    let mut text = write_refused(alloc, message)?.to_string(alloc)?;
    text.push_str("\n")?;
    Ok(text)
}

fn write_refused(alloc: Global, message: &str) -> Result<Value, AllocError>
    ensures { IfOk result (λ v. view v ≡ refused_json message.now) }
{
    let message = Value::try_from_str(alloc, message)?;
    let mut members = Map::new(alloc);
    put(&mut members, alloc, "refused", message)?;
    Ok(Value::Object(members))
}
