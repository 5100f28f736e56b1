//! What is written of answers.
ghost use Rattle.std.specs.Prelude.{◌≡◌, IfOk, string_bytes};
ghost use Rattle.serde_json.specs.View.{view};
ghost use Rattle.entity_manifest.specs.Lines.{fault_message, line_on, refused_json, refused_line};

use crate::{BatchAnswer, EntitySliceError};
use finding_messages::Diagnostic;
use json_response::response_text;
use serde_json::{Map, Value, put};
use std::alloc::{AllocError, Global};

const PARTIAL: &str = "entity slicing requires a fully concrete request. Got a partial request";

/// The line on an answer: that of the response, or why there is none.
pub fn line_on(alloc: Global, answer: &BatchAnswer) -> Result<String, AllocError>
    ensures { IfOk result (λ s. string_bytes s ≡ line_on answer.now) }
{
    match answer {
        BatchAnswer::Partial => refused_line(alloc, PARTIAL),
        BatchAnswer::Refused(error) => {
            let message = error.message(alloc)?;
            refused_line(alloc, message.as_str())
        }
        BatchAnswer::Decided(response) => response_text(alloc, response),
        BatchAnswer::Loading(error) => refused_line(alloc, fault_message(error)),
    }
}

fn fault_message(error: &EntitySliceError) -> &'static str
    ensures { result.now ≡ fault_message error.now }
{
    match error {
        EntitySliceError::LoaderFault => "the loader failed",
        EntitySliceError::IncompatibleEntityManifest(_) =>
            "the entity manifest does not fit a value that it reaches",
        _ => "the loader's answers do not agree",
    }
}

/// Why there is no response, as JSON on a line of its own.
#[tactic(auto, unfolding(crate::specs::Lines::refused_line))]
pub fn refused_line(alloc: Global, message: &str) -> Result<String, AllocError>
    ensures { IfOk result (λ s. string_bytes s ≡ refused_line message.now) }
{
    let mut text = write_refused(alloc, message)?.to_string(alloc)?;
    text.push_str("\n")?;
    Ok(text)
}

fn write_refused(alloc: Global, message: &str) -> Result<Value, AllocError>
    ensures { IfOk result (λ v. view v ≡ refused_json message.now) }
{
    let message = Value::try_from_str(alloc, message)?;
    let mut members = Map::new(alloc);
    put(&mut members, alloc, "refused", message)?;
    Ok(Value::Object(members))
}
