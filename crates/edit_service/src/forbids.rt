//! What can end the forbids of a document with an error.
ghost use Rattle.std.specs.Prelude.{◌≡◌, ◌++◌, IfOk, OnOk, flat_map, string_bytes};
ghost use Rattle.edit_service.specs.Forbids.{AreForbidLines, SaysForbids, at_place, cause_line, cause_word, ending_lines, ending_word};
ghost use Rattle.policy_compare.specs.Conditions.{is_permit};
ghost use Rattle.edit_service.specs.Run.{IsForbidsAnswerOn};

use crate::acceptance::{errors_of, refusal};
use crate::reply::Reply;
use crate::status::Status;
use json_document::Document;
use policy_expressions::Loc;
use policy_risks::{Assumed, Cause, CauseKind, Endings, endings_of};
use policy_set::{Effect, PolicySet};
use policy_values::Text;
use schema_core::ValidatorSchema;
use std::alloc::{AllocError, Global};
use std::fmt::Write;
use typecheck_walk::Extensions;
use typing_spec::{ExtensionSchemas, all_objects};

/// The reply on a document: what is found of its forbids, where its policies are accepted.
pub(crate) fn fail_open(
    alloc: Global,
    document: &Document,
    assumed: Assumed,
) -> Result<Reply, AllocError>
    ensures { IfOk result (λ r. IsForbidsAnswerOn assumed document.now r.status (string_bytes r.text)) }
{
    match errors_of(alloc, &document.schema, &document.policies)? {
        Some(found) => refusal(alloc, "", &found),
        None => Ok(Reply {
            status: Status::Done,
            text: forbid_lines(alloc, &document.schema, &document.policies, assumed)?,
        }),
    }
}

// The lines on the forbids.
fn forbid_lines(
    alloc: Global,
    schema: &ValidatorSchema,
    policies: &PolicySet,
    assumed: Assumed,
) -> Result<String, AllocError>
    ensures { IfOk result (λ s. AreForbidLines schema.now assumed policies.now.policies (string_bytes s)) }
{
    let objects = all_objects(alloc)?;
    let schemas = ExtensionSchemas::all_available(alloc, &objects)?;
    let extensions = Extensions::new(&schemas);
    let envs = schema.unlinked_request_envs(alloc)?;
    let mut text = String::new(alloc);
    for policy in policies.policies() {
        if is_permit(policy.effect()) {
            continue;
        }
        let endings = endings_of(alloc, schema, &extensions, &envs, policy, assumed)?;
        let lines = ending_lines(alloc, policy.id(), &endings)?;
        text.push_str(lines.as_str())?;
    }
    Ok(text)
}

fn is_permit(effect: Effect) -> bool
    ensures { result ≡ is_permit effect }
{
    match effect {
        Effect::Permit => true,
        Effect::Forbid => false,
    }
}

// The lines on a forbid.
fn ending_lines(alloc: Global, id: &Text, endings: &Endings) -> Result<String, AllocError>
    ensures { IfOk result (λ s. string_bytes s ≡ ending_lines id.now endings.now) }
{
    let word = ending_word(endings.closed);
    let mut text = format!(in alloc; "{word} {id}\n")?;
    let causes = cause_lines(alloc, &endings.causes)?;
    text.push_str(causes.as_str())?;
    Ok(text)
}

fn ending_word(closed: bool) -> &'static str
    ensures { result.now ≡ ending_word closed }
{
    if closed { "closed" } else { "unknown" }
}

fn cause_lines(alloc: Global, causes: &Vec<Cause>) -> Result<String, AllocError>
    ensures { IfOk result (λ s. string_bytes s ≡ flat_map cause_line causes.now.items) }
{
    let mut text = String::new(alloc);
    for cause in causes {
        let line = cause_line(alloc, cause)?;
        text.push_str(line.as_str())?;
    }
    Ok(text)
}

fn cause_line(alloc: Global, cause: &Cause) -> Result<String, AllocError>
    ensures { IfOk result (λ s. string_bytes s ≡ cause_line cause.now) }
{
    let word = cause_word(cause.kind);
    let place = at_place(alloc, cause.place)?;
    format!(in alloc; "  {word}{place}\n")
}

fn cause_word(kind: CauseKind) -> &'static str
    ensures { result.now ≡ cause_word kind }
{
    match kind {
        CauseKind::MissingEntity => "entity does not exist",
        CauseKind::IntegerOverflow => "integer overflow",
        CauseKind::ExtensionOverflow => "datetime or duration overflow",
    }
}

fn at_place(alloc: Global, place: Option<Loc>) -> Result<String, AllocError>
    ensures { IfOk result (λ s. string_bytes s ≡ at_place place) }
{
    match place {
        Some(loc) => {
            let start = loc.start;
            let end = loc.end;
            format!(in alloc; " at {start}..{end}")
        }
        None => Ok(String::new(alloc)),
    }
}
