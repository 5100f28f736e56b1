//! A page of the principals that may do what the request asks.
ghost use Rattle.std.specs.Prelude.{◌≡◌, Some, IfOk, string_bytes};
ghost use Rattle.std.specs.List.{flat_map};
ghost use Rattle.conformance.specs.Written.{entity_text, request_text};
ghost use Rattle.policy_gate.specs.Answer.{IsAnswerTo, refused_listing};
ghost use Rattle.policy_gate.specs.Listing.{end_line, id_line, page_text};
ghost use Rattle.policy_gate.specs.Reply.{answer, reply_view};
ghost use Rattle.policy_gate.specs.declared.command.Command.{Command};
ghost use Rattle.principal_listing.specs.Refused.{WhyNoPage};

use crate::answer::{PARTIAL_REQUEST, is_well_made, reported};
use crate::command::PageLimit;
use crate::laws::laws;
use crate::reply::{Reply, reply_with};
use crate::status::Status;
use conformance::{EntityDoesNotConform, RequestValidationError, entity_text, request_text};
use json_document::Document;
use policy_values::EntityUID;
use principal_listing::{ListError, Page, list_principals};
use std::alloc::{AllocError, Global};

/// The page of so many principals at most that comes after the id, where every rule holds that does not speak
/// of the principal.
pub(crate) fn listed(
    alloc: Global,
    document: &Document,
    limit: &PageLimit,
    after: &Option<EntityUID>,
) -> Result<Reply, AllocError>
    ensures { IfOk result
        (λ r. IsAnswerTo (Command.List limit.now after.now) document.now (reply_view r)) }
{
    laws();
    is_well_made(document);
    match list_principals(
        alloc,
        &document.schema,
        &document.policies,
        &document.request,
        &document.entities,
        after.as_ref(),
        limit.get(),
    ) {
        Ok(page) => page_reply(alloc, &page),
        Err(error) => refused_page(alloc, document, error),
    }
}

// Why there is no page.
fn refused_page(alloc: Global, document: &Document, error: ListError) -> Result<Reply, AllocError>
    requires { WhyNoPage document.now.schema document.now.policies document.now.request
        document.now.entities error }
    ensures { IfOk result (λ r. refused_listing document.now ≡ Some (reply_view r)) }
{
    laws();
    is_well_made(document);
    match error {
        ListError::PartialRequest => reply_with(alloc, Status::PartialRequest, PARTIAL_REQUEST),
        ListError::Request(fault) => request_reply(alloc, &fault),
        ListError::EntityDoesNotConform(fault) => store_reply(alloc, &fault),
        ListError::Validation(found) => reported(alloc, &found),
        ListError::OutOfMemory => Err(AllocError),
    }
}

fn request_reply(alloc: Global, fault: &RequestValidationError) -> Result<Reply, AllocError>
    ensures { IfOk result (λ r. reply_view r ≡ answer Status.Request (request_text fault.now)) }
{
    let text = request_text(alloc, fault)?;
    reply_with(alloc, Status::Request, text.as_str())
}

fn store_reply(alloc: Global, fault: &EntityDoesNotConform) -> Result<Reply, AllocError>
    ensures { IfOk result (λ r. reply_view r ≡ answer Status.Store (entity_text fault.now)) }
{
    let text = entity_text(alloc, fault)?;
    reply_with(alloc, Status::Store, text.as_str())
}

fn page_reply(alloc: Global, page: &Page) -> Result<Reply, AllocError>
    ensures { IfOk result (λ r. (r.status ≡ Status.Done) ×
        (string_bytes r.text ≡ page_text page.now.ids.items page.now.more)) }
{
    let mut text = id_lines(alloc, &page.ids)?;
    text.push_str(end_line(page.more))?;
    Ok(Reply {
        status: Status::Done,
        text,
    })
}

fn end_line(more: bool) -> &'static str
    ensures { result.now ≡ end_line more }
{
    if more { "more\n" } else { "end\n" }
}

fn id_lines(alloc: Global, ids: &Vec<EntityUID>) -> Result<String, AllocError>
    ensures { IfOk result (λ s. string_bytes s ≡ flat_map id_line ids.now.items) }
{
    let mut text = String::new(alloc);
    for id in ids {
        let line = id_line(alloc, id)?;
        text.push_str(line.as_str())?;
    }
    Ok(text)
}

fn id_line(alloc: Global, id: &EntityUID) -> Result<String, AllocError>
    ensures { IfOk result (λ s. string_bytes s ≡ id_line id.now) }
{
    format!(in alloc; "{id}\n")
}
