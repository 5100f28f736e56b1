//! From a document's bytes to the reply.
ghost use Rattle.std.specs.Prelude.{◌≡◌, None, IfOk, option_map, string_bytes};
ghost use Rattle.serde_json.specs.View.{view};
ghost use Rattle.entity_store.specs.Request.{IsWhole};
ghost use Rattle.conformance.specs.Misfits.{knows};
ghost use Rattle.conformance.specs.RequestRules.{first_request_fault};
ghost use Rattle.conformance.specs.Written.{request_text};
ghost use Rattle.finding_messages.specs.Written.{findings_text};
ghost use Rattle.json_response.specs.SliceJson.{decision_text};
ghost use Rattle.policy_gate.specs.Answer.{IsAnswer, IsAnswerTo, IsRefusedOr, IsWellMade, IsWork, found_at, found_in, manifest_text, refused_data, refused_decision, refused_policies, refused_request, refused_store, refused_with, request_fault, sample_line, slice_of, status_of, store_fault};
ghost use Rattle.policy_gate.specs.Command.{shape_of};
ghost use Rattle.policy_gate.specs.Headline.{KeepsRules};
ghost use Rattle.policy_gate.specs.Reply.{reply_view};

use crate::batch::batch;
use crate::command::{Command, shape_of};
use crate::laws::laws;
use crate::listing::listed;
use crate::live::live;
use crate::reply::{Reply, reply_with};
use crate::review::reviewed;
use crate::status::Status;
use conformance::laws::all_functions_are_known;
use conformance::{
    ConformanceError, EntityDoesNotConform, RequestValidationError, conforms, entity_text,
    request_text, validate_request,
};
use entity_store::Entities;
use json_document::{Document, DocumentFault, read_document_as};
use json_response::{response_text, slice_text};
use manifest_computation::{EntityManifestError, compute_entity_manifest, restricted_to_reads};
use manifest_core::EntityManifest;
use policy_scope::{ValidationResult, findings_text};
use policy_set::laws::{have_keys_once, is_policy_set};
use policy_set::{Decision, PolicySet, decide};
use policy_validate::laws::no_errors_where_accepted;
use policy_validate::{ValidationMode, Validator};
use policy_values::Text;
use serde_json::Value;
use std::alloc::{AllocError, Global};
use typing_spec::{ExtensionSchemas, all_objects};

const CONFORMS: &str = "conforms\n";

pub(crate) const PARTIAL_REQUEST: &str =
    "request: entity slicing requires a fully concrete request. Got a partial request\n";

/// The reply that is expected for the command and a document of these bytes, which are let go of once they are read:
/// the place of its first fault, or what is expected for the document that they are.
#[tactic(auto, unfolding(crate::specs::Answer::IsAnswer))]
pub(crate) fn reply(alloc: Global, command: &Command, bytes: Vec<u8>) -> Result<Reply, AllocError>
    ensures { IfOk result (λ r. IsAnswer command.now bytes.items (reply_view r)) }
{
    let read = read_document_as(alloc, shape_of(command), bytes.as_slice());
    drop(bytes);
    match read {
        Ok(mut document) => {
            is_well_made(&document);
            let reply = reply_to(alloc, command, &mut document);
            drop(document);
            reply
        }
        Err(DocumentFault::Place(place)) => Ok(Reply {
            status: Status::Document,
            text: format!(in alloc; "{place}\n")?,
        }),
        Err(DocumentFault::OutOfMemory) => Err(AllocError),
    }
}

/// What holds of each document.
pub(crate) fn is_well_made(document: &Document)
    ensures { IsWellMade document.now }
{
    is_policy_set(&document.policies);
    have_keys_once(&document.policies);
    let _actions = document.schema.action_ids();
}

// The reply to a document; `live` takes its edits.
fn reply_to(alloc: Global, command: &Command, document: &mut Document) -> Result<Reply, AllocError>
    ensures { IfOk result (λ r. IsAnswerTo command.now document.old (reply_view r)) }
{
    match command {
        Command::Check => with_findings(alloc, document),
        Command::Level(level) => with_levels(alloc, document, *level),
        Command::Request => conforming(alloc, document),
        Command::Manifest => with_manifest(alloc, document),
        Command::Slice => cut(alloc, document),
        Command::Decide => decided(alloc, document),
        Command::Sample { seed, size } => sampled(alloc, document, *seed, *size),
        Command::Batch => batch(alloc, document),
        Command::Live => live(alloc, document),
        Command::Review => reviewed(alloc, document),
        Command::List { limit, after } => listed(alloc, document, limit, after),
    }
}

// The findings on the policies.
fn with_findings(alloc: Global, document: &Document) -> Result<Reply, AllocError>
    ensures { IfOk result (λ r. IsAnswerTo Command.Check document.now (reply_view r)) }
{
    let found = found_in(alloc, document)?;
    reported(alloc, &found)
}

// The findings on the policies, which are checked for a level.
fn with_levels(alloc: Global, document: &Document, level: u32) -> Result<Reply, AllocError>
    ensures { IfOk result (λ r. IsAnswerTo (Command.Level level) document.now (reply_view r)) }
{
    let found = found_at(alloc, document, level)?;
    reported(alloc, &found)
}

/// The findings, with the status that they have.
pub(crate) fn reported(alloc: Global, found: &ValidationResult) -> Result<Reply, AllocError>
    ensures { IfOk result (λ r. IsRefusedOr (refused_with found.now.errors found.now)
        (λ text. text ≡ findings_text found.now) (reply_view r)) }
{
    let status = status_of(found);
    let text = findings_text(alloc, found)?;
    reply_with(alloc, status, text.as_str())
}

fn status_of(found: &ValidationResult) -> Status
    ensures { result ≡ status_of found.now.errors }
{
    if found.validation_passed() {
        Status::Done
    } else {
        Status::Findings
    }
}

// Whether the request and the store conform.
fn conforming(alloc: Global, document: &Document) -> Result<Reply, AllocError>
    ensures { IfOk result (λ r. IsAnswerTo Command.Request document.now (reply_view r)) }
{
    match refused_data(alloc, document)? {
        Some(reply) => Ok(reply),
        None => reply_with(alloc, Status::Done, CONFORMS),
    }
}

// The manifest of the policies.
fn with_manifest(alloc: Global, document: &Document) -> Result<Reply, AllocError>
    ensures { IfOk result (λ r. IsAnswerTo Command.Manifest document.now (reply_view r)) }
{
    no_errors_where_accepted();
    match compute_entity_manifest(alloc, &document.schema, &document.policies) {
        Ok(manifest) => written_manifest(alloc, &manifest),
        Err(EntityManifestError::Validation(found)) => reported(alloc, &found),
        Err(EntityManifestError::OutOfMemory) => Err(AllocError),
    }
}

/// The manifest, written.
pub(crate) fn written_manifest(
    alloc: Global,
    manifest: &EntityManifest,
) -> Result<Reply, AllocError>
    ensures { IfOk result (λ r. (r.status ≡ Status.Done) ×
        (string_bytes r.text ≡ manifest_text manifest.now)) }
{
    let text = manifest_text(alloc, manifest)?;
    Ok(Reply {
        status: Status::Done,
        text,
    })
}

#[tactic(auto, unfolding(crate::specs::Answer::manifest_text))]
fn manifest_text(alloc: Global, manifest: &EntityManifest) -> Result<String, AllocError>
    ensures { IfOk result (λ s. string_bytes s ≡ manifest_text manifest.now) }
{
    let written = manifest.to_json(alloc)?;
    let mut text = written.to_string(alloc)?;
    text.push_str("\n")?;
    Ok(text)
}

// The cut store with the decision on it, where the document keeps every rule.
fn cut(alloc: Global, document: &Document) -> Result<Reply, AllocError>
    ensures { IfOk result (λ r. IsAnswerTo Command.Slice document.now (reply_view r)) }
{
    match refused_decision(alloc, document)? {
        Some(reply) => Ok(reply),
        None => slice_reply(alloc, document),
    }
}

fn slice_reply(alloc: Global, document: &Document) -> Result<Reply, AllocError>
    requires { refused_decision document.now ≡ None }
    ensures done { IfOk result (λ r. r.status ≡ Status.Done) }
    ensures work { IfOk result (λ r. IsWork Command.Slice document.now (string_bytes r.text)) }
{
    keeps_rules(document);
    let slice = slice_of(alloc, document)?;
    let response = decide(alloc, &document.policies, &document.request, &slice)?;
    Ok(Reply {
        status: Status::Done,
        text: slice_text(alloc, &response, &slice)?,
    })
}

// The line on the cut store of a document with so many users, where the document keeps every rule.
fn sampled(alloc: Global, document: &Document, seed: u64, size: u64) -> Result<Reply, AllocError>
    ensures { IfOk result (λ r. IsAnswerTo (Command.Sample seed size) document.now (reply_view r)) }
{
    // The seed stands in the contract alone.
    let _seed = seed;
    match refused_decision(alloc, document)? {
        Some(reply) => Ok(reply),
        None => sample_reply(alloc, document, size),
    }
}

fn sample_reply(alloc: Global, document: &Document, size: u64) -> Result<Reply, AllocError>
    requires { refused_decision document.now ≡ None }
    ensures done { IfOk result (λ r. r.status ≡ Status.Done) }
    ensures work { IfOk result (λ r. string_bytes r.text ≡ sample_line size document.now) }
{
    keeps_rules(document);
    let slice = slice_of(alloc, document)?;
    let response = decide(alloc, &document.policies, &document.request, &slice)?;
    let decision = decision_word(response.decision());
    let kept = slice.len();
    Ok(Reply {
        status: Status::Done,
        text: format!(in alloc; "entities {size} kept {kept} decision {decision}\n")?,
    })
}

fn decision_word(decision: Decision) -> &'static str
    ensures { result.now ≡ decision_text decision }
{
    match decision {
        Decision::Allow => "Allow",
        Decision::Deny => "Deny",
    }
}

// The document's store restricted to what its policies read on its request.
fn slice_of(alloc: Global, document: &Document) -> Result<Entities, AllocError>
    requires { KeepsRules document.now }
    ensures { IfOk result (λ s. s ≡ slice_of document.now) }
{
    restricted_to_reads(
        alloc,
        &document.schema,
        &document.policies,
        &document.request,
        &document.entities,
    )
}

// A document of which nothing is refused keeps every rule.
fn keeps_rules(document: &Document)
    requires { refused_decision document.now ≡ None }
    ensures { KeepsRules document.now }
{
    laws();
    is_well_made(document);
}

// The decision on the whole store, where the document keeps every rule.
fn decided(alloc: Global, document: &Document) -> Result<Reply, AllocError>
    ensures { IfOk result (λ r. IsAnswerTo Command.Decide document.now (reply_view r)) }
{
    match refused_decision(alloc, document)? {
        Some(reply) => Ok(reply),
        None => decision_reply(alloc, document),
    }
}

fn decision_reply(alloc: Global, document: &Document) -> Result<Reply, AllocError>
    requires { IsWhole document.now.request }
    ensures done { IfOk result (λ r. r.status ≡ Status.Done) }
    ensures work { IfOk result (λ r. IsWork Command.Decide document.now (string_bytes r.text)) }
{
    let response = decide(
        alloc,
        &document.policies,
        &document.request,
        &document.entities,
    )?;
    Ok(Reply {
        status: Status::Done,
        text: response_text(alloc, &response)?,
    })
}

// What is answered in place of a decision, if anything; else the request is whole.
fn refused_decision(alloc: Global, document: &Document) -> Result<Option<Reply>, AllocError>
    ensures reported { IfOk result (λ o. option_map reply_view o ≡ refused_decision document.now) }
    ensures whole { IfOk result (λ o. o ≡ None → IsWhole document.now.request) }
{
    if !document.request.is_whole() {
        let reply = reply_with(alloc, Status::PartialRequest, PARTIAL_REQUEST)?;
        return Ok(Some(reply));
    }
    match refused_data(alloc, document)? {
        Some(reply) => Ok(Some(reply)),
        None => refused_policies(alloc, document),
    }
}

// The first rule that the request breaks, or else the store, if any.
fn refused_data(alloc: Global, document: &Document) -> Result<Option<Reply>, AllocError>
    ensures { IfOk result (λ o. option_map reply_view o ≡ refused_data document.now) }
{
    match refused_request(alloc, document)? {
        Some(reply) => Ok(Some(reply)),
        None => refused_store(alloc, document),
    }
}

fn refused_request(alloc: Global, document: &Document) -> Result<Option<Reply>, AllocError>
    ensures { IfOk result (λ o. option_map reply_view o ≡ refused_request document.now) }
{
    match broken_rule(alloc, document)? {
        Some(text) => {
            let reply = reply_with(alloc, Status::Request, text.as_str())?;
            Ok(Some(reply))
        }
        None => Ok(None),
    }
}

// The text on the first rule that the request breaks, if any.
fn broken_rule(alloc: Global, document: &Document) -> Result<Option<Text>, AllocError>
    ensures { IfOk result (λ o. o ≡ option_map request_text (request_fault document.now)) }
{
    let objects = all_objects(alloc)?;
    let extensions = ExtensionSchemas::all_available(alloc, &objects)?;
    all_functions_are_known();
    broken_with(alloc, document, &extensions)
}

// The same, where these extensions are there.
fn broken_with(
    alloc: Global,
    document: &Document,
    extensions: &ExtensionSchemas<'_>,
) -> Result<Option<Text>, AllocError>
    ensures { IfOk result (λ o. o ≡ option_map request_text
        (first_request_fault document.now.schema (knows extensions.now) document.now.request)) }
{
    match validate_request(alloc, &document.schema, &document.request, extensions) {
        Ok(()) => Ok(None),
        Err(RequestValidationError::OutOfMemory) => Err(AllocError),
        Err(error) => Ok(Some(request_text(alloc, &error)?)),
    }
}

/// What is answered for an entity of the store that breaks a rule, if one does.
pub(crate) fn refused_store(alloc: Global, document: &Document) -> Result<Option<Reply>, AllocError>
    ensures { IfOk result (λ o. option_map reply_view o ≡ refused_store document.now) }
{
    match store_fault(document)? {
        Some(error) => {
            let text = entity_text(alloc, &error)?;
            let reply = reply_with(alloc, Status::Store, text.as_str())?;
            Ok(Some(reply))
        }
        None => Ok(None),
    }
}

// The first entity that breaks a rule, with that rule, if any.
#[tactic(auto, unfolding(crate::specs::Answer::store_fault))]
fn store_fault(document: &Document) -> Result<Option<EntityDoesNotConform>, AllocError>
    ensures { IfOk result (λ o. option_map (λ e. (e.uid, e.rule)) o ≡ store_fault document.now) }
{
    match conforms(&document.schema, &document.entities) {
        Ok(()) => Ok(None),
        Err(ConformanceError::OutOfMemory) => Err(AllocError),
        Err(ConformanceError::EntityDoesNotConform(error)) => Ok(Some(error)),
    }
}

fn refused_policies(alloc: Global, document: &Document) -> Result<Option<Reply>, AllocError>
    ensures { IfOk result (λ o. option_map reply_view o ≡ refused_policies document.now) }
{
    let found = found_in(alloc, document)?;
    if found.validation_passed() {
        return Ok(None);
    }
    let text = findings_text(alloc, &found)?;
    let reply = reply_with(alloc, Status::Findings, text.as_str())?;
    Ok(Some(reply))
}

// What is found of the document's policies.
#[tactic(auto, unfolding(crate::specs::Answer::found_in))]
fn found_in(alloc: Global, document: &Document) -> Result<ValidationResult, AllocError>
    ensures { IfOk result (λ found. found ≡ found_in document.now) }
{
    let validator = Validator::new(&document.schema);
    validator.validate(alloc, &document.policies, ValidationMode::Strict)
}

// And where they are checked for a level.
#[tactic(auto, unfolding(crate::specs::Answer::found_at))]
fn found_at(alloc: Global, document: &Document, level: u32) -> Result<ValidationResult, AllocError>
    ensures { IfOk result (λ found. found ≡ found_at level document.now) }
{
    let validator = Validator::new(&document.schema);
    validator.validate_with_level(alloc, &document.policies, ValidationMode::Strict, level)
}
