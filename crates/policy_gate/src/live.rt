//! The manifest of the policies that the edits of a document leave.
ghost use Rattle.std.specs.Prelude.{◌≡◌, ℕ, List, None, Option, IfOk, IfErr, OnOk, IsOk, Some, map, option_map, string_bytes};
ghost use Rattle.live_manifest.specs.Edits.{Refusal, after_edits, errors, refusal};
ghost use Rattle.live_manifest.specs.Kept.{IsMade, IsRefusedFor};
ghost use Rattle.policy_set.specs.PolicySet.{PolicySetData};
ghost use Rattle.policy_set.specs.Removal.{IsNotRemoved, removal_fault};
ghost use Rattle.policy_gate.specs.Answer.{IsAnswerTo, IsAnswerToEdits, IsManifestText};
ghost use Rattle.policy_gate.specs.Live.{edit_for, edit_text, fault_text, first_refused, refusal_text, removal_text};
ghost use Rattle.policy_gate.specs.Reply.{reply_view};
ghost use Rattle.policy_gate.specs.declared.command.Command.{Command};
ghost use Rattle.json_document.specs.declared.edit.Edit.TheVariants as edit_of;

use crate::answer::written_manifest;
use crate::reply::Reply;
use crate::status::Status;
use json_document::{Document, Edit, Edits, TemplateLink, slot_pairs};
use live_manifest::{AcceptedPolicies, LiveManifestError, Steps};
use manifest_computation::{EntityManifestError, compute_entity_manifest};
use policy_scope::{ValidationResult, findings_text};
use policy_set::laws::{have_keys_once, is_policy_set};
use policy_set::{PolicySetError, RemovalError, Template};
use policy_values::Text;
use schema_core::ValidatorSchema;
use std::alloc::{AllocError, Global};
use std::marker::Brand;
use std::mem;
use std::sync::ledger::{Blank, Ledger};

/// The manifest of the policies that the document's edits leave, where none of them is refused; the edits are
/// taken out.
pub(crate) fn live(alloc: Global, document: &mut Document) -> Result<Reply, AllocError>
    ensures { IfOk result (λ r. IsAnswerTo Command.Live document.old (reply_view r)) }
{
    let edits = mem::replace(&mut document.edits, Edits::new(Vec::new(alloc)));
    edited::<Brand>(alloc, &document.schema, edits, Blank::new(1))
}

// The same of these edits, by a ledger that nothing else counts on.
fn edited<L: Ledger>(
    alloc: Global,
    schema: &ValidatorSchema,
    edits: Edits,
    blank: Blank,
) -> Result<Reply, AllocError>
    requires name { blank.name ≡ L.name }
    requires parts { blank.parts ≡ L.parts }
    requires one { blank.parts ≡ 1 }
    ensures { IfOk result (λ r. IsAnswerToEdits schema.now (map edit_for edits) (reply_view r)) }
{
    let mut steps = Steps::<L>::new(blank);
    let mut live = AcceptedPolicies::new(alloc, schema);
    match make_all(alloc, &mut live, edits.into_vec(), &mut steps)? {
        Some(text) => Ok(Reply {
            status: Status::Edit,
            text,
        }),
        None => manifest_reply(alloc, &live),
    }
}

// The manifest of the policies that the edits leave, written; with two facts of every set of policies, by which
// what they read is enough.
fn manifest_reply(alloc: Global, live: &AcceptedPolicies<'_>) -> Result<Reply, AllocError>
    ensures done { IfOk result (λ r. r.status ≡ Status.Done) }
    ensures work { IfOk result (λ r.
        IsManifestText live.now.schema live.now.policies (string_bytes r.text)) }
{
    let policies = live.policies();
    is_policy_set(policies);
    have_keys_once(policies);
    match compute_entity_manifest(alloc, live.schema(), policies) {
        Ok(manifest) => written_manifest(alloc, &manifest),
        Err(EntityManifestError::OutOfMemory) => Err(AllocError),
        // The policies are accepted.
        Err(EntityManifestError::Validation(_)) => unreachable!(),
    }
}

// Makes the edits, up to the first that is refused: then the text on it.
fn make_all<L: Ledger>(
    alloc: Global,
    live: &mut AcceptedPolicies<'_>,
    edits: Vec<Edit>,
    steps: &mut Steps<L>,
) -> Result<Option<String>, AllocError>
    ensures made { IfOk result (λ o. o ≡ None → (live.new.schema ≡ live.old.schema)
        × (live.new.policies ≡ after_edits live.old.schema live.old.policies (map edit_for edits.items))) }
    ensures refused { IfOk result (λ o. option_map string_bytes o
        ≡ option_map edit_text
        (first_refused live.old.schema 0 live.old.policies (map edit_for edits.items))) }
{
    let mut number: usize = 0;
    for edit in edits {
        if let Some(why) = make(alloc, live, edit, steps)? {
            let text = format!(in alloc; "edit {number}: {why}")?;
            return Ok(Some(text));
        }
        number += 1;
    }
    Ok(None)
}

// Makes the edit; where it is refused, says why.
fn make<L: Ledger>(
    alloc: Global,
    live: &mut AcceptedPolicies<'_>,
    edit: Edit,
    steps: &mut Steps<L>,
) -> Result<Option<String>, AllocError>
    ensures made { IfOk result (λ o. o ≡ None → IsMade (edit_for edit) live.old live.new) }
    ensures refused { IfOk result (λ o. option_map string_bytes o
        ≡ option_map refusal_text (refusal live.old.schema live.old.policies (edit_for edit))) }
{
    match edit {
        Edit::Policy(template) => add(alloc, live, template, steps),
        Edit::Link(values) => link(alloc, live, values, steps),
        Edit::Remove(id) => remove(alloc, live, id),
    }
}

fn add<L: Ledger>(
    alloc: Global,
    live: &mut AcceptedPolicies<'_>,
    template: Template,
    steps: &mut Steps<L>,
) -> Result<Option<String>, AllocError>
    ensures made { IfOk result (λ o. o ≡ None →
        IsMade (edit_for (edit_of.Policy template)) live.old live.new) }
    ensures refused { IfOk result (λ o. option_map string_bytes o
        ≡ option_map refusal_text
        (refusal live.old.schema live.old.policies (edit_for (edit_of.Policy template)))) }
{
    if template.has_slot() {
        let added = live.add_template(template, steps);
        why_not_added(alloc, added)
    } else {
        let added = live.add_static(template, steps);
        why_not_added(alloc, added)
    }
}

fn link<L: Ledger>(
    alloc: Global,
    live: &mut AcceptedPolicies<'_>,
    link: TemplateLink,
    steps: &mut Steps<L>,
) -> Result<Option<String>, AllocError>
    ensures made { IfOk result (λ o. o ≡ None →
        IsMade (edit_for (edit_of.Link link)) live.old live.new) }
    ensures refused { IfOk result (λ o. option_map string_bytes o
        ≡ option_map refusal_text
        (refusal live.old.schema live.old.policies (edit_for (edit_of.Link link)))) }
{
    let TemplateLink {
        id,
        template,
        values,
    } = link;
    let pairs = slot_pairs(alloc, values)?;
    let added = live.link(&template, id, pairs, steps);
    why_not_added(alloc, added)
}

fn remove(
    alloc: Global,
    live: &mut AcceptedPolicies<'_>,
    id: Text,
) -> Result<Option<String>, AllocError>
    ensures made { IfOk result (λ o. o ≡ None →
        IsMade (edit_for (edit_of.Remove id)) live.old live.new) }
    ensures refused { IfOk result (λ o. option_map string_bytes o
        ≡ option_map refusal_text
        (refusal live.old.schema live.old.policies (edit_for (edit_of.Remove id)))) }
{
    match live.remove(&id) {
        Ok(()) => Ok(None),
        Err(fault) => Ok(Some(String::from_str(alloc, removal_text(fault))?)),
    }
}

// Why an entry is not added, where it is not.
fn why_not_added(
    alloc: Global,
    added: Result<(), LiveManifestError>,
) -> Result<Option<String>, AllocError>
    ensures added { IfOk result (λ o. o ≡ None → IsOk added) }
    ensures reported { (why : Option Refusal) → OnOk added (why ≡ None) → IfErr added (IsRefusedFor why)
        → IfOk result (λ o. option_map string_bytes o ≡ option_map refusal_text why) }
{
    match added {
        Ok(()) => Ok(None),
        Err(LiveManifestError::PolicySet(fault)) => {
            Ok(Some(String::from_str(alloc, fault_text(&fault))?))
        }
        Err(LiveManifestError::Validation(found)) => Ok(Some(found_text(alloc, &found)?)),
        Err(LiveManifestError::OutOfMemory) => Err(AllocError),
    }
}

fn fault_text(fault: &PolicySetError) -> &'static str
    ensures { result.now ≡ fault_text fault.now }
{
    match fault {
        PolicySetError::DuplicateId(_) => "duplicate id\n",
        PolicySetError::UnknownTemplate(_) => "unknown template\n",
        PolicySetError::SlotMissing(_) => "slot missing\n",
        PolicySetError::SlotExtra(_) => "slot extra\n",
        // This is reported in its own way.
        PolicySetError::OutOfMemory => "",
    }
}

fn removal_text(fault: RemovalError<'_>) -> &'static str
    ensures { (set : PolicySetData) (id : List ℕ) → IsNotRemoved set id fault.entry →
        Some result.now ≡ option_map removal_text (removal_fault set id) }
{
    match fault {
        RemovalError::UnknownPolicy(_) => "unknown id\n",
        RemovalError::TemplateInUse(_) => "template in use\n",
    }
}

// What is found of an entry, behind a line of its own.
fn found_text(alloc: Global, found: &ValidationResult) -> Result<String, AllocError>
    ensures { IfOk result (λ s. string_bytes s ≡ refusal_text (errors found.now)) }
{
    let mut text = String::from_str(alloc, "findings\n")?;
    let findings = findings_text(alloc, found)?;
    text.push_str(findings.as_str())?;
    Ok(text)
}
