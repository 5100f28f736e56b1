//! Findings on policies: those of a document, and those before and after an edit.
ghost use Rattle.std.specs.Prelude.{◌≡◌, ◌++◌, IfOk, MatchOption, string_bytes};
ghost use Rattle.finding_messages.specs.Written.{findings_text};
ghost use Rattle.policy_validate.specs.Accepted.{IsAccepted, findings_of};
ghost use Rattle.edit_service.specs.declared.status.Status.TheVariants as status;
ghost use Rattle.edit_service.specs.Run.{AreAccepted, IsRefused};

use crate::document::EditDocument;
use crate::reply::Reply;
use crate::status::Status;
use policy_scope::{ValidationResult, findings_text};
use policy_set::PolicySet;
use policy_validate::Validator;
use schema_core::{ValidationMode, ValidatorSchema};
use std::alloc::{AllocError, Global};

/// The reply on the first set of the two that is not accepted; none, where both are.
pub(crate) fn refused(alloc: Global, document: &EditDocument) -> Result<Option<Reply>, AllocError>
    ensures { IfOk result (λ o. MatchOption o (AreAccepted document.now)
        (λ r. (r.status ≡ status.Findings) × IsRefused document.now (string_bytes r.text))) }
{
    match errors_of(alloc, &document.schema, &document.before)? {
        Some(found) => Ok(Some(refusal(alloc, "before:\n", &found)?)),
        None => match errors_of(alloc, &document.schema, &document.policies)? {
            Some(found) => Ok(Some(refusal(alloc, "", &found)?)),
            None => Ok(None),
        },
    }
}

// The reply on the findings, below a headline.
pub(crate) fn refusal(
    alloc: Global,
    headline: &str,
    found: &ValidationResult,
) -> Result<Reply, AllocError>
    ensures status { IfOk result (λ r. r.status ≡ status.Findings) }
    ensures text { IfOk result (λ r. string_bytes r.text ≡ headline.now ++ findings_text found.now) }
{
    let text = findings_text(alloc, found)?;
    Ok(Reply {
        status: Status::Findings,
        text: format!(in alloc; "{headline}{text}")?,
    })
}

// The findings on a set; none, where it is accepted.
pub(crate) fn errors_of(
    alloc: Global,
    schema: &ValidatorSchema,
    policies: &PolicySet,
) -> Result<Option<ValidationResult>, AllocError>
    ensures { IfOk result (λ o. MatchOption o (IsAccepted schema.now policies.now)
        (λ found. (found ≡ findings_of schema.now policies.now) × ¬ IsAccepted schema.now policies.now)) }
{
    let found = Validator::new(schema).validate(alloc, policies, ValidationMode::Strict)?;
    if found.validation_passed() {
        drop(found);
        Ok(None)
    } else {
        Ok(Some(found))
    }
}
