//! The review of the policies.
ghost use Rattle.std.specs.Prelude.{◌≡◌, ◌++◌, IfOk, string_bytes};
ghost use Rattle.std.specs.List.{flat_map};
ghost use Rattle.policy_gate.specs.Answer.{IsAnswerTo, level_line, row_line, verdict_word};
ghost use Rattle.policy_gate.specs.Reply.{reply_view};
ghost use Rattle.policy_gate.specs.declared.command.Command.{Command};

use crate::answer::reported;
use crate::reply::Reply;
use crate::status::Status;
use json_document::Document;
use policy_review::{PolicyLevel, Review, ReviewError, ReviewRow, Verdict, review};
use policy_validate::laws::no_errors_where_accepted;
use std::alloc::{AllocError, Global};

/// The review, where the policies are accepted.
pub(crate) fn reviewed(alloc: Global, document: &Document) -> Result<Reply, AllocError>
    ensures { IfOk result (λ r. IsAnswerTo Command.Review document.now (reply_view r)) }
{
    no_errors_where_accepted();
    match review(alloc, &document.schema, &document.policies) {
        Ok(review) => written_review(alloc, &review),
        Err(ReviewError::Validation(found)) => reported(alloc, &found),
        Err(ReviewError::OutOfMemory) => Err(AllocError),
    }
}

fn written_review(alloc: Global, review: &Review) -> Result<Reply, AllocError>
    ensures { IfOk result (λ r. (r.status ≡ Status.Done)
        × (string_bytes r.text ≡
        flat_map row_line review.now.matrix.items ++ flat_map level_line review.now.levels.items)) }
{
    let mut text = row_lines(alloc, &review.matrix)?;
    let levels = level_lines(alloc, &review.levels)?;
    text.push_str(levels.as_str())?;
    Ok(Reply {
        status: Status::Done,
        text,
    })
}

fn row_lines(alloc: Global, rows: &Vec<ReviewRow>) -> Result<String, AllocError>
    ensures { IfOk result (λ s. string_bytes s ≡ flat_map row_line rows.now.items) }
{
    let mut text = String::new(alloc);
    for row in rows {
        let line = row_line(alloc, row)?;
        text.push_str(line.as_str())?;
    }
    Ok(text)
}

fn row_line(alloc: Global, row: &ReviewRow) -> Result<String, AllocError>
    ensures { IfOk result (λ s. string_bytes s ≡ row_line row.now) }
{
    let verdict = verdict_word(row.verdict);
    let id = &row.policy_id;
    let principal = &row.request_type.principal;
    let action = &row.request_type.action;
    let resource = &row.request_type.resource;
    format!(in alloc; "{verdict} {id}: {principal}, {action}, {resource}\n")
}

fn verdict_word(verdict: Verdict) -> &'static str
    ensures { result.now ≡ verdict_word verdict }
{
    match verdict {
        Verdict::Never => "never",
        Verdict::May => "may",
    }
}

fn level_lines(alloc: Global, levels: &Vec<PolicyLevel>) -> Result<String, AllocError>
    ensures { IfOk result (λ s. string_bytes s ≡ flat_map level_line levels.now.items) }
{
    let mut text = String::new(alloc);
    for level in levels {
        let line = level_line(alloc, level)?;
        text.push_str(line.as_str())?;
    }
    Ok(text)
}

fn level_line(alloc: Global, level: &PolicyLevel) -> Result<String, AllocError>
    ensures { IfOk result (λ s. string_bytes s ≡ level_line level.now) }
{
    let id = &level.policy_id;
    match level.level {
        Some(n) => format!(in alloc; "level {id}: {n}\n"),
        None => format!(in alloc; "level {id}: none\n"),
    }
}
