//! Rows on which no decision rests.
ghost use Rattle.std.specs.Prelude.{◌≡◌, IfOk, string_bytes};
ghost use Rattle.directory_service.specs.Rows.{fault_text, row_line};

use conformance::EntityDoesNotConform;
use entity_manifest::{BatchAnswer, line_on, refused_line};
use policy_values::EntityUID;
use std::alloc::{AllocError, Global};

/// What is wrong with rows that a decision reads.
#[derive(Debug, Drop)]
pub enum RowFault {
    /// The row for this id is not the entity with it.
    NoEntity(EntityUID),
    /// The entity of a row breaks a rule of the schema.
    Breaks(EntityDoesNotConform),
    /// This id is its own ancestor, by the parents in the rows.
    Cycle(EntityUID),
}

/// Why a request is not decided.
#[derive(Debug, Drop)]
pub(crate) enum RowError {
    /// A row is at fault.
    Row(RowFault),
    /// The database failed.
    Database,
    /// There is no memory left.
    OutOfMemory,
}

impl From<AllocError> for RowError {
    ghost use Rattle.std.specs.Prelude.{◌≡◌};
    ghost use Rattle.directory_service.specs.declared.row_fault.RowError.TheVariants.{OutOfMemory};

    ghost from_gives = { λ _ e. e ≡ OutOfMemory };

    fn from(_error: AllocError) -> RowError {
        RowError::OutOfMemory
    }
}

/// What is answered to a request by rows.
#[derive(Debug, Drop)]
pub enum RowAnswer {
    /// The answer on the store of the rows, or that the database failed.
    Answer(BatchAnswer),
    /// A row that the request reads is at fault.
    Row(RowFault),
}

// The row, and what is wrong with it, behind `row: `.
fn fault_text(alloc: Global, fault: &RowFault) -> Result<String, AllocError>
    ensures { IfOk result (λ s. string_bytes s ≡ fault_text fault.now) }
{
    match fault {
        RowFault::NoEntity(uid) => format!(in alloc;
            "row: {uid}: it is not the entity with this id"
        ),
        RowFault::Cycle(uid) => format!(in alloc; "row: {uid}: it is its own ancestor"),
        RowFault::Breaks(error) => {
            let uid = &error.uid;
            let rule = &error.rule;
            format!(in alloc; "row: {uid}: {rule}")
        }
    }
}

/// The line on an answer by rows.
pub(crate) fn row_line(alloc: Global, answer: &RowAnswer) -> Result<String, AllocError>
    ensures { IfOk result (λ s. string_bytes s ≡ row_line answer.now) }
{
    match answer {
        RowAnswer::Answer(answer) => line_on(alloc, answer),
        RowAnswer::Row(fault) => {
            let text = fault_text(alloc, fault)?;
            refused_line(alloc, text.as_str())
        }
    }
}
