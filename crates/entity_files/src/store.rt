//! Whether a store conforms, with its refusal as a text.
ghost use Rattle.std.specs.Prelude.{◌≡◌, None, IfOk, IfErr};
ghost use Rattle.conformance.specs.StoreRules.{first_store_fault};
ghost use Rattle.entity_files.specs.Rows.{IsRight, IsStoreError};

use crate::FileError;
use conformance::{ConformanceError, conforms, entity_text};
use entity_store::Entities;
use schema_core::ValidatorSchema;
use std::alloc::Global;

// The refusal, of which the text alone is kept.
fn refusal(alloc: Global, error: ConformanceError) -> FileError
    ensures { IsStoreError result }
{
    match &error {
        ConformanceError::OutOfMemory => FileError::OutOfMemory,
        ConformanceError::EntityDoesNotConform(fault) => match entity_text(alloc, fault) {
            Ok(text) => refused_with(alloc, text.as_str()),
            Err(_) => FileError::OutOfMemory,
        },
    }
}

fn refused_with(alloc: Global, text: &str) -> FileError
    ensures { IsStoreError result }
{
    match String::from_str(alloc, text) {
        Ok(text) => FileError::Refused(text),
        Err(_) => FileError::OutOfMemory,
    }
}

/// Checks that the store conforms. Errs with `Refused`, with the first rule that it breaks, only where it does
/// not; or where memory runs out.
pub fn check_store(
    alloc: Global,
    schema: &ValidatorSchema,
    entities: &Entities,
) -> Result<(), FileError>
    ensures conforms { IfOk result (λ _. first_store_fault schema.now entities.now ≡ None) }
    ensures kind { IfErr result IsStoreError }
    ensures right { IsRight (λ _. first_store_fault schema.now entities.now ≡ None) result }
{
    match conforms(schema, entities) {
        Ok(()) => Ok(()),
        Err(error) => Err(refusal(alloc, error)),
    }
}
