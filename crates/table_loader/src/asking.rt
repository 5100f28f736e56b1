//! What rows answer, as a loader says it.

ghost use Rattle.std.specs.Prelude.{◌≡◌, Err, IfOk, Ok, true};
ghost use Rattle.table_loader.specs.RowsState.{has_failed};

use crate::RowsError;
use entity_loader::LoadError;

// What rows have read, or why they have not.
pub(crate) fn loaded<T>(read: Result<T, RowsError>) -> Result<T, LoadError>
    ensures ok { IfOk result (λ x. read ≡ Ok x) }
    ensures failed { result ≡ Err LoadError.Failed → has_failed read ≡ true }
{
    match read {
        Ok(found) => Ok(found),
        Err(RowsError::Failed) => Err(LoadError::Failed),
        Err(RowsError::OutOfMemory) => Err(LoadError::OutOfMemory),
    }
}
