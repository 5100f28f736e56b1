//! What is wrong with a database, in few words.
ghost use Rattle.std.specs.Prelude.{◌≡◌};
ghost use Rattle.entity_files.specs.declared.fault.FileError.TheVariants.{OutOfMemory};
ghost use Rattle.entity_files.specs.Rows.{IsDatabaseError};

use sqlite::{Error, ErrorCode};
use std::alloc::{AllocError, Global};

/// Why a database is not opened, filled or read.
#[derive(Debug, Drop)]
pub enum FileError {
    /// The database cannot be opened, failed, or has a row with one of the ids: why, in the words of SQLite.
    Database(String),
    /// The database has another schema than the table of entities.
    OtherSchema,
    /// A transaction is open.
    InTransaction,
    /// A row is not the entity with its type and eid: which row, and why.
    Row(String),
    /// The store does not conform, or an entity is its own ancestor: what is wrong first, on a line.
    Refused(String),
    /// There is no memory left.
    OutOfMemory,
}

impl From<AllocError> for FileError {
    ghost from_gives = { λ _ e. e ≡ OutOfMemory };

    fn from(_error: AllocError) -> FileError {
        FileError::OutOfMemory
    }
}

// The words of SQLite for an error.
fn words_of(alloc: Global, error: &Error) -> Result<String, AllocError> {
    format!(in alloc; "{error}")
}

/// That the database failed. The error is let go of here, so that callers hold a text.
pub(crate) fn database_error(alloc: Global, error: Error) -> FileError
    ensures { IsDatabaseError result }
{
    if let Error::SqliteFailure(ErrorCode::OutOfMemory) = error {
        return FileError::OutOfMemory;
    }
    match words_of(alloc, &error) {
        Ok(text) => FileError::Database(text),
        Err(_) => FileError::OutOfMemory,
    }
}
