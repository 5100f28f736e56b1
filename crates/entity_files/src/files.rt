//! Files with the table of entities.
ghost use Rattle.std.specs.Prelude.{◌≡◌, None, IfErr, IfOk};
ghost use Rattle.sqlite.specs.Files.{file_state, IsOpened};
ghost use Rattle.sqlite.specs.State.{HasCleanDisk};
ghost use Rattle.conformance.specs.StoreRules.{first_store_fault};
ghost use Rattle.entity_files.specs.Rows.{IsOpeningError};
ghost use Rattle.entity_files.specs.Table.{IsReady};

use crate::fault::database_error;
use crate::writing::write_entities;
use crate::{FileError, all_entities, blank_or_made, check_store, over};
use entity_store::{Entities, Entity};
use schema_core::ValidatorSchema;
use sqlite::{Connection, Error, ErrorCode, FileFrom, FileStore, Start};
use std::fs;

// Opens the file, which has no sums where it is new.
fn connect<S: Start>(
    rt: &HostRuntime,
    path: &str,
    start: S,
) -> Result<Connection<FileStore<FileFrom<S>>>, FileError>
    ensures opened { IfOk result (λ c. HasCleanDisk (file_state c) → IsOpened c) }
    ensures error { IfErr result IsOpeningError }
{
    match Connection::open_from(rt, path, false, start) {
        Ok(conn) => Ok(conn),
        Err((error, _)) => Err(database_error(rt.alloc(), error)),
    }
}

// Whether there is a file at the path.
fn is_file(rt: &HostRuntime, path: &str) -> bool {
    match fs::metadata(rt, path) {
        Ok(found) => found.is_file(),
        Err(_) => false,
    }
}

// Whether there is something else, as a folder or a pipe.
fn is_no_file(rt: &HostRuntime, path: &str) -> bool {
    match fs::metadata(rt, path) {
        Ok(found) => !found.is_file(),
        Err(_) => false,
    }
}

// That there is no file to open.
fn no_file(rt: &HostRuntime) -> FileError
    ensures { IsOpeningError result }
{
    database_error(rt.alloc(), Error::SqliteFailure(ErrorCode::CannotOpen))
}

/// The database in a file that is there, where it has the table of entities and nothing else.
pub fn open<S: Start>(
    rt: &HostRuntime,
    path: &str,
    start: S,
) -> Result<Connection<FileStore<FileFrom<S>>>, FileError>
    ensures ready { IfOk result (λ c. IsReady (file_state c)) }
    ensures error { IfErr result IsOpeningError }
{
    // An open would make a file that is not there, and wait for what a pipe may bring.
    if !is_file(rt, path) {
        return Err(no_file(rt));
    }
    over(connect(rt, path, start)?)
}

/// The database in a file, which is made where there is none, where it has the table of entities and nothing
/// else.
pub fn make<S: Start>(
    rt: &HostRuntime,
    path: &str,
    start: S,
) -> Result<Connection<FileStore<FileFrom<S>>>, FileError>
    ensures ready { IfOk result (λ c. IsReady (file_state c)) }
    ensures error { IfErr result IsOpeningError }
{
    if is_no_file(rt, path) {
        return Err(no_file(rt));
    }
    blank_or_made(rt.alloc(), connect(rt, path, start)?)
}

// Writes the entities into the file, which is made where there is none.
fn write_into_file<S: Start>(
    rt: &HostRuntime,
    path: &str,
    start: S,
    entities: &Vec<Entity>,
) -> Result<(), FileError> {
    let mut conn = make(rt, path, start)?;
    let written = write_entities(rt.alloc(), entities, &mut conn);
    // What was committed is found by the next open, whether or not the log is copied into the file.
    let _ = conn.close();
    written
}

/// Writes entities with their parents, of which a store is made that conforms, into a file: all of them or
/// none. An entity whose row is there is passed over. The file is made where there is none; it is left alone
/// where the store does not conform, or the row of one of the ids is another entity.
pub fn import_into_file<S: Start>(
    rt: &HostRuntime,
    path: &str,
    start: S,
    schema: &ValidatorSchema,
    store: &Entities,
    entities: &Vec<Entity>,
) -> Result<(), FileError>
    ensures { IfOk result (λ _. first_store_fault schema.now store.now ≡ None) }
{
    check_store(rt.alloc(), schema, store)?;
    write_into_file(rt, path, start, entities)
}

/// The store of all rows of a file that is there.
pub fn read_file<S: Start>(rt: &HostRuntime, path: &str, start: S) -> Result<Entities, FileError> {
    let mut conn = open(rt, path, start)?;
    all_entities(rt.alloc(), &mut conn)
}
