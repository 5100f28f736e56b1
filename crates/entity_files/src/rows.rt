//! All rows of the table as a store.
ghost use Rattle.std.specs.Prelude.{◌≡◌, Some, IfOk};
ghost use Rattle.sqlite.specs.Held.{state};
ghost use Rattle.entity_store.specs.FromParents.{IsFromParents};
ghost use Rattle.entity_files.specs.Rows.{AreAll, AreAllShown, AreRead, IsRight, OfRows, RowsConform, shown_entity};
ghost use Rattle.entity_files.specs.Table.{AreAllCells, IsConnectionSound, IsReady, RowsStay};

use crate::fault::database_error;
use crate::reading::read_shown;
use crate::{FileError, FindError, check_store, find_entity, is_ready};
use entity_store::{Entities, EntitiesError, Entity};
use json_values::read_type_name;
use policy_values::{Eid, EntityUID, Text};
use schema_core::ValidatorSchema;
use sqlite::{Alter, Connection, Error, Row};
use std::alloc::{AllocError, Global};

const NO_NAME: &str = "the type of a row is no name";

// What the query of all rows shows: while the connection is open and its disk clean, it is the table's.
fn select_all<S: Alter>(conn: &mut Connection<S>) -> Result<Vec<Row>, Error>
    requires { IsReady (state S.Store conn.old) }
    ensures ready { IsReady (state S.Store conn.new) }
    ensures goes_on { RowsStay (state S.Store conn.old) (state S.Store conn.new) }
    ensures honest { IsConnectionSound (state S.Store conn.new) →
        IfOk result (λ rows. AreAllCells ((state S.Store conn.new).now.trees 0) rows.items) }
{
    conn.query_all("SELECT type, eid, json FROM entity", &[])
}

// Why the row with this id is refused.
fn no_entity(alloc: Global, uid: &EntityUID) -> FileError {
    match no_entity_text(alloc, uid) {
        Ok(text) => FileError::Row(text),
        Err(_) => FileError::OutOfMemory,
    }
}

fn no_entity_text(alloc: Global, uid: &EntityUID) -> Result<String, AllocError> {
    format!(in alloc; "the row of {uid} is not the entity with this id")
}

fn text_at(alloc: Global, row: &Row, index: usize) -> Result<String, FileError> {
    match row.get(index) {
        Ok(text) => Ok(text),
        Err(error) => Err(database_error(alloc, error)),
    }
}

// The id of a row.
fn read_id(alloc: Global, row: &Row) -> Result<EntityUID, FileError> {
    let kind = text_at(alloc, row, 0)?;
    let eid = text_at(alloc, row, 1)?;
    match read_type_name(alloc, kind.as_str())? {
        Some(entity_type) => Ok(EntityUID {
            entity_type,
            eid: Eid::new(Text::from_string(eid)?),
        }),
        None => Err(FileError::Row(String::from_str(alloc, NO_NAME)?)),
    }
}

/// The entity of the row with this id, where there is one.
pub(crate) fn find_row<S: Alter>(
    alloc: Global,
    conn: &mut Connection<S>,
    uid: &EntityUID,
) -> Result<Option<Entity>, FileError>
    requires { IsReady (state S.Store conn.old) }
    ensures { IsReady (state S.Store conn.new) }
{
    match find_entity(alloc, conn, uid) {
        Ok(found) => Ok(found),
        Err(FindError::NoEntity) => Err(no_entity(alloc, uid)),
        Err(FindError::Database(error)) => Err(database_error(alloc, error)),
        Err(FindError::OutOfMemory) => Err(FileError::OutOfMemory),
    }
}

// The entity of a row that the query of all rows shows.
fn read_row(alloc: Global, row: &Row) -> Result<Entity, FileError>
    ensures { IsRight (λ e. shown_entity row.now ≡ Some e) result }
{
    match read_shown(alloc, row)? {
        Some(entity) => Ok(entity),
        None => Err(no_entity(alloc, &read_id(alloc, row)?)),
    }
}

// The entities of the rows.
fn read_all(alloc: Global, rows: &Vec<Row>) -> Result<Vec<Entity>, FileError>
    ensures { AreRead rows.now.items result }
{
    let mut entities = Vec::new(alloc);
    for row in rows {
        match read_row(alloc, row) {
            Ok(entity) => {
                if entities.push(entity).is_err() {
                    return Err(FileError::OutOfMemory);
                }
            }
            Err(error) => return Err(error),
        }
    }
    Ok(entities)
}

// That an id is reached from itself by parents.
fn cycle_text(alloc: Global, uid: &EntityUID) -> Result<String, AllocError> {
    format!(in alloc; "entity: {uid}: it is its own ancestor\n")
}

fn cycle(alloc: Global, uid: &EntityUID) -> FileError {
    match cycle_text(alloc, uid) {
        Ok(text) => FileError::Refused(text),
        Err(_) => FileError::OutOfMemory,
    }
}

// The store that is made of the entities of rows.
fn store_of(alloc: Global, entities: Vec<Entity>) -> Result<Entities, FileError>
    ensures { IsRight (IsFromParents entities.items) result }
{
    match Entities::from_parents(alloc, entities) {
        Ok(store) => Ok(store),
        Err(EntitiesError::Duplicate(uid)) => Err(no_entity(alloc, &uid)),
        Err(EntitiesError::Cycle(uid)) => Err(cycle(alloc, &uid)),
        Err(EntitiesError::OutOfMemory) => Err(FileError::OutOfMemory),
    }
}

// The store of what the query of all rows shows.
fn store_of_rows(alloc: Global, rows: Vec<Row>) -> Result<Entities, FileError>
    ensures { IsRight (AreAllShown rows.items) result }
{
    match read_all(alloc, &rows) {
        Ok(entities) => {
            drop(rows);
            store_of(alloc, entities)
        }
        Err(error) => Err(error),
    }
}

/// The store that is made of the entities of all rows of the table: while the connection is open and its disk
/// has returned what was written, each row spells its entity, and the store is made of all of these.
///
/// Errs with `OtherSchema` also where a transaction is open, with `Row` where a row is not the entity with its
/// type and eid, and with `Refused` where an id is its own ancestor, with the least such id.
pub fn all_entities<S: Alter>(
    alloc: Global,
    conn: &mut Connection<S>,
) -> Result<Entities, FileError>
    ensures read { OfRows (state S.Store conn.new) (λ rows. IsRight (AreAll rows) result) }
    ensures goes_on { RowsStay (state S.Store conn.old) (state S.Store conn.new) }
{
    if !is_ready(conn) {
        return Err(FileError::OtherSchema);
    }
    match select_all(conn) {
        Ok(rows) => store_of_rows(alloc, rows),
        Err(error) => Err(database_error(alloc, error)),
    }
}

/// Checks that the store of all rows conforms: while the connection is open and its disk has returned what was
/// written, it succeeds only where it does.
///
/// Errs as `all_entities` does, and with `Refused`, with the first rule that is broken.
pub fn check_rows<S: Alter>(
    alloc: Global,
    schema: &ValidatorSchema,
    conn: &mut Connection<S>,
) -> Result<(), FileError>
    ensures checked { OfRows (state S.Store conn.new) (λ rows.
        IsRight (λ _. RowsConform schema.now rows) result) }
    ensures goes_on { RowsStay (state S.Store conn.old) (state S.Store conn.new) }
{
    let entities = all_entities(alloc, conn)?;
    check_store(alloc, schema, &entities)
}
