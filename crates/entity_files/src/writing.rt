//! Entities into the table.

ghost use Rattle.std.specs.Prelude.{◌≡◌, None, IfOk};
ghost use Rattle.sqlite.specs.Held.{state};
ghost use Rattle.conformance.specs.StoreRules.{first_store_fault};
ghost use Rattle.entity_files.specs.Table.{IsReady};

use crate::fault::database_error;
use crate::row_text::row_text;
use crate::rows::find_row;
use crate::{FileError, check_store, is_ready};
use entity_store::{Entities, Entity};
use policy_values::EntityUID;
use schema_core::ValidatorSchema;
use sqlite::{Alter, Connection, Error, Transaction, params};
use std::alloc::{AllocError, Global};

// Writes a row.
fn insert<S: Alter>(tx: &mut Transaction<'_, S>, entity: &Entity, text: &str) -> Result<(), Error> {
    let uid = entity.uid();
    tx.execute(
        "INSERT INTO entity (type, eid, json) VALUES (?1, ?2, ?3)",
        params![uid.entity_type().as_str(), uid.eid().as_str(), text],
    )?;
    Ok(())
}

// Writes a row for an entity with its parents.
fn insert_entity<S: Alter>(
    alloc: Global,
    tx: &mut Transaction<'_, S>,
    entity: &Entity,
) -> Result<(), FileError> {
    let text = row_text(alloc, entity)?;
    match insert(tx, entity, text.as_str()) {
        Ok(()) => Ok(()),
        Err(error) => Err(database_error(alloc, error)),
    }
}

// Writes a row for each entity.
fn insert_all<S: Alter>(
    alloc: Global,
    tx: &mut Transaction<'_, S>,
    entities: &Vec<&Entity>,
) -> Result<(), FileError> {
    for entity in entities {
        insert_entity(alloc, tx, *entity)?;
    }
    Ok(())
}

// Keeps what was written.
fn commit<S: Alter>(alloc: Global, tx: Transaction<'_, S>) -> Result<(), FileError> {
    match tx.commit() {
        Ok(()) => Ok(()),
        Err(error) => Err(database_error(alloc, error)),
    }
}

// Writes a row for each entity, in one transaction.
fn write_rows<S: Alter>(
    alloc: Global,
    entities: &Vec<&Entity>,
    conn: &mut Connection<S>,
) -> Result<(), FileError> {
    if !conn.is_autocommit() {
        return Err(FileError::InTransaction);
    }
    let mut tx = conn.transaction();
    insert_all(alloc, &mut tx, entities)?;
    commit(alloc, tx)
}

fn other_text(alloc: Global, uid: &EntityUID) -> Result<String, AllocError> {
    format!(in alloc; "entity: {uid}: its row is another entity\n")
}

// That the row of the id is another entity.
fn other(alloc: Global, uid: &EntityUID) -> FileError {
    match other_text(alloc, uid) {
        Ok(text) => FileError::Refused(text),
        Err(_) => FileError::OutOfMemory,
    }
}

// Whether two entities with their parents are written alike.
fn are_alike(alloc: Global, one: &Entity, two: &Entity) -> Result<bool, AllocError> {
    let first = row_text(alloc, one)?;
    let second = row_text(alloc, two)?;
    Ok(first.as_str() == second.as_str())
}

// Whether there is no row for the entity. Errs with `Refused` where its row is another entity.
fn is_missing<S: Alter>(
    alloc: Global,
    conn: &mut Connection<S>,
    entity: &Entity,
) -> Result<bool, FileError>
    requires { IsReady (state S.Store conn.old) }
    ensures { IsReady (state S.Store conn.new) }
{
    let Some(found) = find_row(alloc, conn, entity.uid())? else {
        return Ok(true);
    };
    if are_alike(alloc, &found, entity)? {
        Ok(false)
    } else {
        Err(other(alloc, entity.uid()))
    }
}

// The entities without a row, where each row of another one is that entity.
fn missing_ones<'a, S: Alter>(
    alloc: Global,
    conn: &mut Connection<S>,
    entities: &'a Vec<Entity>,
) -> Result<Vec<&'a Entity>, FileError>
    requires { IsReady (state S.Store conn.old) }
{
    let mut missing = Vec::new(alloc);
    for entity in entities {
        if is_missing(alloc, conn, entity)? && missing.push(entity).is_err() {
            return Err(FileError::OutOfMemory);
        }
    }
    Ok(missing)
}

/// Writes a row for each entity with its parents that has none yet, in one transaction: all of them or none.
/// Errs with `Refused` where the row of one of the ids is another entity.
pub fn write_entities<S: Alter>(
    alloc: Global,
    entities: &Vec<Entity>,
    conn: &mut Connection<S>,
) -> Result<(), FileError> {
    if !conn.is_autocommit() {
        return Err(FileError::InTransaction);
    }
    if !is_ready(conn) {
        return Err(FileError::OtherSchema);
    }
    let missing = missing_ones(alloc, conn, entities)?;
    write_rows(alloc, &missing, conn)
}

/// Writes entities with their parents, of which a store is made that conforms, in one transaction: all of
/// them or none. An entity whose row is there is passed over. Errs with `Refused` where the row of one of the
/// ids is another entity.
pub fn import<S: Alter>(
    alloc: Global,
    schema: &ValidatorSchema,
    store: &Entities,
    entities: &Vec<Entity>,
    conn: &mut Connection<S>,
) -> Result<(), FileError>
    ensures { IfOk result (λ _. first_store_fault schema.now store.now ≡ None) }
{
    check_store(alloc, schema, store)?;
    write_entities(alloc, entities, conn)
}
