//! Databases with the table of entities.
ghost use Rattle.std.specs.Prelude.{IfErr, IfOk, IsTrue};
ghost use Rattle.sqlite.specs.Held.{state};
ghost use Rattle.sqlite.specs.State.{HasCleanDisk, Opens};
ghost use Rattle.entity_files.specs.Rows.{IsOpeningError};
ghost use Rattle.entity_files.specs.Table.{IsReady};

use crate::fault::database_error;
use crate::{FileError, has_entity_table};
use sqlite::{Alter, Connection, Error};
use std::alloc::Global;

const TABLE: &str =
    "CREATE TABLE entity (number INTEGER PRIMARY KEY, type TEXT NOT NULL, eid TEXT NOT NULL, json TEXT NOT NULL, UNIQUE (type, eid)) STRICT";

/// Whether the connection is to a database with the table of entities and nothing else, all of it committed.
pub fn is_ready<S: Alter>(conn: &Connection<S>) -> bool
    ensures { IsTrue result → IsReady (state S.Store conn.now) }
{
    if !conn.is_autocommit() {
        return false;
    }
    has_entity_table(conn)
}

/// A database that was just opened, where it has the table of entities and nothing else.
pub fn over<S: Alter + Drop>(conn: Connection<S>) -> Result<Connection<S>, FileError>
    requires { HasCleanDisk (state S.Store conn) → Opens (state S.Store conn) }
    ensures ready { IfOk result (λ c. IsReady (state S.Store c)) }
    ensures error { IfErr result IsOpeningError }
{
    if !has_entity_table(&conn) {
        return Err(FileError::OtherSchema);
    }
    Ok(conn)
}

fn is_blank<S: Alter>(conn: &Connection<S>) -> bool {
    let schema = conn.schema();
    schema.tables.is_empty() && schema.indexes.is_empty() && schema.views.is_empty()
}

// Makes the table, where the database has nothing.
fn make<S: Alter>(conn: &mut Connection<S>) -> Result<(), Error> {
    if is_blank(conn) {
        conn.execute(TABLE, &[])?;
    }
    Ok(())
}

/// A database that has the table of entities and nothing else, or that has nothing: then the table is made.
pub fn blank_or_made<S: Alter + Drop>(
    alloc: Global,
    mut conn: Connection<S>,
) -> Result<Connection<S>, FileError>
    ensures ready { IfOk result (λ c. IsReady (state S.Store c)) }
    ensures error { IfErr result IsOpeningError }
{
    if let Err(error) = make(&mut conn) {
        return Err(database_error(alloc, error));
    }
    if is_ready(&conn) {
        Ok(conn)
    } else {
        Err(FileError::OtherSchema)
    }
}
