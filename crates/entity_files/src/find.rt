//! Entities found by type and eid.

ghost use Rattle.std.specs.Prelude.{◌≡◌, List, [], ◌∷◌, Some, IfOk, IfErr, IfSome};
ghost use Rattle.sqlite.specs.declared.types.Value.TheVariants.{Text};
ghost use Rattle.sqlite.specs.Held.{state};
ghost use Rattle.sqlite.specs.State.{HasCleanDisk, FailsToQuery, Shown, Survives, CommitsShowing};
ghost use Rattle.entity_store.specs.Store.{StoredEntity, entity_at};
ghost use Rattle.entity_files.specs.Table.{AreCells, IsConnectionSound, IsReady, RowsStay, Continues};
ghost use Rattle.entity_files.specs.Rows.{known_entities};

use crate::reading::read_found;
use entity_store::Entity;
use policy_values::EntityUID;
use sqlite::{Alter, Connection, Error, Row, params};
use std::alloc::{AllocError, Global};

/// Why an entity is not looked up.
#[derive(Debug, Drop)]
pub enum FindError {
    /// The database failed.
    Database(Error),
    /// More than one row has the id, or the text of the row is not the entity with that id in JSON.
    NoEntity,
    /// There is no memory left.
    OutOfMemory,
}

impl From<Error> for FindError {
    ghost use Rattle.std.specs.Prelude.{◌≡◌};
    ghost use Rattle.entity_files.specs.declared.find.FindError.TheVariants.{Database};

    ghost from_gives = { λ x e. e ≡ Database x };

    fn from(error: Error) -> FindError {
        FindError::Database(error)
    }
}

impl From<AllocError> for FindError {
    ghost use Rattle.std.specs.Prelude.{◌≡◌};
    ghost use Rattle.entity_files.specs.declared.find.FindError.TheVariants.{OutOfMemory};

    ghost from_gives = { λ _ e. e ≡ OutOfMemory };

    fn from(_error: AllocError) -> FindError {
        FindError::OutOfMemory
    }
}

// The rows of a query with two parameters.
fn ask<S: Alter>(
    conn: &mut Connection<S>,
    sql: &str,
    kind: &str,
    eid: &str,
) -> Result<Vec<Row>, Error>
    ensures ok { HasCleanDisk (state S.Store conn.new) →
        IfOk result (λ rows.
        Shown sql.now (Text kind.now ∷ Text eid.now ∷ []) (state S.Store conn.old)
        (state S.Store conn.new) rows.items) }
    ensures err { HasCleanDisk (state S.Store conn.new) →
        IfErr result (FailsToQuery sql.now (Text kind.now ∷ Text eid.now ∷ [])
        (state S.Store conn.old) (state S.Store conn.new)) }
    ensures survives { Survives (state S.Store conn.old) (state S.Store conn.new)
        (CommitsShowing sql.now (Text kind.now ∷ Text eid.now ∷ []) (state S.Store conn.old)) }
{
    conn.query_all(sql, params![kind, eid])
}

// The texts of the rows with a type and an eid: while the connection is open and its disk clean, they are
// those of the table.
fn look_up<S: Alter>(conn: &mut Connection<S>, kind: &str, eid: &str) -> Result<Vec<Row>, Error>
    requires { IsReady (state S.Store conn.old) }
    ensures ready { IsReady (state S.Store conn.new) }
    ensures goes_on { RowsStay (state S.Store conn.old) (state S.Store conn.new) }
    ensures honest { IsConnectionSound (state S.Store conn.new) →
        IfOk result (λ rows.
        AreCells ((state S.Store conn.new).now.trees 0) kind.now eid.now rows.items) }
{
    ask(
        conn,
        "SELECT json FROM entity WHERE type = ?1 AND eid = ?2",
        kind,
        eid,
    )
}

/// The entity with the id, with its parents, where the table has a row for it. While the connection is open
/// and its disk has returned what was written, it is that of the rows.
///
/// Errs with `NoEntity` where two rows have the id, or the row's text does not spell the entity.
pub fn find_entity<S: Alter>(
    alloc: Global,
    conn: &mut Connection<S>,
    uid: &EntityUID,
) -> Result<Option<Entity>, FindError>
    requires { IsReady (state S.Store conn.old) }
    ensures ready { IsReady (state S.Store conn.new) }
    ensures goes_on { Continues (known_entities (state S.Store conn.old))
        (known_entities (state S.Store conn.new)) }
    ensures id { IfOk result (λ o. IfSome o (λ e. e.uid ≡ uid.now)) }
    ensures honest { (es : List StoredEntity) → known_entities (state S.Store conn.new) ≡ Some es →
        IfOk result (λ o. o ≡ entity_at es uid.now) }
{
    let rows = look_up(conn, uid.entity_type().as_str(), uid.eid().as_str())?;
    read_found(alloc, &rows, uid)
}
