//! Decisions by the rows of a database.

ghost use Rattle.std.specs.Prelude.{◌≡◌, ◌≢◌, IfOk, OnOk};
ghost use Rattle.byte_streams.specs.Steps.{RoseBy};
ghost use Rattle.sqlite.specs.Held.{state};
ghost use Rattle.entity_store.specs.Request.{IsWhole};
ghost use Rattle.typing_spec.specs.Conforms.{RequestConforms};
ghost use Rattle.entity_manifest.specs.Accepted.{IsAccepted};
ghost use Rattle.entity_manifest.specs.OfPolicies.{IsManifestOf};
ghost use Rattle.entity_manifest.specs.declared.EntitySliceError.TheVariants.{LoaderFault};
ghost use Rattle.entity_manifest.specs.Answers.{IsAnswerOrFault};
ghost use Rattle.entity_files.specs.Table.{IsReady, Continues};
ghost use Rattle.entity_files.specs.Fetched.{AreFetched};
ghost use Rattle.entity_files.specs.Rows.{known_entities, known_store};
ghost use Rattle.directory_service.specs.Attempts.{OfStore};
ghost use Rattle.directory_service.specs.Rows.{IsRowAnswer, row_faults};

use crate::attempt::{Attempt, MissingIds, add_unseen, try_decide};
use crate::row_fault::{RowAnswer, RowError, RowFault};
use conformance::laws::request_rules_are_exact;
use entity_files::{Fetched, FindError};
use entity_manifest::{
    BatchAnswer, EntityManifest, EntitySliceError, SliceForRequestError, Steps, check_request,
};
use entity_store::Request;
use policy_set::PolicySet;
use policy_values::EntityUID;
use schema_core::ValidatorSchema;
use sqlite::{Alter, Connection, Error, ErrorCode};
use std::alloc::{AllocError, Global};
use std::sync::ledger::Ledger;

/// A database with the table of entities.
#[derive(Drop)]
pub struct Directory<S: Alter + Drop> {
    /// The database.
    pub conn: Connection<S>,
    /// How often a request was not decided, since the database failed, a row was no entity, or rows broke a
    /// rule; at the last value of u64 it stays.
    pub faults: u64,
}

// Looks the id up.
fn fetch<S: Alter>(
    alloc: Global,
    conn: &mut Connection<S>,
    fetched: &mut Fetched,
    uid: &EntityUID,
) -> Result<(), RowError>
    requires ready { IsReady (state S.Store conn.old) }
    requires fetched { AreFetched (known_entities (state S.Store conn.old)) fetched.old }
    ensures ready { IsReady (state S.Store conn.new) }
    ensures goes_on { Continues (known_entities (state S.Store conn.old))
        (known_entities (state S.Store conn.new)) }
    ensures fetched { OnOk result (AreFetched (known_entities (state S.Store conn.new)) fetched.new) }
{
    match fetched.fetch(alloc, conn, uid) {
        Ok(()) => Ok(()),
        Err(error) => Err(row_error(uid, error)),
    }
}

// Why the row for the id is not read, where its look-up failed so.
fn row_error(uid: &EntityUID, error: FindError) -> RowError {
    match error {
        FindError::NoEntity => no_entity(uid),
        FindError::OutOfMemory => RowError::OutOfMemory,
        FindError::Database(Error::SqliteFailure(ErrorCode::OutOfMemory)) => RowError::OutOfMemory,
        FindError::Database(_) => RowError::Database,
    }
}

fn no_entity(uid: &EntityUID) -> RowError {
    match uid.try_clone() {
        Ok(uid) => RowError::Row(RowFault::NoEntity(uid)),
        Err(_) => RowError::OutOfMemory,
    }
}

// Looks the ids up, in their order.
fn fetch_all<S: Alter>(
    alloc: Global,
    conn: &mut Connection<S>,
    fetched: &mut Fetched,
    ids: &Vec<EntityUID>,
) -> Result<(), RowError>
    requires ready { IsReady (state S.Store conn.old) }
    requires fetched { AreFetched (known_entities (state S.Store conn.old)) fetched.old }
    ensures ready { IsReady (state S.Store conn.new) }
    ensures goes_on { Continues (known_entities (state S.Store conn.old))
        (known_entities (state S.Store conn.new)) }
    ensures fetched { OnOk result (AreFetched (known_entities (state S.Store conn.new)) fetched.new) }
{
    for uid in ids {
        fetch(alloc, conn, fetched, uid)?;
    }
    Ok(())
}

// Looks the ids up with all of their ancestors, as far as rows lead to these.
fn fetch_upward<S: Alter>(
    alloc: Global,
    conn: &mut Connection<S>,
    fetched: &mut Fetched,
    ids: Vec<EntityUID>,
) -> Result<(), RowError>
    requires ready { IsReady (state S.Store conn.old) }
    requires fetched { AreFetched (known_entities (state S.Store conn.old)) fetched.old }
    ensures ready { IsReady (state S.Store conn.new) }
    ensures goes_on { Continues (known_entities (state S.Store conn.old))
        (known_entities (state S.Store conn.new)) }
    ensures fetched { OnOk result (AreFetched (known_entities (state S.Store conn.new)) fetched.new) }
{
    let mut left = ids;
    for _step in 0..u64::MAX {
        let Some(uid) = left.pop() else {
            return Ok(());
        };
        let count = fetched.found.len();
        fetch(alloc, conn, fetched, &uid)?;
        if let Some(entity) = fetched.found.get(count) {
            add_unseen(&fetched.seen, &mut left, entity.ancestors())?;
        }
    }
    Err(RowError::Database)
}

// Looks up what is missing.
fn fetch_missing<S: Alter>(
    alloc: Global,
    conn: &mut Connection<S>,
    fetched: &mut Fetched,
    missing: MissingIds,
) -> Result<(), RowError>
    requires ready { IsReady (state S.Store conn.old) }
    requires fetched { AreFetched (known_entities (state S.Store conn.old)) fetched.old }
    ensures ready { IsReady (state S.Store conn.new) }
    ensures goes_on { Continues (known_entities (state S.Store conn.old))
        (known_entities (state S.Store conn.new)) }
    ensures fetched { OnOk result (AreFetched (known_entities (state S.Store conn.new)) fetched.new) }
{
    if missing.above {
        fetch_upward(alloc, conn, fetched, missing.ids)
    } else {
        fetch_all(alloc, conn, fetched, &missing.ids)
    }
}

// Decides on a whole request that conforms, and looks up what is missing until nothing is.
fn decided<S: Alter, L: Ledger>(
    alloc: Global,
    schema: &ValidatorSchema,
    policies: &PolicySet,
    manifest: &EntityManifest,
    request: &Request,
    conn: &mut Connection<S>,
    steps: &mut Steps<L>,
) -> Result<BatchAnswer, RowError>
    requires accepted { IsAccepted schema.now policies.now }
    requires manifest { IsManifestOf schema.now policies.now.policies manifest.now }
    requires whole { IsWhole request.now }
    requires conforms { RequestConforms schema.now request.now }
    requires ready { IsReady (state S.Store conn.old) }
    ensures ready { IsReady (state S.Store conn.new) }
    ensures goes_on { Continues (known_entities (state S.Store conn.old))
        (known_entities (state S.Store conn.new)) }
    ensures answer { OfStore schema.now (known_store (state S.Store conn.new)) (λ w.
        IfOk result (IsAnswerOrFault schema.now policies.now.policies w request.now)) }
    ensures no_fault { IfOk result (λ a. a ≢ BatchAnswer.Loading LoaderFault) }
{
    let mut fetched = Fetched::new(alloc);
    for _round in 0..u64::MAX {
        match try_decide(
            alloc, schema, policies, manifest, request, conn, &fetched, steps,
        )? {
            Attempt::Decided(response) => return Ok(BatchAnswer::Decided(response)),
            Attempt::Refused(error) => return Ok(BatchAnswer::Loading(error)),
            Attempt::Missing(missing) => {
                if missing.ids.is_empty() {
                    return Err(RowError::Database);
                }
                fetch_missing(alloc, conn, &mut fetched, missing)?;
            }
        }
    }
    Err(RowError::Database)
}

// What is answered where a request is not decided for this reason.
fn fault_of(error: RowError) -> Result<RowAnswer, AllocError>
    ensures { IfOk result (λ answer. row_faults answer ≡ 1) }
{
    match error {
        RowError::Row(fault) => Ok(RowAnswer::Row(fault)),
        RowError::Database => Ok(RowAnswer::Answer(BatchAnswer::Loading(
            EntitySliceError::LoaderFault,
        ))),
        RowError::OutOfMemory => Err(AllocError),
    }
}

/// The answer to a request, by the manifest of accepted policies: `Partial` where an entry of it is not
/// known; else `Refused` where it breaks a rule, with the first one; else the response, or
/// `Loading(LoaderFault)` where the database failed, or `Row` with a row that is read and at fault: both are
/// counted.
///
/// Where after the call the database is open and its disk has returned what was written, and the store of its
/// rows conforms, the answer is that on this whole store, or a fault.
pub fn decide_on<S: Alter + Drop, L: Ledger>(
    alloc: Global,
    schema: &ValidatorSchema,
    policies: &PolicySet,
    manifest: &EntityManifest,
    request: &Request,
    directory: &mut Directory<S>,
    steps: &mut Steps<L>,
) -> Result<RowAnswer, AllocError>
    requires accepted { IsAccepted schema.now policies.now }
    requires manifest { IsManifestOf schema.now policies.now.policies manifest.now }
    requires ready { IsReady (state S.Store directory.old.conn) }
    ensures ready { IsReady (state S.Store directory.new.conn) }
    ensures goes_on { Continues (known_store (state S.Store directory.old.conn))
        (known_store (state S.Store directory.new.conn)) }
    ensures answer { OfStore schema.now (known_store (state S.Store directory.new.conn)) (λ w.
        IfOk result (IsRowAnswer schema.now policies.now.policies w request.now)) }
    ensures counted { IfOk result (λ answer.
        RoseBy (row_faults answer) directory.old.faults directory.new.faults) }
    ensures kept { RoseBy 0 directory.old.faults directory.new.faults }
{
    request_rules_are_exact();
    // for the proof: the names of a schema's actions ascend
    let _actions = schema.action_ids();
    if !request.is_whole() {
        return Ok(RowAnswer::Answer(BatchAnswer::Partial));
    }
    match check_request(alloc, schema, request) {
        Ok(()) => {
            let conn = &mut directory.conn;
            match decided(alloc, schema, policies, manifest, request, conn, steps) {
                Ok(answer) => Ok(RowAnswer::Answer(answer)),
                Err(error) => {
                    let answer = fault_of(error)?;
                    directory.faults = directory.faults.saturating_add(1);
                    Ok(answer)
                }
            }
        }
        Err(SliceForRequestError::Request(error)) => {
            Ok(RowAnswer::Answer(BatchAnswer::Refused(error)))
        }
        Err(_) => Err(AllocError),
    }
}
