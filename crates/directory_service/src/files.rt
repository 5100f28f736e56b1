//! Documents and files of entities: written, and checked.
ghost use Rattle.std.specs.Prelude.{◌≡◌, ◌++◌, IfOk, string_bytes, codes, decimal};
ghost use Rattle.directory_service.specs.Run.{SaysConforms, IsImported, IsRightOf};

use crate::document::{entities_in, read_bytes, read_source, source_bytes};
use crate::reply::{Reply, file_reply, reply_with};
use crate::status::Status;
use byte_streams::Source;
use entity_files::{FileError, check_store, import_into_file, read_file};
use entity_store::Entity;
use json_document::Document;
use sqlite::Start;
use std::alloc::{AllocError, Global};

const CONFORMS: &str = "conforms\n";

const NO_ENTITIES: &str = "document: entities\n";

// The reply that so many entities were written.
fn imported(alloc: Global, count: usize) -> Result<Reply, AllocError>
    ensures status { IfOk result (λ r. r.status ≡ Status.Done) }
    ensures text { IfOk result
        (λ r. string_bytes r.text ≡ codes "imported " ++ (decimal count ++ codes "\n")) }
{
    Ok(Reply {
        status: Status::Done,
        text: format!(in alloc; "imported {count}\n")?,
    })
}

// Writes the entities, which are those of the document with their parents.
fn import_entities<S: Start>(
    rt: &HostRuntime,
    path: &str,
    start: S,
    document: &Document,
    entities: &Vec<Entity>,
) -> Result<Reply, AllocError>
    ensures done { IfOk result (λ r. r.status ≡ Status.Done → IsImported document.now (string_bytes r.text)) }
    ensures command { IfOk result (λ r. ¬ (r.status ≡ Status.Usage)) }
{
    let store = &document.entities;
    match import_into_file(rt, path, start, &document.schema, store, entities) {
        Ok(()) => imported(rt.alloc(), store.len()),
        Err(error) => file_reply(rt.alloc(), &error),
    }
}

// Writes the entities of the document that the bytes are.
fn import_document<S: Start>(
    rt: &HostRuntime,
    path: &str,
    start: S,
    document: &Document,
    bytes: &[u8],
) -> Result<Reply, AllocError>
    ensures done { IfOk result (λ r. r.status ≡ Status.Done → IsImported document.now (string_bytes r.text)) }
    ensures command { IfOk result (λ r. ¬ (r.status ≡ Status.Usage)) }
{
    match entities_in(rt.alloc(), bytes)? {
        Some(entities) => import_entities(rt, path, start, document, &entities),
        None => reply_with(rt.alloc(), Status::Document, NO_ENTITIES),
    }
}

/// Reads a document up to the end of the source, and writes its entities into the file.
pub(crate) fn import_source<S: Start, I: Source>(
    rt: &HostRuntime,
    path: &str,
    start: S,
    source: &mut I,
) -> Result<Reply, AllocError>
    ensures done { IfOk result (IsRightOf IsImported (I.state source.old).left) }
    ensures command { IfOk result (λ r. ¬ (r.status ≡ Status.Usage)) }
{
    let bytes = match source_bytes(rt.alloc(), source)? {
        Ok(bytes) => bytes,
        Err(reply) => return Ok(reply),
    };
    match read_bytes(rt.alloc(), bytes.as_slice())? {
        Ok(document) => import_document(rt, path, start, &document, bytes.as_slice()),
        Err(reply) => Ok(reply),
    }
}

// Whether the store of all rows of the file conforms.
fn check_rows<S: Start>(
    rt: &HostRuntime,
    path: &str,
    start: S,
    document: &Document,
) -> Result<(), FileError> {
    let entities = read_file(rt, path, start)?;
    check_store(rt.alloc(), &document.schema, &entities)
}

fn check_file<S: Start>(
    rt: &HostRuntime,
    path: &str,
    start: S,
    document: &Document,
) -> Result<Reply, AllocError>
    ensures done { IfOk result (λ r. r.status ≡ Status.Done →
        SaysConforms document.now (string_bytes r.text)) }
    ensures command { IfOk result (λ r. ¬ (r.status ≡ Status.Usage)) }
{
    match check_rows(rt, path, start, document) {
        Ok(()) => reply_with(rt.alloc(), Status::Done, CONFORMS),
        Err(error) => file_reply(rt.alloc(), &error),
    }
}

/// Reads a document up to the end of the source, and says whether the rows of the file conform to its schema.
pub(crate) fn check_source<S: Start, I: Source>(
    rt: &HostRuntime,
    path: &str,
    start: S,
    source: &mut I,
) -> Result<Reply, AllocError>
    ensures done { IfOk result (IsRightOf SaysConforms (I.state source.old).left) }
    ensures command { IfOk result (λ r. ¬ (r.status ≡ Status.Usage)) }
{
    match read_source(rt.alloc(), source)? {
        Ok(document) => check_file(rt, path, start, &document),
        Err(reply) => Ok(reply),
    }
}
