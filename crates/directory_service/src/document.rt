//! Documents, read from bytes.
ghost use Rattle.std.specs.Prelude.{IfOk};
ghost use Rattle.directory_service.specs.Documents.{IsReading};
ghost use Rattle.directory_service.specs.Run.{AreBytesOf, IsReadOf};

use crate::reply::{Reply, reply_with};
use crate::status::Status;
use byte_streams::{ReadError, Source, read_document_bytes};
use entity_store::Entity;
use json_document::{
    Document, DocumentFault, Scratch, Tree, read_document, read_entities, read_tree,
};
use json_trees::take_items;
use std::alloc::{AllocError, Global};

pub(crate) const READ_FAULT: &str = "read fault\n";

pub(crate) const TOO_LONG: &str = "document: more than 16777216 bytes\n";

/// The document with one request that the bytes are, or the reply on their first fault.
pub fn read_bytes(alloc: Global, bytes: &[u8]) -> Result<Result<Document, Reply>, AllocError>
    ensures { IfOk result (IsReading bytes.now) }
{
    match read_document(alloc, bytes) {
        Ok(document) => Ok(Ok(document)),
        Err(DocumentFault::Place(place)) => Ok(Err(Reply {
            status: Status::Document,
            text: format!(in alloc; "{place}\n")?,
        })),
        Err(DocumentFault::OutOfMemory) => Err(AllocError),
    }
}

/// All bytes that the source gives up to its end, or the reply that there are too many, or none.
pub(crate) fn source_bytes<S: Source>(
    alloc: Global,
    source: &mut S,
) -> Result<Result<Vec<u8>, Reply>, AllocError>
    ensures { IfOk result (AreBytesOf (S.state source.old).left) }
{
    match read_document_bytes(alloc, source) {
        Ok(bytes) => Ok(Ok(bytes)),
        Err(ReadError::Fault) => Ok(Err(reply_with(alloc, Status::ReadFault, READ_FAULT)?)),
        Err(ReadError::TooLong) => Ok(Err(reply_with(alloc, Status::TooLong, TOO_LONG)?)),
        Err(ReadError::OutOfMemory) => Err(AllocError),
    }
}

/// The document that the source gives up to its end, or the reply on its first fault.
pub(crate) fn read_source<S: Source>(
    alloc: Global,
    source: &mut S,
) -> Result<Result<Document, Reply>, AllocError>
    ensures { IfOk result (IsReadOf (S.state source.old).left) }
{
    match source_bytes(alloc, source)? {
        Ok(bytes) => read_bytes(alloc, bytes.as_slice()),
        Err(reply) => Ok(Err(reply)),
    }
}

// The entities among the members of a document, with their parents.
fn entities_among<'a>(
    alloc: Global,
    mut members: Vec<(&'a str, Tree<'a>)>,
) -> Result<Option<Vec<Entity>>, AllocError> {
    let Some(items) = take_items(alloc, &mut members, "entities") else {
        return Ok(None);
    };
    match read_entities(alloc, items) {
        Ok(entities) => Ok(Some(entities)),
        Err(DocumentFault::Place(_)) => Ok(None),
        Err(DocumentFault::OutOfMemory) => Err(AllocError),
    }
}

/// The entities of the document that the bytes are, with their parents; none where they are no document. (A
/// `Document` keeps the store that is made of them.)
pub(crate) fn entities_in(alloc: Global, bytes: &[u8]) -> Result<Option<Vec<Entity>>, AllocError> {
    let mut scratch = Scratch::new(alloc);
    match read_tree(alloc, bytes, &mut scratch)? {
        Some(Tree::Object(members)) => entities_among(alloc, members),
        Some(other) => {
            drop(other);
            Ok(None)
        }
        None => Ok(None),
    }
}
