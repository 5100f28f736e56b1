//! Documents, read from a source, and what is answered to them.
ghost use Rattle.std.specs.Prelude.{IfOk, string_bytes};
ghost use Rattle.edit_service.specs.Run.{IsAnswerTo, IsAnswerToBytes, IsForbidsAnswerTo, answer_of};

use crate::changes::compare;
use crate::document::read_edit_document;
use crate::fault::fault_line;
use crate::forbids::fail_open;
use crate::reply::{Reply, reply_with};
use crate::status::Status;
use crate::words::Command;
use byte_streams::{ReadError, Source, read_document_bytes};
use json_document::{DocumentFault, read_document};
use policy_risks::Assumed;
use std::alloc::{AllocError, Global};

const READ_FAULT: &str = "read fault\n";

const TOO_LONG: &str = "document: more than 16777216 bytes\n";

// The reply on the document of an edit that the bytes are, or on its first fault.
fn compare_bytes(alloc: Global, bytes: &[u8]) -> Result<Reply, AllocError>
    ensures { IfOk result (λ r. IsAnswerToBytes bytes.now r.status (string_bytes r.text)) }
{
    match read_edit_document(alloc, bytes)? {
        Ok(document) => compare(alloc, &document),
        Err(fault) => Ok(Reply {
            status: Status::Document,
            text: fault_line(alloc, &fault)?,
        }),
    }
}

// The reply on the forbids of the document that the bytes are, or on its first fault.
fn fail_open_bytes(alloc: Global, bytes: &[u8], assumed: Assumed) -> Result<Reply, AllocError>
    ensures { IfOk result (λ r. IsForbidsAnswerTo assumed bytes.now r.status (string_bytes r.text)) }
{
    match read_document(alloc, bytes) {
        Ok(document) => fail_open(alloc, &document, assumed),
        Err(DocumentFault::Place(place)) => Ok(Reply {
            status: Status::Document,
            text: format!(in alloc; "{place}\n")?,
        }),
        Err(DocumentFault::OutOfMemory) => Err(AllocError),
    }
}

fn reply_to_bytes(alloc: Global, command: Command, bytes: &[u8]) -> Result<Reply, AllocError>
    ensures { IfOk result (λ r. answer_of command bytes.now r.status (string_bytes r.text)) }
{
    match command {
        Command::Compare => compare_bytes(alloc, bytes),
        Command::FailOpen(assumed) => fail_open_bytes(alloc, bytes, assumed),
    }
}

/// The reply to the command on the document that the source gives up to its end.
pub(crate) fn reply_to<S: Source>(
    alloc: Global,
    command: Command,
    source: &mut S,
) -> Result<Reply, AllocError>
    ensures { IfOk result (λ r. IsAnswerTo (answer_of command) (S.state source.old) (S.state source.new)
        r.status (string_bytes r.text)) }
{
    match read_document_bytes(alloc, source) {
        Ok(bytes) => reply_to_bytes(alloc, command, bytes.as_slice()),
        Err(ReadError::Fault) => reply_with(alloc, Status::ReadFault, READ_FAULT),
        Err(ReadError::TooLong) => reply_with(alloc, Status::TooLong, TOO_LONG),
        Err(ReadError::OutOfMemory) => Err(AllocError),
    }
}
