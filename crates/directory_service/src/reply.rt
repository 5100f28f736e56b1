//! What is answered.
ghost use Rattle.std.specs.Prelude.{◌≡◌, IfOk, IsOkAnd, string_bytes};
ghost use Rattle.std.specs.Io.KnownBytes.{Appends};
ghost use Rattle.directory_service.specs.Run.{Gives, IsDone, IsRefusal};

use crate::status::Status;
use byte_streams::{Sink, write_text};
use entity_files::FileError;
use std::alloc::{AllocError, Global};

/// A status, and the text that goes with it.
#[derive(Debug, Drop)]
pub struct Reply {
    /// The status that is due.
    pub status: Status,
    /// All that is to be written, its last newline included.
    pub text: String,
}

/// A reply of this status with a copy of the text.
pub(crate) fn reply_with(alloc: Global, status: Status, text: &str) -> Result<Reply, AllocError>
    ensures status { IfOk result (λ r. r.status ≡ status) }
    ensures text { IfOk result (λ r. string_bytes r.text ≡ text.now) }
{
    Ok(Reply {
        status,
        text: String::from_str(alloc, text)?,
    })
}

const OTHER_SCHEMA: &str = "database: it has another schema than the table of entities\n";

const IN_TRANSACTION: &str = "database: a transaction is open\n";

fn database_reply(alloc: Global, why: &str) -> Result<Reply, AllocError>
    ensures { IfOk result (λ r. r.status ≡ Status.Database) }
{
    Ok(Reply {
        status: Status::Database,
        text: format!(in alloc; "database: {why}\n")?,
    })
}

/// The reply that a file is not written or read.
pub(crate) fn file_reply(alloc: Global, error: &FileError) -> Result<Reply, AllocError>
    ensures { IfOk result IsRefusal }
{
    match error {
        FileError::Database(why) | FileError::Row(why) => database_reply(alloc, why.as_str()),
        FileError::OtherSchema => reply_with(alloc, Status::Database, OTHER_SCHEMA),
        FileError::InTransaction => reply_with(alloc, Status::Database, IN_TRANSACTION),
        FileError::Refused(text) => reply_with(alloc, Status::Store, text.as_str()),
        FileError::OutOfMemory => Err(AllocError),
    }
}

/// Writes the text, and says how the run ends.
pub(crate) fn finish<K: Sink>(sink: &mut K, status: Status, text: &str) -> Status
    ensures gives { Gives status text.now (K.state sink.old) (K.state sink.new) result }
    ensures done { result ≡ Status.Done
        → (status ≡ Status.Done) × Appends (K.state sink.old).holds (K.state sink.new).holds text.now }
    ensures usage { result ≡ Status.Usage → status ≡ Status.Usage }
{
    match write_text(sink, text.as_bytes()) {
        Ok(()) => status,
        Err(_) => status.after_fault(),
    }
}

/// Writes the reply, where there was memory for it, and says how the run ends.
pub(crate) fn finish_with<K: Sink>(sink: &mut K, reply: Result<Reply, AllocError>) -> Status
    ensures done { result ≡ Status.Done → IsDone reply (K.state sink.old) (K.state sink.new) }
    ensures usage { result ≡ Status.Usage → IsOkAnd reply (λ r. r.status ≡ Status.Usage) }
{
    match reply {
        Ok(reply) => finish(sink, reply.status, reply.text.as_str()),
        Err(_) => Status::OutOfMemory,
    }
}
