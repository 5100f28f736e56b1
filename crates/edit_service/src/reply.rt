//! What is answered.
ghost use Rattle.std.specs.Prelude.{◌≡◌, IfOk, string_bytes};
ghost use Rattle.edit_service.specs.Written.{Gives, Ends};

use crate::status::Status;
use byte_streams::{Sink, write_text};
use std::alloc::{AllocError, Global};

/// A status, and the text that goes with it.
#[derive(Debug, Drop)]
pub struct Reply {
    /// How the run ends, where the text is written.
    pub status: Status,
    /// All that is to be written, its last newline included.
    pub text: String,
}

/// A reply of this status with a copy of the text.
pub(crate) fn reply_with(alloc: Global, status: Status, text: &str) -> Result<Reply, AllocError>
    ensures status { IfOk result (λ r. r.status ≡ status) }
    ensures text { IfOk result (λ r. string_bytes r.text ≡ text.now) }
{
    Ok(Reply {
        status,
        text: String::from_str(alloc, text)?,
    })
}

/// Writes the text, and says how the run ends.
pub(crate) fn finish<K: Sink>(sink: &mut K, status: Status, text: &str) -> Status
    ensures { Gives status text.now (K.state sink.old) (K.state sink.new) result }
{
    match write_text(sink, text.as_bytes()) {
        Ok(()) => status,
        Err(_) => status.after_fault(),
    }
}

/// Writes the reply, where there was memory for it, and says how the run ends.
pub(crate) fn finish_with<K: Sink>(sink: &mut K, reply: Result<Reply, AllocError>) -> Status
    ensures { Ends reply (K.state sink.old) (K.state sink.new) result }
{
    match reply {
        Ok(reply) => finish(sink, reply.status, reply.text.as_str()),
        Err(_) => Status::OutOfMemory,
    }
}
