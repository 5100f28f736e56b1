//! What is answered.
ghost use Rattle.std.specs.Prelude.{◌≡◌, IfOk};
ghost use Rattle.policy_gate.specs.Reply.{answer, reply_view};

use crate::status::Status;
use std::alloc::{AllocError, Global};

/// A status, and the text that goes with it.
#[derive(Debug, Drop)]
pub struct Reply {
    /// The status that is expected.
    pub status: Status,
    /// All that is to be written, its last newline included.
    pub text: String,
}

/// A reply of this status with a copy of the text.
pub(crate) fn reply_with(alloc: Global, status: Status, text: &str) -> Result<Reply, AllocError>
    ensures { IfOk result (λ r. reply_view r ≡ answer status text.now) }
{
    Ok(Reply {
        status,
        text: String::from_str(alloc, text)?,
    })
}
