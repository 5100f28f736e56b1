//! Requests, each a line.
ghost use Rattle.std.specs.Prelude.{◌≡◌, IfOk};
ghost use Rattle.directory_service.specs.Lines.{line_request};

use entity_store::Request;
use json_document::{Scratch, read_request, read_tree};
use std::alloc::{AllocError, Global};

/// What the bytes of a line are.
#[derive(Drop)]
pub enum LineRequest {
    /// A request.
    Request(Request),
    /// JSON, and no request.
    NoRequest,
    /// No JSON.
    NoJson,
}

/// What the bytes of a line are.
pub(crate) fn line_request(alloc: Global, line: &[u8]) -> Result<LineRequest, AllocError>
    ensures { IfOk result (λ r. r ≡ line_request line.now) }
{
    let mut scratch = Scratch::new(alloc);
    let Some(tree) = read_tree(alloc, line, &mut scratch)? else {
        return Ok(LineRequest::NoJson);
    };
    match read_request(alloc, Some(&tree))? {
        Some(request) => Ok(LineRequest::Request(request)),
        None => Ok(LineRequest::NoRequest),
    }
}
