//! Reading a document of bounded length.
ghost use Rattle.std.specs.Prelude.{◌≡◌, ◌≤◌, List, ℕ, length, IfOk, IfErr, IsErrOf};
ghost use Rattle.byte_streams.specs.Document.{document_limit, StopsAfter, Takes, TakesFew, WasRead};
ghost use Rattle.byte_streams.specs.Steps.{Rose};

use crate::ReadAnswer;
use crate::traits::Source;
use std::alloc::Global;

/// How many bytes a document may have.
pub const DOCUMENT_LIMIT: usize = 16777216;

const PIECE_LEN: usize = 4096;

/// The constant is the limit that contracts speak of.
pub fn limit_is_stated()
    ensures { DOCUMENT_LIMIT ≡ document_limit }
{}

/// Why no document was read.
#[derive(Clone, Copy, Debug, PartialEq, Eq)]
pub enum ReadError {
    /// A read failed.
    Fault,
    /// There are more bytes than a document may have.
    TooLong,
    /// Memory ran out.
    OutOfMemory,
}

/// The bytes of the source, up to its end.
///
/// However it ends, at most one byte more is taken than a document may have.
pub fn read_document_bytes<S: Source>(alloc: Global, source: &mut S) -> Result<Vec<u8>, ReadError>
    ensures ok { IfOk result (λ bytes. WasRead (S.state source.old) (S.state source.new) bytes.items) }
    ensures err { IfErr result (λ e. (bytes : List ℕ)
        × Takes (S.state source.old) (S.state source.new) bytes × StopsAfter e (length bytes)) }
    ensures few { TakesFew (S.state source.old) (S.state source.new) }
    ensures count { (S.state source.old).faults ≤ (S.state source.new).faults }
    ensures cause { IsErrOf result ReadError.Fault
        → Rose (S.state source.old).faults (S.state source.new).faults }
{
    let mut bytes = Vec::new(alloc);
    let mut piece = [0u8; PIECE_LEN];
    while bytes.len() <= DOCUMENT_LIMIT {
        let room = DOCUMENT_LIMIT + 1 - bytes.len();
        let most = room.min(PIECE_LEN);
        match source.read(&mut piece[..most]) {
            ReadAnswer::Got(n) => {
                if bytes.extend_from_slice(&piece[..n]).is_err() {
                    return Err(ReadError::OutOfMemory);
                }
            }
            ReadAnswer::End => return Ok(bytes),
            ReadAnswer::Failed => return Err(ReadError::Fault),
        }
    }
    Err(ReadError::TooLong)
}
