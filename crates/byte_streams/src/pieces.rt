//! A piece of a source.
ghost use Rattle.byte_streams.specs.Lines.{IsFilled};

use crate::{ReadAnswer, Source};

const PIECE_LEN: usize = 4096;

/// What a read of a piece came to.
#[derive(Clone, Copy)]
pub enum Filled {
    /// The piece has the bytes that were read, one at least.
    Got,
    /// Nothing is left.
    End,
    /// The read failed.
    Failed,
    /// Memory ran out.
    OutOfMemory,
}

// Reads the next bytes into the place of those that the piece has.
pub(crate) fn read_piece<S: Source>(source: &mut S, piece: &mut Vec<u8>) -> Filled
    ensures { IsFilled (S.state source.old).left (S.state source.new).left piece.new.items result }
{
    let mut bytes = [0u8; PIECE_LEN];
    piece.clear();
    match source.read(&mut bytes) {
        ReadAnswer::Got(n) => match piece.extend_from_slice(&bytes[..n]) {
            Ok(()) => Filled::Got,
            Err(_) => Filled::OutOfMemory,
        },
        ReadAnswer::End => Filled::End,
        ReadAnswer::Failed => Filled::Failed,
    }
}
