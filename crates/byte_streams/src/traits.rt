//! What a source and a sink do.
ghost use Rattle.std.specs.Prelude.{◌≡◌, ◌+◌, ◌<◌, ◌≤◌, length};
ghost use Rattle.byte_streams.specs.State.{SinkState, SourceState};
ghost use Rattle.byte_streams.specs.Steps.{ReadFits, Reads, Rose, WriteFits, Writes, bytes_given};

use crate::{ReadAnswer, WriteAnswer};

/// Where bytes come from.
pub trait Source {
    // The bytes that are left, the count of bytes given so far, and the count of faults.
    ghost state: { Self → SourceState };

    /// Gives the next bytes, at the start of `piece`, which may not be empty.
    ///
    /// `End` comes only where nothing is left, and `Failed` only where the count of faults rises;
    /// neither takes a byte.
    fn read(&mut self, piece: &mut [u8]) -> ReadAnswer
        requires { 0 < length piece.old }
        ensures fits { ReadFits result (length piece.old) }
        ensures bytes { Reads (state self.old).left (state self.new).left result piece.new }
        ensures taken { (state self.new).taken ≡ (state self.old).taken + bytes_given result }
        ensures count { (state self.old).faults ≤ (state self.new).faults }
        ensures cause { result ≡ ReadAnswer.Failed
            → Rose (state self.old).faults (state self.new).faults };
}

/// Where bytes go.
pub trait Sink {
    // The bytes that it holds, and the count of faults.
    ghost state: { Self → SinkState };

    /// Takes bytes from the start of `piece`, which may not be empty.
    ///
    /// `Failed` comes only where the count of faults rises, and takes no byte.
    fn write(&mut self, piece: &[u8]) -> WriteAnswer
        requires { 0 < length piece.now }
        ensures fits { WriteFits result (length piece.now) }
        ensures bytes { Writes (state self.old).holds (state self.new).holds result piece.now }
        ensures count { (state self.old).faults ≤ (state self.new).faults }
        ensures cause { result ≡ WriteAnswer.Failed
            → Rose (state self.old).faults (state self.new).faults };
}
