//! A source and a sink over any reader and writer of std, as standard input and output.
ghost use Rattle.std.specs.Prelude.{◌≡◌};

use crate::traits::{Sink, Source};
use crate::{ReadAnswer, WriteAnswer};
use std::io::{Read, Write};
use std::marker::Model;

/// A reader as a source: it says the bytes that are left where the reader says them.
///
/// Its counts begin at 0. A reader that has given nearly 2^64 bytes fails from then on, so that the
/// count of bytes is exact.
#[derive(Debug, Drop)]
pub struct StdSource<R: Read + Drop> {
    reader: R,
    taken: u64,
    faults: u64,
}

impl<R: Read + Drop> Model for StdSource<R> {
    ghost use Rattle.byte_streams.specs.State.{SourceState};

    ghost Value = { SourceState };

    ghost view = { λ s. record { left = R.remaining s.reader; taken = s.taken; faults = s.faults } };
}

impl<R: Read + Drop> StdSource<R> {
    /// The reader as a source that has given nothing yet.
    pub fn new(reader: R) -> StdSource<R>
        ensures { result ≡ record { left = R.remaining reader; taken = 0; faults = 0 } }
    {
        StdSource {
            reader,
            taken: 0,
            faults: 0,
        }
    }
}

impl<R: Read + Drop> Source for StdSource<R> {
    ghost state = { λ s. s };

    fn read(&mut self, piece: &mut [u8]) -> ReadAnswer {
        if piece.len() as u64 > u64::MAX - self.taken {
            self.faults = self.faults.saturating_add(1);
            return ReadAnswer::Failed;
        }
        match self.reader.read(piece) {
            Ok(0) => ReadAnswer::End,
            Ok(n) => {
                self.taken += n as u64;
                ReadAnswer::Got(n)
            }
            Err(_) => {
                self.faults = self.faults.saturating_add(1);
                ReadAnswer::Failed
            }
        }
    }
}

/// A writer as a sink: it says the bytes that it holds where the writer says them.
///
/// Its count of faults begins at 0.
#[derive(Debug, Drop)]
pub struct StdSink<W: Write + Drop> {
    writer: W,
    faults: u64,
}

impl<W: Write + Drop> Model for StdSink<W> {
    ghost use Rattle.byte_streams.specs.State.{SinkState};

    ghost Value = { SinkState };

    ghost view = { λ s. record { holds = W.contents s.writer; faults = s.faults } };
}

impl<W: Write + Drop> StdSink<W> {
    /// The writer as a sink that has not failed yet.
    pub fn new(writer: W) -> StdSink<W>
        ensures { result ≡ record { holds = W.contents writer; faults = 0 } }
    {
        StdSink { writer, faults: 0 }
    }
}

impl<W: Write + Drop> Sink for StdSink<W> {
    ghost state = { λ s. s };

    // Taking nothing of a piece that isn't empty is a fault.
    fn write(&mut self, piece: &[u8]) -> WriteAnswer {
        match self.writer.write(piece) {
            Ok(0) | Err(_) => {
                self.faults = self.faults.saturating_add(1);
                WriteAnswer::Failed
            }
            Ok(n) => WriteAnswer::Took(n),
        }
    }
}
