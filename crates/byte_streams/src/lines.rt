//! Lines of a source, one after another.
ghost use Rattle.std.specs.Prelude.{◌≡◌, length, true};
ghost use Rattle.byte_streams.specs.Lines.{GivesByte, IsEnd, IsLast, IsNext, IsRest, IsReported, is_plain};

use crate::pieces::{Filled, read_piece};
use crate::{DOCUMENT_LIMIT, Source};
use std::alloc::Global;
use std::marker::Model;

/// What is read of a source up to the end of a line.
#[derive(Debug, Drop)]
pub enum Line {
    /// The bytes of the line, without the newline that ends it.
    Text(Vec<u8>),
    /// The line has more bytes than a document may have; they are passed over.
    TooLong,
    /// Nothing is left.
    End,
    /// A read failed.
    Failed,
    /// Memory ran out.
    OutOfMemory,
}

/// What is read of a source for one more byte.
#[derive(Drop)]
pub enum NextByte {
    /// The byte, which is no newline.
    Byte(u8),
    /// A newline.
    Newline,
    /// Nothing is left.
    End,
    /// A read failed.
    Failed,
    /// Memory ran out.
    OutOfMemory,
}

/// A source whose bytes are read line by line; contracts see what of its bytes is left, where the source
/// says it.
///
/// A newline ends a line, and so does the end of the source behind other bytes.
#[derive(Drop)]
pub struct Lines<S: Source + Drop> {
    source: S,
    piece: Vec<u8>,
    at: usize,
}

impl<S: Source + Drop> Model for Lines<S> {
    ghost use Rattle.std.specs.Prelude.{ℕ, List, Option, drop};
    ghost use Rattle.std.specs.Io.KnownBytes.{prepend_known};

    ghost Value = { Option (List ℕ) };

    ghost view = { λ l. prepend_known (drop l.at l.piece.items) (S.state l.source).left };
}

impl<S: Source + Drop> Lines<S> {
    /// The lines of the source.
    pub fn new(alloc: Global, source: S) -> Lines<S>
        ensures { result ≡ (S.state source).left }
    {
        Lines {
            source,
            piece: Vec::new(alloc),
            at: 0,
        }
    }

    // The next byte.
    fn next_byte(&mut self) -> NextByte
        ensures { GivesByte self.old self.new result }
    {
        if self.at >= self.piece.len() {
            self.at = 0;
            match read_piece(&mut self.source, &mut self.piece) {
                Filled::Got => {}
                Filled::End => return NextByte::End,
                Filled::Failed => return NextByte::Failed,
                Filled::OutOfMemory => return NextByte::OutOfMemory,
            }
        }
        let byte = self.piece[self.at];
        self.at += 1;
        known(byte)
    }

    // Passes over the bytes up to the end of a line that is too long.
    fn skip_rest(&mut self) -> Line
        ensures { IsRest self.old self.new result }
    {
        for _ in 0..u64::MAX {
            match self.next_byte() {
                NextByte::Byte(_) => {}
                NextByte::Newline => return Line::TooLong,
                NextByte::End => return Line::TooLong,
                NextByte::Failed => return Line::Failed,
                NextByte::OutOfMemory => return Line::OutOfMemory,
            }
        }
        Line::Failed
    }

    /// The next line.
    ///
    /// A read failed, or memory ran out, in the midst of a line where these are known; a line of 2^64 bytes
    /// and more is known as a failed read.
    pub fn next_line(&mut self, alloc: Global) -> Line
        ensures { IsNext self.old self.new result }
    {
        let mut line = Vec::new(alloc);
        while line.len() < DOCUMENT_LIMIT {
            match self.next_byte() {
                NextByte::Byte(byte) => {
                    if line.push(byte).is_err() {
                        return Line::OutOfMemory;
                    }
                }
                NextByte::Newline => return Line::Text(line),
                NextByte::End => return last_line(line),
                NextByte::Failed => return Line::Failed,
                NextByte::OutOfMemory => return Line::OutOfMemory,
            }
        }
        self.end_of(line)
    }

    // What comes of a line that is as long as a document may be.
    fn end_of(&mut self, line: Vec<u8>) -> Line
        requires size { length line.items ≡ DOCUMENT_LIMIT }
        requires plain { is_plain line.items ≡ true }
        ensures { IsEnd self.old self.new line.items result }
    {
        match self.next_byte() {
            NextByte::Byte(_) => self.skip_rest(),
            NextByte::Newline => Line::Text(line),
            NextByte::End => Line::Text(line),
            NextByte::Failed => Line::Failed,
            NextByte::OutOfMemory => Line::OutOfMemory,
        }
    }
}

fn known(byte: u8) -> NextByte
    ensures { IsReported byte result }
{
    if byte == b'\n' {
        NextByte::Newline
    } else {
        NextByte::Byte(byte)
    }
}

// The line that the end of the source ends, where it has bytes.
fn last_line(line: Vec<u8>) -> Line
    ensures { IsLast line.items result }
{
    if line.is_empty() {
        Line::End
    } else {
        Line::Text(line)
    }
}
