//! What reaches outside: sources that bytes come from and sinks that they go to, each with a count
//! of its faults, so that a contract can say when a fault may be blamed.
#![tactic(auto)]

mod answering;
mod lines;
mod memory;
mod pieces;
mod reading;
mod standard;
mod traits;
mod writing;

pub use answering::{AnswersLines, Ended, answer_lines};
pub use lines::{Line, Lines};
pub use memory::{MemorySink, MemorySource, NoSink, SliceSource};
pub use reading::{DOCUMENT_LIMIT, ReadError, limit_is_stated, read_document_bytes};
pub use standard::{StdSink, StdSource};
pub use traits::{Sink, Source};
pub use writing::{WriteFault, write_text};

/// What a read gave.
#[derive(Clone, Copy, Debug, PartialEq, Eq)]
pub enum ReadAnswer {
    /// This many bytes, at least one, at the start of the piece.
    Got(usize),
    /// Nothing, since nothing is left.
    End,
    /// Nothing, since something went wrong.
    Failed,
}

/// What a write took.
#[derive(Clone, Copy, Debug, PartialEq, Eq)]
pub enum WriteAnswer {
    /// This many bytes, at least one, from the start of the piece.
    Took(usize),
    /// Nothing, since something went wrong.
    Failed,
}
