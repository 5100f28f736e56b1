//! Sources and sinks in memory.
ghost use Rattle.std.specs.Prelude.{◌≡◌, [], length, take, min};

use crate::traits::{Sink, Source};
use crate::{ReadAnswer, WriteAnswer};
use std::alloc::Global;

// Copies what fits of `bytes` to the start of `piece`; how many bytes that are.
fn copy_prefix(bytes: &[u8], piece: &mut [u8]) -> usize
    ensures count { result ≡ min (length bytes.now) (length piece.old) }
    ensures copied { take result piece.new ≡ take result bytes.now }
{
    let n = bytes.len().min(piece.len());
    piece[..n].copy_from_slice(&bytes[..n]);
    n
}

/// The bytes of a slice as a source that never fails.
#[derive(Clone, Copy, Debug)]
pub struct SliceSource<'a> {
    /// All the bytes, also those that were given.
    pub bytes: &'a [u8],
    /// How many bytes were given.
    pub at: usize,
}

impl<'a> SliceSource<'a> {
    /// A source that has given nothing yet.
    pub fn new(bytes: &'a [u8]) -> SliceSource<'a>
        ensures bytes { result.bytes.now ≡ bytes.now }
        ensures at { result.at ≡ 0 }
    {
        SliceSource { bytes, at: 0 }
    }
}

impl Source for SliceSource<'_> {
    ghost use Rattle.byte_streams.specs.Memory.{slice_state};

    ghost state = { slice_state };

    fn read(&mut self, piece: &mut [u8]) -> ReadAnswer {
        if self.at >= self.bytes.len() {
            return ReadAnswer::End;
        }
        let n = copy_prefix(&self.bytes[self.at..], piece);
        self.at += n;
        ReadAnswer::Got(n)
    }
}

/// Bytes in memory as a source whose reads fail where a list says so.
#[derive(Debug, Drop)]
pub struct MemorySource {
    /// All the bytes, also those that were given.
    pub bytes: Vec<u8>,
    /// How many bytes were given.
    pub at: usize,
    /// At most how many bytes a read gives; 0 is taken for 1.
    pub most: usize,
    /// How many reads there were.
    pub calls: u64,
    /// The numbers of the reads that are to fail, the first read being 0.
    pub failing: Vec<u64>,
    /// How many reads have failed.
    pub faults: u64,
}

impl MemorySource {
    /// A source that has given nothing yet.
    pub fn new(bytes: Vec<u8>, most: usize, failing: Vec<u64>) -> MemorySource
        ensures bytes { (result.bytes ≡ bytes) × (result.at ≡ 0) }
        ensures plan { (result.most ≡ most) × (result.failing ≡ failing) × (result.calls ≡ 0) }
        ensures count { result.faults ≡ 0 }
    {
        MemorySource {
            bytes,
            at: 0,
            most,
            calls: 0,
            failing,
            faults: 0,
        }
    }
}

impl Source for MemorySource {
    ghost use Rattle.byte_streams.specs.Memory.{memory_state};

    ghost state = { memory_state };

    fn read(&mut self, piece: &mut [u8]) -> ReadAnswer {
        let call = self.calls;
        self.calls = call.saturating_add(1);
        if self.failing.contains(&call) {
            self.faults = self.faults.saturating_add(1);
            return ReadAnswer::Failed;
        }
        if self.at >= self.bytes.len() {
            return ReadAnswer::End;
        }
        let most = self.most.max(1).min(piece.len());
        let n = copy_prefix(&self.bytes[self.at..], &mut piece[..most]);
        self.at += n;
        ReadAnswer::Got(n)
    }
}

/// A sink that keeps what is written in memory, and whose writes fail where a list says so.
#[derive(Debug, Drop)]
pub struct MemorySink {
    /// What was written.
    pub bytes: Vec<u8>,
    /// At most how many bytes a write takes; 0 is taken for 1.
    pub most: usize,
    /// How many writes there were.
    pub calls: u64,
    /// The numbers of the writes that are to fail, the first write being 0.
    pub failing: Vec<u64>,
    /// How many writes have failed, those that found no memory included.
    pub faults: u64,
}

impl MemorySink {
    /// A sink that holds nothing yet.
    pub fn new(alloc: Global, most: usize, failing: Vec<u64>) -> MemorySink
        ensures bytes { result.bytes.items ≡ [] }
        ensures plan { (result.most ≡ most) × (result.failing ≡ failing) × (result.calls ≡ 0) }
        ensures count { result.faults ≡ 0 }
    {
        MemorySink {
            bytes: Vec::new(alloc),
            most,
            calls: 0,
            failing,
            faults: 0,
        }
    }
}

impl Sink for MemorySink {
    ghost use Rattle.byte_streams.specs.Memory.{sink_state};

    ghost state = { sink_state };

    fn write(&mut self, piece: &[u8]) -> WriteAnswer {
        let call = self.calls;
        self.calls = call.saturating_add(1);
        let n = self.most.max(1).min(piece.len());
        if self.failing.contains(&call) || self.bytes.extend_from_slice(&piece[..n]).is_err() {
            self.faults = self.faults.saturating_add(1);
            return WriteAnswer::Failed;
        }
        WriteAnswer::Took(n)
    }
}

/// A sink that takes all bytes, keeps none and never fails.
#[derive(Clone, Copy, Debug)]
pub struct NoSink;

impl Sink for NoSink {
    ghost use Rattle.std.specs.Prelude.{None};

    ghost state = { λ _. record { holds = None; faults = 0 } };

    fn write(&mut self, piece: &[u8]) -> WriteAnswer {
        WriteAnswer::Took(piece.len())
    }
}
