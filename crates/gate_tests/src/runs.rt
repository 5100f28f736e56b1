//! The top call over sources and sinks in memory.

use policy_gate::{MemorySink, MemorySource, NoSink, SliceSource, Status, run};
use std::alloc::{AllocError, Global};
use std::process::Abort;

// What is written where the words are no command, with a bar for the end of the line.
const USAGE: &str =
    "usage: check | level N | request | manifest | slice | decide | sample SEED SIZE | batch | live | review | list LIMIT [TYPE EID]|";

/// Asserts that a text is the expected one.
pub(crate) fn assert_same(rt: &impl Abort, text: &str, expected: &str) {
    assert_eq!(rt; text, expected);
}

fn owned(alloc: Global, words: &[&str]) -> Result<Vec<String>, AllocError> {
    let mut owned = Vec::new(alloc);
    for word in words {
        owned.push(String::from_str(alloc, word)?)?;
    }
    Ok(owned)
}

/// How a run ends, and the bytes that it writes, over a source and a sink that move at most so many bytes in
/// a call, and of which these calls fail.
pub(crate) fn run_on(
    alloc: Global,
    words: &[&str],
    document: &[u8],
    most: usize,
    failing_reads: &[u64],
    failing_writes: &[u64],
) -> Result<(Status, Vec<u8>), AllocError> {
    let bytes = Vec::from_slice(alloc, document)?;
    let mut source = MemorySource::new(bytes, most, Vec::from_slice(alloc, failing_reads)?);
    let mut sink = MemorySink::new(alloc, most, Vec::from_slice(alloc, failing_writes)?);
    let status = run(alloc, &owned(alloc, words)?, &mut source, &mut sink);
    let MemorySink { bytes, .. } = sink;
    Ok((status, bytes))
}

/// How a run ends and what it writes, on one line, in which a bar ends a line; bytes that are no text count
/// as out of memory.
pub(crate) fn answer_text(
    alloc: Global,
    status: Status,
    written: &[u8],
) -> Result<String, AllocError> {
    let text = std::str::from_utf8(written).ok().ok_or(AllocError)?;
    let text = text.replace(alloc, "\n", "|")?;
    let answer = format!(in alloc; "{status:?} {text}")?;
    answer.as_str().replace(alloc, USAGE, "$usage")
}

/// The same of such a run.
pub(crate) fn answer_on(
    alloc: Global,
    words: &[&str],
    document: &[u8],
    most: usize,
    failing_reads: &[u64],
    failing_writes: &[u64],
) -> Result<String, AllocError> {
    let (status, bytes) = run_on(alloc, words, document, most, failing_reads, failing_writes)?;
    answer_text(alloc, status, bytes.as_slice())
}

#[test]
fn texts_that_are_no_documents(rt: HostRuntime) -> Result<(), AllocError> {
    let rows: [(&[u8], &str); 4] = [
        (b"{\"schema\":", "Document document: json|"),
        (b"", "Document document: json|"),
        (b"\"\xff\"", "Document document: json|"),
        (b"[]", "Document document: form|"),
    ];
    for (document, expected) in rows {
        for most in [1, 3, 5000] {
            let text = answer_on(rt.alloc(), &["slice"], document, most, &[], &[])?;
            assert_same(&rt, text.as_str(), expected);
        }
    }
    Ok(())
}

// Nothing is read, so a source that would fail is no matter.
#[test]
fn refuses_other_words(rt: HostRuntime) -> Result<(), AllocError> {
    let rows: [&[&str]; 5] = [&[], &["slices"], &["slice", "slice"], &["--help"], &[""]];
    for words in rows {
        let text = answer_on(rt.alloc(), words, b"[]", 7, &[0], &[])?;
        assert_same(&rt, text.as_str(), "Usage $usage");
    }
    Ok(())
}

// Where the status is another than 0, a failing write leaves it.
#[test]
fn hands_faults_on(rt: HostRuntime) -> Result<(), AllocError> {
    let read = answer_on(rt.alloc(), &["slice"], b"[1, 2, 3]", 4, &[1], &[])?;
    assert_same(&rt, read.as_str(), "ReadFault read fault|");
    let written = answer_on(rt.alloc(), &["slice"], b"[]", 4, &[], &[1])?;
    assert_same(&rt, written.as_str(), "Document docu");
    Ok(())
}

// What is answered to so many blanks.
fn answer_to_blanks(alloc: Global, length: usize) -> Result<String, AllocError> {
    let blanks = vec![in alloc; b' '; length]?;
    let mut source = SliceSource::new(blanks.as_slice());
    let mut sink = MemorySink::new(alloc, 5000, Vec::new(alloc));
    let status = run(alloc, &owned(alloc, &["slice"])?, &mut source, &mut sink);
    let MemorySink { bytes, .. } = sink;
    answer_text(alloc, status, bytes.as_slice())
}

#[test]
fn bounds_the_document(rt: HostRuntime) -> Result<(), AllocError> {
    let longest = answer_to_blanks(rt.alloc(), 16777216)?;
    assert_same(&rt, longest.as_str(), "Document document: json|");
    let longer = answer_to_blanks(rt.alloc(), 16777217)?;
    assert_same(
        &rt,
        longer.as_str(),
        "TooLong document: more than 16777216 bytes|",
    );
    Ok(())
}

// How a run ends that writes to no sink.
fn unwritten(alloc: Global) -> Result<String, AllocError> {
    let words = owned(alloc, &["slice"])?;
    let status = run(alloc, &words, &mut SliceSource::new(b"[]"), &mut NoSink);
    answer_text(alloc, status, b"")
}

#[test]
fn a_run_needs_no_sink(rt: HostRuntime) -> Result<(), AllocError> {
    let text = unwritten(rt.alloc())?;
    assert_same(&rt, text.as_str(), "Document ");
    Ok(())
}
