//! The library for C: the answer to a command on a document, into memory of the caller.
#![tactic(auto)]

ghost use Rattle.std.specs.Prelude.{◌≡◌, ◌==◌, ◌⊎◌, ℕ, List, Some, IfOk, map, string_bytes};
ghost use Rattle.policy_gate.specs.Command.{command_of};
ghost use Rattle.policy_gate.specs.Headline.{HasDocument, IsSliced};
ghost use Rattle.policy_gate.specs.Reply.{Answer, answer};
ghost use Rattle.policy_gate.specs.Status.{IsUnlessOutOfMemory, code_of};
ghost use Rattle.std.specs.List.{slice_split};
ghost use Rattle.palvumiose_c.specs.KnownText.{HandsOut, HasFaultyPolicies, IsHanded, IsReported, KeepAllRules, SaysDone, laid_over, words_in};

use byte_streams::{MemorySink, SliceSource};
use policy_gate::{Command, Status, run};
use std::alloc::{AllocError, Global};

// A status and its text.
#[derive(Drop)]
struct Reply {
    status: Status,
    text: Vec<u8>,
}

// The words of a command, which zero bytes part; none where they are no text.
fn words_of(alloc: Global, command: &[u8]) -> Result<Vec<String>, AllocError>
    ensures { IfOk result (λ words. map string_bytes words.items ≡ words_in command.now) }
{
    let Ok(text) = std::str::from_utf8(command) else {
        return Ok(Vec::new(alloc));
    };
    let parts = parts_of(alloc, text)?;
    own(alloc, parts.as_slice())
}

// The parts of a text between zero bytes.
fn parts_of(alloc: Global, text: &str) -> Result<Vec<&str>, AllocError>
    ensures { IfOk result (λ parts. map (λ p. p.now) parts.items ≡ slice_split (λ b. b == 0) text.now) }
{
    text.split('\0').collect(alloc)
}

// The texts, each with memory of its own.
fn own(alloc: Global, texts: &[&str]) -> Result<Vec<String>, AllocError>
    ensures { IfOk result (λ words. map string_bytes words.items ≡ map (λ t. t.now) texts.now) }
{
    let mut words = Vec::new(alloc);
    for text in texts {
        words.push(String::from_str(alloc, text)?)?;
    }
    Ok(words)
}

// What `run` answers where both document and text are in memory. The sink fails only where memory runs out.
fn reply_to(alloc: Global, command: &[u8], document: &[u8]) -> Result<Reply, AllocError>
    ensures reported { IfOk result (λ r.
        IsReported (command_of (words_in command.now)) document.now (answer r.status r.text.items)) }
    ensures headline { command_of (words_in command.now) ≡ Some Command.Slice
        → IfOk result (λ r. r.status ≡ Status.Done
        → HasDocument Command.Slice document.now (λ d. IsSliced d r.text.items)) }
    ensures said { IfOk result (λ r.
        r.status ≡ Status.Done → SaysDone command.now document.now r.text.items) }
    ensures refused { IfOk result (λ r.
        r.status ≡ Status.Findings → HasFaultyPolicies command.now document.now) }
    ensures complete { KeepAllRules command.now document.now
        → IfOk result (λ r. IsUnlessOutOfMemory r.status Status.Done) }
{
    let words = words_of(alloc, command)?;
    let mut source = SliceSource::new(document);
    let mut sink = MemorySink::new(alloc, usize::MAX, Vec::new(alloc));
    let status = run(alloc, &words, &mut source, &mut sink);
    let MemorySink { bytes, faults, .. } = sink;
    if faults > 0 {
        return Err(AllocError);
    }
    Ok(Reply {
        status,
        text: bytes,
    })
}

// The same, with no text where memory ran out.
fn answer_to(alloc: Global, command: &[u8], document: &[u8]) -> Reply
    ensures reported { IsReported (command_of (words_in command.now)) document.now
        (answer result.status result.text.items) }
    ensures headline { command_of (words_in command.now) ≡ Some Command.Slice → result.status ≡ Status.Done
        → HasDocument Command.Slice document.now (λ d. IsSliced d result.text.items) }
    ensures said { result.status ≡ Status.Done → SaysDone command.now document.now result.text.items }
    ensures refused { result.status ≡ Status.Findings → HasFaultyPolicies command.now document.now }
    ensures complete { KeepAllRules command.now document.now
        → IsUnlessOutOfMemory result.status Status.Done }
{
    match reply_to(alloc, command, document) {
        Ok(reply) => reply,
        Err(_) => Reply {
            status: Status::OutOfMemory,
            text: Vec::new(alloc),
        },
    }
}

// Copies as much of the text to the start of `out` as there is room for.
fn lay_over(text: &[u8], out: &mut [u8])
    ensures { out.new ≡ laid_over text.now out.old }
{
    let n = text.len().min(out.len());
    out[..n].copy_from_slice(&text[..n]);
}

/// Answers a command on a document, as the program does: its status and its text.
///
/// `command` is the words that would stand behind the program's name, with a zero byte between two of them,
/// as `decide`, or `level`, a zero byte and `2`. `document` is the bytes that the program would read. `out`
/// gets the text, or its prefix where `out` is shorter; behind the text `out` stays as it was. `size` gets the
/// size of the whole text: where it is more than `out` has room for, call again with that much room. The
/// result is the program's status. It is never 8 or 9, since nothing is read or written outside; 10 says that
/// memory ran out, and then there is no text.
///
/// Nothing is kept between two calls, and nothing is left to free. Calls may run in many threads at a time.
///
/// What the caller owes, and nothing checks:
///
/// - No pointer is null, not even where its size is 0, and each leads to as many bytes as its size says,
///   fewer than 2^63.
/// - `out` and `size` overlap neither each other nor `command` and `document`. During the call no other
///   thread writes to any of the four, or reads `out` and `size`.
/// - `malloc`, `realloc` and `free`, which the call uses, are those of one allocator, and may be called in
///   the thread: not in a signal handler, and not in a child that was forked from a process with threads.
/// - The thread has 1 MiB of stack left. A document may be nested so deep that less is not enough, and then
///   the process ends.
#[unsafe(no_mangle)]
pub extern "C" fn palvumiose_c_run(
    alloc: Global,
    command: &[u8],
    document: &[u8],
    out: &mut [u8],
    size: &mut usize,
) -> u8
    // The answer that is expected for the words and the document, or that memory ran out: its status is the
    // result, its text is in `out` as far as there is room, and `size` is the text's size.
    ensures reported { (a : Answer) × IsReported (command_of (words_in command.now)) document.now a
        × (result ≡ code_of a.status) × IsHanded a.text size.new out.old out.new }

    // The headline: where `slice` answers 0 the document keeps every rule, and the text is its store
    // restricted to what its policies read, with the response; on that slice, and on every store between it
    // and the whole one, every policy has the outcome that it has on the whole store.
    ensures headline { command_of (words_in command.now) ≡ Some Command.Slice → result ≡ 0
        → HandsOut Command.Slice IsSliced document.now size.new out.old out.new }

    // Where any command answers 0, the text says of its document what `run` says there; and where one answers
    // 1 the policies are not accepted, for `level` at the level.
    ensures said { result ≡ 0 → (text : List ℕ) × IsHanded text size.new out.old out.new
        × SaysDone command.now document.now text }
    ensures refused { result ≡ 1 → HasFaultyPolicies command.now document.now }

    // And 0 comes wherever every rule of the command holds, unless memory runs out.
    ensures complete { KeepAllRules command.now document.now → (result ≡ 0) ⊎ (result ≡ 10) }
{
    let reply = answer_to(alloc, command, document);
    lay_over(reply.text.as_slice(), out);
    *size = reply.text.len();
    reply.status.code()
}
