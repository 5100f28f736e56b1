//! The whole run, from a source to a sink.
ghost use Rattle.std.specs.Prelude.{◌≡◌, ◌+◌, ◌<◌, ℕ, List, Option, Some, None, IfOk, map, string_bytes};
ghost use Rattle.byte_streams.specs.Document.{document_limit, TakesFew};
ghost use Rattle.json_samples.specs.Sample.{sample_document};
ghost use Rattle.policy_gate.specs.Command.{command_of, own_document};
ghost use Rattle.policy_gate.specs.Headline.{DoneSays, HasPoliciesFor, IsBatch, IsChecked, IsCheckedAt, IsConforming, IsDecided, IsListed, IsLive, IsManifested, IsRefusedEdit, IsReviewed, IsSampled, IsSliced, KeepsAllRules, OwnSays, WorkedOn};
ghost use Rattle.policy_gate.specs.Reply.{answer, reply_view};
ghost use Rattle.policy_gate.specs.Run.{Cause, Gives, HasTooMany, IsExpectedAfterReading, IsExpectedFor, IsExact, IsReader, IsRunOn, Runs, run_of};
ghost use Rattle.policy_gate.specs.Status.{IsAfterEnd, IsUnlessOutOfMemory};
ghost use Rattle.policy_values.specs.declared.entity_uid.EntityUID.{EntityUID};

use crate::answer::reply;
use crate::command::{Command, command_of, own_document};
use crate::laws::laws;
use crate::reply::{Reply, reply_with};
use crate::status::Status;
use byte_streams::{ReadError, Sink, Source, read_document_bytes, write_text};
use std::alloc::{AllocError, Global};

const USAGE: &str =
    "usage: check | level N | request | manifest | slice | decide | sample SEED SIZE | batch | live | review | list LIMIT [TYPE EID]\n";

const READ_FAULT: &str = "read fault\n";

const TOO_LONG: &str = "document: more than 16777216 bytes\n";

// Writes the text, and says how the run ends.
fn finish<K: Sink>(sink: &mut K, status: Status, text: &str) -> Status
    ensures { Gives (answer status text.now) (K.state sink.old) (K.state sink.new) result }
{
    match write_text(sink, text.as_bytes()) {
        Ok(()) => status,
        Err(_) => status.after_fault(),
    }
}

// Reads the document, and makes the reply to it.
fn from_document<S: Source>(
    alloc: Global,
    command: &Command,
    source: &mut S,
) -> Result<Reply, AllocError>
    ensures expected { IfOk result (λ r.
        IsExpectedAfterReading command.now (S.state source.old) (S.state source.new) (reply_view r)) }
    ensures taken { TakesFew (S.state source.old) (S.state source.new) }
{
    match read_document_bytes(alloc, source) {
        Ok(bytes) => reply(alloc, command, bytes),
        Err(ReadError::Fault) => reply_with(alloc, Status::ReadFault, READ_FAULT),
        Err(ReadError::TooLong) => reply_with(alloc, Status::TooLong, TOO_LONG),
        Err(ReadError::OutOfMemory) => Err(AllocError),
    }
}

// Makes the reply to a command, which reads a document or has one of its own.
fn reply_to<S: Source>(
    alloc: Global,
    command: &Command,
    source: &mut S,
) -> Result<Reply, AllocError>
    ensures expected { IfOk result (λ r.
        IsExpectedFor (own_document command.now) command.now (S.state source.old) (S.state source.new)
        (reply_view r)) }
    ensures taken { TakesFew (S.state source.old) (S.state source.new) }
{
    match own_document(alloc, command)? {
        Some(document) => reply(alloc, command, document.into_bytes()),
        None => from_document(alloc, command, source),
    }
}

// What a run does for a command.
fn outcome_of<S: Source, K: Sink>(
    alloc: Global,
    command: &Command,
    source: &mut S,
    sink: &mut K,
) -> Status
    ensures runs { Runs (Some command.now)
        (S.state source.old) (S.state source.new) (K.state sink.old) (K.state sink.new) result }
    ensures taken { TakesFew (S.state source.old) (S.state source.new) }
{
    match reply_to(alloc, command, source) {
        Ok(reply) => finish(sink, reply.status, reply.text.as_str()),
        Err(_) => Status::OutOfMemory,
    }
}

// What a run does for the command that the words are, if they are one.
fn outcome_for<S: Source, K: Sink>(
    alloc: Global,
    command: Option<Command>,
    source: &mut S,
    sink: &mut K,
) -> Status
    ensures runs { Runs command
        (S.state source.old) (S.state source.new) (K.state sink.old) (K.state sink.new) result }
    ensures taken { TakesFew (S.state source.old) (S.state source.new) }
{
    match command {
        Some(command) => outcome_of(alloc, &command, source, sink),
        None => finish(sink, Status::Usage, USAGE),
    }
}

// All that a run does.
fn outcome<S: Source, K: Sink>(
    alloc: Global,
    words: &Vec<String>,
    source: &mut S,
    sink: &mut K,
) -> Status
    ensures runs { Runs (command_of (map string_bytes words.now.items))
        (S.state source.old) (S.state source.new) (K.state sink.old) (K.state sink.new) result }
    ensures taken { TakesFew (S.state source.old) (S.state source.new) }
{
    match command_of(alloc, words) {
        Ok(command) => outcome_for(alloc, command, source, sink),
        Err(_) => Status::OutOfMemory,
    }
}

/// Reads a document from the source, does what the words ask for, and writes the text of the
/// answer to the sink; the status says how it ended.
///
/// The whole text is made before the first write. Where memory runs out, nothing is written.
pub fn run<S: Source, K: Sink>(
    alloc: Global,
    words: &Vec<String>,
    source: &mut S,
    sink: &mut K,
) -> Status
    // Each status has its cause.
    ensures cause { Cause (command_of (map string_bytes words.now.items))
        (S.state source.old) (S.state source.new) (K.state sink.old) (K.state sink.new) result }

    // At most one byte more is taken than a document may have. Every status but usage, a failing source, lack
    // of memory and a document that is too long means that the source was read to its end, or that the
    // command has a document of its own.
    ensures taken { TakesFew (S.state source.old) (S.state source.new) }
    ensures read { IsAfterEnd result → (command : Command) × (bytes : List ℕ) × IsRunOn command bytes
        (run_of S.state K.state words.now source.old source.new sink.old sink.new result) }

    // All of the text that was expected is written; a prefix of it where the sink's count rose; and
    // nothing where memory ran out.
    ensures written { Runs (command_of (map string_bytes words.now.items))
        (S.state source.old) (S.state source.new) (K.state sink.old) (K.state sink.new) result }

    // Each status comes where its rule says so, unless memory runs out.
    ensures usage { command_of (map string_bytes words.now.items) ≡ None → result ≡ Status.Usage }
    ensures too_long { (S.state source.old).taken + document_limit < (S.state source.new).taken
        → IsUnlessOutOfMemory result Status.TooLong }
    ensures too_long_reported { IsReader (command_of (map string_bytes words.now.items))
        → HasTooMany (S.state source.old) (S.state source.new)
        → IsUnlessOutOfMemory result Status.TooLong }
    ensures exact { (command : Command) (bytes : List ℕ) → IsExact command bytes
        (run_of S.state K.state words.now source.old source.new sink.old sink.new result) }

    // The headline: where `slice` ends with 0 all bytes were read and are a document that keeps every rule,
    // and the text that is written is its store restricted to what its policies read, with the response; on
    // that slice, and on every store between it and the whole one, every policy has the outcome that it has
    // on the whole store: a truth value, a missing entity or an overflow.
    ensures headline { DoneSays Command.Slice IsSliced
        (run_of S.state K.state words.now source.old source.new sink.old sink.new result) }

    // Where `check` ends with 0 the document's policies are accepted, and the text is what is found of them:
    // warnings alone. A policy that is impossible, of which there is a warning, is never true.
    ensures checked { DoneSays Command.Check IsChecked
        (run_of S.state K.state words.now source.old source.new sink.old sink.new result) }

    // Where `level` ends with 0 the policies are accepted at the level, and the text is what is found of
    // them: warnings alone. Then on a store cut at the level each policy has the outcome that it has on the
    // whole store, where request and store conform.
    ensures levelled { (level : ℕ) → DoneSays (Command.Level level) (IsCheckedAt level)
        (run_of S.state K.state words.now source.old source.new sink.old sink.new result) }

    // Where `request` ends with 0 the document's request breaks no rule, and its store conforms; the text
    // says so.
    ensures conforming { DoneSays Command.Request IsConforming
        (run_of S.state K.state words.now source.old source.new sink.old sink.new result) }

    // Where `manifest` ends with 0 the document's policies are accepted, and the text is their manifest: for
    // each environment of the schema what they read and ask for there.
    ensures manifested { DoneSays Command.Manifest IsManifested
        (run_of S.state K.state words.now source.old source.new sink.old sink.new result) }

    // Where `decide` ends with 0 the document keeps every rule, and the text is the response on its whole
    // store, on which each policy's outcome is a truth value, a missing entity or an overflow.
    ensures decided { DoneSays Command.Decide IsDecided
        (run_of S.state K.state words.now source.old source.new sink.old sink.new result) }

    // Where `sample` ends with 0 the source is left alone, and the document that the seed and the size make
    // keeps every rule; the text is the line on its slice, which is enough as that of `slice` is.
    ensures sampled { (seed size : ℕ) →
        OwnSays (sample_document seed size) (Command.Sample seed size) (IsSampled size)
        (run_of S.state K.state words.now source.old source.new sink.old sink.new result) }

    // Where `batch` ends with 0 the document's store conforms and its policies are accepted, and the text has
    // a line for each of its requests: for one that is whole and conforms the response on the whole store, on
    // which each policy's outcome is a truth value, a missing entity or an overflow.
    ensures batched { DoneSays Command.Batch IsBatch
        (run_of S.state K.state words.now source.old source.new sink.old sink.new result) }

    // Where `review` ends with 0 the document's policies are accepted, and the text says on which types of
    // requests each can be true, and at which least level it passes: what it says never of is true on no
    // request of that type and on no store, where both conform.
    ensures reviewed { DoneSays Command.Review IsReviewed
        (run_of S.state K.state words.now source.old source.new sink.old sink.new result) }

    // Where `live` ends with 0 none of the document's edits is refused, and the text is the manifest of the
    // policies that they leave, which are accepted: for each environment of the schema what they read and ask
    // for there.
    ensures lived { DoneSays Command.Live IsLive
        (run_of S.state K.state words.now source.old source.new sink.old sink.new result) }

    // Where `list` ends with 0 every rule holds that does not speak of the principal, and the text is a page
    // of those principals of the store for which the decision on the whole store is Allow.
    ensures listed { (limit : ℕ) (after : Option EntityUID) →
        DoneSays (Command.List limit after) (IsListed limit after)
        (run_of S.state K.state words.now source.old source.new sink.old sink.new result) }

    // An edit is refused by `live` alone: the text that is expected says which one is the first, and why.
    ensures edit_refused { result ≡ Status.Edit → (text : List ℕ)
        × WorkedOn Command.Live (λ d. IsRefusedEdit d text)
        (run_of S.state K.state words.now source.old source.new sink.old sink.new result) }

    // A command finds errors in the policies of no other documents than those whose policies are not
    // accepted, for `level` at the level.
    ensures refused { result ≡ Status.Findings → (c : Command) × WorkedOn c (λ d. ¬ HasPoliciesFor c d)
        (run_of S.state K.state words.now source.old source.new sink.old sink.new result) }

    // And 0 comes wherever every rule of the command holds, unless memory runs out.
    ensures complete { KeepsAllRules
        (run_of S.state K.state words.now source.old source.new sink.old sink.new result)
        → IsUnlessOutOfMemory result Status.Done }
{
    laws();
    outcome(alloc, words, source, sink)
}
