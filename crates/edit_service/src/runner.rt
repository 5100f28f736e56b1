//! The whole run, from a source to a sink.
ghost use Rattle.std.specs.Prelude.{◌≡◌, Some, None, map, string_bytes};
ghost use Rattle.edit_service.specs.Run.{AreForbidsAnswered, AreForbidsComplete, AreForbidsExact, IsAnswered, IsAnsweredBy, IsComplete, IsExact, ReportsTooMany, WritesCompared, WritesForbids, answer_of, usage};
ghost use Rattle.edit_service.specs.Words.{asked_for};
ghost use Rattle.edit_service.specs.Written.{Gives};

use crate::reply::{finish, finish_with};
use crate::source::reply_to;
use crate::status::Status;
use crate::words::{Command, command_in};
use byte_streams::{Sink, Source};
use policy_risks::Assumed;
use std::alloc::Global;

const USAGE: &str = "usage: compare | fail-open [stored]\n";

// What a run does for a command.
fn run_command<S: Source, K: Sink>(
    alloc: Global,
    command: Command,
    source: &mut S,
    sink: &mut K,
) -> Status
    ensures { IsAnsweredBy (answer_of command) (S.state source.old) (S.state source.new)
        (K.state sink.old) (K.state sink.new) result }
{
    let reply = reply_to(alloc, command, source);
    finish_with(sink, reply)
}

/// Does what the words ask for with the document that the source gives, and writes the answer to the sink;
/// the status says how it ended. The whole text is made before the first write; where memory runs out,
/// nothing is written.
pub fn run<S: Source, K: Sink>(
    alloc: Global,
    words: &Vec<String>,
    source: &mut S,
    sink: &mut K,
) -> Status
    // Words that are no command are answered with the usage, and no others are.
    ensures usage { asked_for (map string_bytes words.now.items) ≡ None
        → Gives Status.Usage usage (K.state sink.old) (K.state sink.new) result }
    ensures no_command { result ≡ Status.Usage → asked_for (map string_bytes words.now.items) ≡ None }

    // Where `compare` ends with 0 the bytes of the source are a document whose two sets of policies are
    // accepted; the text has a line for each environment of the schema, and what that claims of the decisions
    // before and after holds on every request of the environment and every store, where both conform.
    ensures compared { asked_for (map string_bytes words.now.items) ≡ Some Command.Compare
        → result ≡ Status.Done → WritesCompared (S.state source.old) (S.state source.new)
        (K.state sink.old) (K.state sink.new) }

    // Each status has its cause: an answer that is written, a failing write, or that memory ran out.
    ensures answered { asked_for (map string_bytes words.now.items) ≡ Some Command.Compare
        → IsAnswered (S.state source.old) (S.state source.new) (K.state sink.old) (K.state sink.new) result }

    // Each cause leads to its status, unless memory runs out: the answer to the bytes is written, too many
    // bytes are reported, and a document whose two sets are accepted is compared.
    ensures exact { asked_for (map string_bytes words.now.items) ≡ Some Command.Compare
        → IsExact (S.state source.old) (S.state source.new) (K.state sink.old) (K.state sink.new) result }
    ensures too_many { asked_for (map string_bytes words.now.items) ≡ Some Command.Compare
        → ReportsTooMany (S.state source.old) (S.state source.new)
        (K.state sink.old) (K.state sink.new) result }
    ensures complete { asked_for (map string_bytes words.now.items) ≡ Some Command.Compare
        → IsComplete (S.state source.old) (S.state source.new)
        (K.state sink.old) (K.state sink.new) result }

    // Where `fail-open` ends with 0 the bytes of the source are a document whose policies are accepted, and the
    // text has lines for each forbid, in the order of the ids. A forbid that is called closed is true or false on
    // every request and every store that conform; after `stored`, where the principal and the resource are stored.
    ensures forbids { (a : Assumed) → asked_for (map string_bytes words.now.items) ≡ Some (Command.FailOpen a)
        → result ≡ Status.Done → WritesForbids a (S.state source.old) (S.state source.new)
        (K.state sink.old) (K.state sink.new) }

    // The same causes, and the same promises, as above.
    ensures forbids_answered { (a : Assumed) → asked_for (map string_bytes words.now.items) ≡ Some (Command.FailOpen a)
        → AreForbidsAnswered a (S.state source.old) (S.state source.new) (K.state sink.old) (K.state sink.new) result }
    ensures forbids_exact { (a : Assumed) → asked_for (map string_bytes words.now.items) ≡ Some (Command.FailOpen a)
        → AreForbidsExact a (S.state source.old) (S.state source.new) (K.state sink.old) (K.state sink.new) result }
    ensures forbids_too_many { (a : Assumed) → asked_for (map string_bytes words.now.items) ≡ Some (Command.FailOpen a)
        → ReportsTooMany (S.state source.old) (S.state source.new)
        (K.state sink.old) (K.state sink.new) result }
    ensures forbids_complete { (a : Assumed) → asked_for (map string_bytes words.now.items) ≡ Some (Command.FailOpen a)
        → AreForbidsComplete (S.state source.old) (S.state source.new)
        (K.state sink.old) (K.state sink.new) result }
{
    match command_in(words) {
        Some(command) => run_command(alloc, command, source, sink),
        None => finish(sink, Status::Usage, USAGE),
    }
}
