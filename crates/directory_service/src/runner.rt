//! The whole run, from a source to a sink.
ghost use Rattle.std.specs.Prelude.{◌≡◌, Some, None, map, option_map, string_bytes};
ghost use Rattle.directory_service.specs.Decided.{Decides, DecidesBy};
ghost use Rattle.directory_service.specs.Run.{Gives, SaysConforms, IsImported, AnswersDocument, usage};
ghost use Rattle.directory_service.specs.Words.{asked_for};

use crate::decisions::{decide, decide_by};
use crate::files::{check_source, import_source};
use crate::reply::{finish, finish_with};
use crate::status::Status;
use crate::words::{Command, call_of};
use byte_streams::{Sink, Source};
use sqlite::Start;

const USAGE: &str = "usage: import DB | check DB | decide DB [DOCUMENT]\n";

// What a run does for a command.
fn run_command<S: Start, I: Source + Drop, D: Source + Drop, K: Sink>(
    rt: &HostRuntime,
    command: Command,
    path: &str,
    start: S,
    mut source: I,
    given: Option<D>,
    sink: &mut K,
) -> Status
    ensures imported { command ≡ Command.Import → result ≡ Status.Done
        → AnswersDocument IsImported (I.state source).left (K.state sink.old) (K.state sink.new) }
    ensures checked { command ≡ Command.Check → result ≡ Status.Done
        → AnswersDocument SaysConforms (I.state source).left (K.state sink.old) (K.state sink.new) }
    ensures decided { command ≡ Command.Decide → result ≡ Status.Done → Decides (I.state source).left }
    ensures decided_by { command ≡ Command.DecideBy → result ≡ Status.Done
        → DecidesBy (option_map (λ s. D.state s) given) }
    ensures command { ¬ (result ≡ Status.Usage) }
{
    match command {
        Command::Import => finish_with(sink, import_source(rt, path, start, &mut source)),
        Command::Decide => decide(rt, path, start, source, sink),
        Command::DecideBy => decide_by(rt, path, start, source, given, sink),
        Command::Check => finish_with(sink, check_source(rt, path, start, &mut source)),
    }
}

/// Does what the words ask for with the file that they name, reads from the source what that needs, and from
/// `given` the document that a third word names, and writes what is answered to the sink; the status says how
/// it ended.
pub fn run<S: Start, I: Source + Drop, D: Source + Drop, K: Sink>(
    rt: &HostRuntime,
    words: &Vec<String>,
    start: S,
    source: I,
    given: Option<D>,
    sink: &mut K,
) -> Status
    // Of words that are no command the usage is known, and of no others.
    ensures usage { asked_for (map string_bytes words.now.items) ≡ None
        → Gives Status.Usage usage (K.state sink.old) (K.state sink.new) result }
    ensures no_command { result ≡ Status.Usage → asked_for (map string_bytes words.now.items) ≡ None }

    // Where `import` ends with 0 the bytes of the source are a document whose store breaks no rule of its
    // schema, and the text says how many entities it has.
    ensures imported { asked_for (map string_bytes words.now.items) ≡ Some Command.Import
        → result ≡ Status.Done
        → AnswersDocument IsImported (I.state source).left (K.state sink.old) (K.state sink.new) }

    // Where `check` ends with 0 the bytes of the source are a document, and the text says that a store
    // conforms.
    ensures checked { asked_for (map string_bytes words.now.items) ≡ Some Command.Check
        → result ≡ Status.Done
        → AnswersDocument SaysConforms (I.state source).left (K.state sink.old) (K.state sink.new) }

    // Where `decide` ends with 0 the first line of the source is a document whose policies are accepted.
    ensures decided { asked_for (map string_bytes words.now.items) ≡ Some Command.Decide
        → result ≡ Status.Done → Decides (I.state source).left }

    // The same where a document is named: it is all that its own source had left.
    ensures decided_by { asked_for (map string_bytes words.now.items) ≡ Some Command.DecideBy
        → result ≡ Status.Done → DecidesBy (option_map (λ s. D.state s) given) }
{
    match call_of(words) {
        Some((command, path)) => run_command(rt, command, path, start, source, given, sink),
        None => finish(sink, Status::Usage, USAGE),
    }
}
