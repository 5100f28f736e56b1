//! The words of a call.
ghost use Rattle.std.specs.Prelude.{◌≡◌, IfSome, map, string_bytes, option_map};
ghost use Rattle.directory_service.specs.Words.{asked_for, command_by, command_of};

/// What is done with a file.
#[derive(Clone, Copy, Debug, PartialEq, Eq)]
pub enum Command {
    /// Write the document's entities into it.
    Import,
    /// Decide by its rows on the requests that follow the policies.
    Decide,
    /// Decide by its rows on the requests, by the policies of a document.
    DecideBy,
    /// Say whether all its rows conform.
    Check,
}

/// The command that a word is, if it is one.
pub fn command_of(word: &str) -> Option<Command>
    ensures { result ≡ command_of word.now }
{
    match word {
        "import" => Some(Command::Import),
        "decide" => Some(Command::Decide),
        "check" => Some(Command::Check),
        _ => None,
    }
}

// The command that a word is before the names of a file and of a document.
fn command_by(word: &str) -> Option<Command>
    ensures { result ≡ command_by word.now }
{
    match word {
        "decide" => Some(Command::DecideBy),
        _ => None,
    }
}

// The command with the path of its file.
fn call(command: Option<Command>, path: &str) -> Option<(Command, &str)>
    ensures { option_map (λ call. call.0) result ≡ command }
{
    match command {
        Some(command) => Some((command, path)),
        None => None,
    }
}

/// The command that the words ask for, with the path of its file.
pub(crate) fn call_of(words: &Vec<String>) -> Option<(Command, &str)>
    ensures { option_map (λ call. call.0) result ≡ asked_for (map string_bytes words.now.items) }
{
    match words.as_slice() {
        [word, path] => call(command_of(word.as_str()), path.as_str()),
        [word, path, _] => call(command_by(word.as_str()), path.as_str()),
        [] => None,
        [_] => None,
        [_, _, _, _, ..] => None,
    }
}
