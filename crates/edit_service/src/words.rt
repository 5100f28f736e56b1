//! The words of a call.
ghost use Rattle.std.specs.Prelude.{◌≡◌, map, string_bytes};
ghost use Rattle.edit_service.specs.Words.{asked_for, command_of, graded_command_of};

use policy_risks::Assumed;

/// What is asked of policies.
#[derive(Clone, Copy, Debug, PartialEq, Eq)]
pub enum Command {
    /// What an edit changes in each environment.
    Compare,
    /// Which forbids never end with an error, on stores of which this is assumed.
    FailOpen(Assumed),
}

/// The command that a word is, if it is one.
pub fn command_of(word: &str) -> Option<Command>
    ensures { result ≡ command_of word.now }
{
    match word {
        "compare" => Some(Command::Compare),
        "fail-open" => Some(Command::FailOpen(Assumed::Nothing)),
        _ => None,
    }
}

// The command that a word is with a second one.
fn graded_command_of(word: &str, grade: &str) -> Option<Command>
    ensures { result ≡ graded_command_of word.now grade.now }
{
    match word {
        "fail-open" => match grade {
            "stored" => Some(Command::FailOpen(Assumed::PrincipalAndResource)),
            _ => None,
        },
        _ => None,
    }
}

/// The command that the words ask for.
pub(crate) fn command_in(words: &Vec<String>) -> Option<Command>
    ensures { result ≡ asked_for (map string_bytes words.now.items) }
{
    match words.as_slice() {
        [word] => command_of(word.as_str()),
        [word, grade] => graded_command_of(word.as_str(), grade.as_str()),
        [] => None,
        [_, _, _, ..] => None,
    }
}
