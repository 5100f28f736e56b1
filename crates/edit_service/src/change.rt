//! What was found of an edit in an environment.
ghost use Rattle.std.specs.Prelude.{◌≡◌};
ghost use Rattle.edit_service.specs.Changes.{change_of};

use policy_compare::Comparison;

/// What was found of an edit in an environment of the schema.
#[derive(Clone, Copy, Debug, PartialEq, Eq)]
pub enum Change {
    /// The decisions are the same.
    Same,
    /// The edit gives nothing; it may take something.
    UnknownNarrower,
    /// It takes nothing; it may give something.
    UnknownWider,
    /// It may do both.
    UnknownOther,
}

impl Change {
    ghost use Rattle.edit_service.specs.Texts.{is_same, is_unknown, change_word};

    /// Whether the decisions are the same.
    pub(crate) fn is_same(self) -> bool
        ensures { result ≡ is_same self }
    {
        match self {
            Change::Same => true,
            Change::UnknownNarrower | Change::UnknownWider | Change::UnknownOther => false,
        }
    }

    /// Whether something else may be.
    pub(crate) fn is_unknown(self) -> bool
        ensures { result ≡ is_unknown self }
    {
        !self.is_same()
    }

    /// What stands for it.
    pub(crate) fn word(self) -> &'static str
        ensures { result.now ≡ change_word self }
    {
        match self {
            Change::Same => "same",
            Change::UnknownNarrower => "unknown narrower",
            Change::UnknownWider => "unknown wider",
            Change::UnknownOther => "unknown other",
        }
    }
}

/// What was found, by whether an edit gives nothing, and whether it takes nothing.
pub(crate) fn change_of(found: Comparison) -> Change
    ensures { result ≡ change_of found.at_most found.at_least }
{
    match (found.at_most, found.at_least) {
        (true, true) => Change::Same,
        (true, false) => Change::UnknownNarrower,
        (false, true) => Change::UnknownWider,
        (false, false) => Change::UnknownOther,
    }
}
