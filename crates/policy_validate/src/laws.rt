//! What holds of the sets of policies that are accepted.

ghost use Rattle.policy_validate.specs.Entries.{AcceptanceIsByEntry, EntriesAreAccepted, FindingsFollowEntries};
ghost use Rattle.policy_validate.specs.Laws.{NoErrorsWhereAccepted, AcceptedAreTyped, AcceptedAreSound};
ghost use Rattle.policy_validate.specs.Levels.{LevelErrorsOfAreExact, NoErrorsWhereAcceptedAt, AcceptedLevelsAreSound};

use level_validate::laws::level_errors_are_exact;
use level_validate::{link_levels_are_sound, static_levels_are_sound};
use link_spec::laws::{links_are_typed, refusals_are_reported, statics_are_typed, typed_are_sound};
use typecheck_rules::laws::check_is_exact;

/// No error is found exactly where the set is accepted.
pub fn no_errors_where_accepted()
    ensures { NoErrorsWhereAccepted }
{
    check_is_exact();
    refusals_are_reported();
}

/// An entry of which no error is found is accepted by itself.
pub fn entries_are_accepted()
    ensures { EntriesAreAccepted }
{
    check_is_exact();
    refusals_are_reported();
}

/// A set is accepted with one more entry that is accepted by itself, and without any of its entries.
pub fn acceptance_is_by_entry()
    ensures { AcceptanceIsByEntry }
{}

/// The findings on a set are those of its entries: of all that is written, and then of all links, in the
/// order of the ids.
pub fn findings_are_by_entry()
    ensures { FindingsFollowEntries }
{}

/// In an accepted set the condition of each policy has a type in every environment of the schema.
pub fn accepted_are_typed()
    ensures { AcceptedAreTyped }
{
    links_are_typed();
    statics_are_typed();
}

/// In an accepted set the condition of each policy keeps what typing promises, for each request and store
/// that conform.
pub fn accepted_are_sound()
    ensures { AcceptedAreSound }
{
    accepted_are_typed();
    typed_are_sound();
}

/// Where there are no other errors, there is none on levels exactly where a template or a static policy
/// passes in each of its environments; each says of a dereference.
pub fn level_errors_of_are_exact()
    ensures { LevelErrorsOfAreExact }
{
    check_is_exact();
    refusals_are_reported();
    level_errors_are_exact();
}

/// No error is found exactly where the set is accepted at the level.
pub fn no_errors_where_accepted_at()
    ensures { NoErrorsWhereAcceptedAt }
{
    no_errors_where_accepted();
    level_errors_of_are_exact();
}

/// Levels are sound: in a set that is accepted at a level each policy has, on the store cut at that level,
/// the outcome that it has on the whole one.
pub fn accepted_levels_are_sound()
    ensures { AcceptedLevelsAreSound }
{
    static_levels_are_sound();
    link_levels_are_sound();
}
