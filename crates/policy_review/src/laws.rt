//! Laws of reviews.

ghost use Rattle.policy_review.specs.Laws.{NeverIsNeverTrue, ImpossibleIsNeverTrue, LeastLevelsAreLeast};

use link_spec::laws::statics_are_unlinked;
use manifest_computation::environment_laws::{environments_are_of_types, environments_are_there};
use policy_validate::laws::accepted_are_sound;
use typecheck_rules::laws::check_is_exact;

/// A policy of which a row says never is true on no request of the row's type and on no store, where both
/// conform.
pub fn never_is_never_true()
    ensures { NeverIsNeverTrue }
{
    accepted_are_sound();
    environments_are_of_types();
}

/// A policy that is impossible as it is written, of which `check` warns, is true on no request and on no store,
/// where both conform.
pub fn impossible_is_never_true()
    ensures { ImpossibleIsNeverTrue }
{
    never_is_never_true();
    statics_are_unlinked();
    check_is_exact();
    environments_are_there();
}

/// A template or static policy passes at its least level, and at none below; without one it passes nowhere.
pub fn least_levels_are_least()
    ensures { LeastLevelsAreLeast }
{}
