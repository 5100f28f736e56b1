//! What the answers of commands stand on.

ghost use Rattle.policy_gate.specs.Laws.{Laws};

use conformance::laws::{request_rules_are_exact, store_rules_are_exact};
use manifest_computation::slice_laws::{outcomes_are_allowed, slices_are_enough};
use policy_review::laws::{impossible_is_never_true, least_levels_are_least, never_is_never_true};
use policy_validate::laws::{
    accepted_levels_are_sound, no_errors_where_accepted, no_errors_where_accepted_at,
};
use principal_listing::laws::candidates_keep_rules;

/// The laws on policies, requests, stores, slices, reviews and listings.
pub(crate) fn laws()
    ensures { Laws }
{
    no_errors_where_accepted();
    no_errors_where_accepted_at();
    request_rules_are_exact();
    store_rules_are_exact();
    accepted_levels_are_sound();
    slices_are_enough();
    outcomes_are_allowed();
    impossible_is_never_true();
    never_is_never_true();
    least_levels_are_least();
    candidates_keep_rules();
}
