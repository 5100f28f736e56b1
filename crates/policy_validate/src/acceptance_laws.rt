//! Which sets of policies are accepted.

ghost use Rattle.policy_validate.specs.AcceptanceLaws.{AcceptedByRules};

use crate::condition_laws::found_are_typed;
use crate::laws::{accepted_are_typed, no_errors_where_accepted};
use link_spec::laws::statics_are_unlinked;
use typecheck_rules::laws::check_is_exact;

/// A set of policies is accepted exactly where it keeps the rules, and checks leave the condition of each
/// policy in every environment of the schema.
pub fn accepted_by_rules()
    ensures { AcceptedByRules }
{
    check_is_exact();
    statics_are_unlinked();
    no_errors_where_accepted();
    accepted_are_typed();
    found_are_typed();
}
