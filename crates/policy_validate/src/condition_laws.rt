//! What checks leave of accepted policies.

ghost use Rattle.policy_validate.specs.ConditionLaws.{EachFoundIsTyped, FoundAreTyped};

use link_spec::laws::links_are_written_out;
use typecheck_rules::laws::check_is_exact;

/// Of accepted policies the conditions that checks leave in an environment are those that typing gives, where
/// each has a type there.
pub fn found_are_typed()
    ensures { FoundAreTyped }
{
    check_is_exact();
    links_are_written_out();
}

/// So is the condition that a check leaves of one of them.
pub fn each_found_is_typed()
    ensures { EachFoundIsTyped }
{
    check_is_exact();
    links_are_written_out();
}
