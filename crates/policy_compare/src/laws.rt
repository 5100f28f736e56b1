//! Laws of edits of policies.

ghost use Rattle.policy_compare.specs.Laws.{ComparisonHolds};

use policy_core::laws::shape_decides;

/// What is found of the conditions that only one of two sets has holds of their decisions.
pub fn comparison_holds()
    ensures { ComparisonHolds }
{
    shape_decides::<(), ()>();
}
