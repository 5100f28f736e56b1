//! Laws of evaluation.

ghost use Rattle.policy_core.specs.Laws.{ShapeDecides};
ghost use Rattle.policy_expressions.specs.Tree.{Mark};

/// Expressions of one shape have one outcome: notes and places do not matter.
pub fn shape_decides<T, U>()
    ensures { ShapeDecides (Mark T) (Mark U) }
{}
