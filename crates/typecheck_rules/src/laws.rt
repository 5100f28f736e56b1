//! What holds of the walk.

ghost use Rattle.typecheck_rules.specs.Laws.{WalkIsExact, FailureIsReported, TypedHasNoFaults};
ghost use Rattle.typecheck_rules.specs.Truth.{FindingsAreTrue};
ghost use Rattle.typecheck_rules.specs.Check.{CheckIsExact, RefusalIsReported};

/// The walk gives the typing exactly where there is one, and says each fault.
pub fn walk_is_exact()
    ensures { WalkIsExact }
{}

/// Where all names are known, an expression without a type has a finding.
pub fn failure_is_reported()
    ensures { FailureIsReported }
{}

/// Where all names are known, a check that fails has a finding.
pub fn refusal_is_reported()
    ensures { RefusalIsReported }
{}

/// What each finding says is so, and it stands at a part of the expression.
pub fn findings_are_true()
    ensures { FindingsAreTrue }
{}

/// A condition is checked as it is typed, unless it is too deep.
pub fn check_is_exact()
    ensures { CheckIsExact }
{}

/// An expression that has a type has no faults.
pub fn typed_has_no_faults()
    ensures { TypedHasNoFaults }
{}
