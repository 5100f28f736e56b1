//! Laws of the equality of findings.

ghost use Rattle.finding_laws.specs.Laws.{ErrorEqualityIsExact, WarningEqualityIsExact};

/// Errors that are equal are the same error, and only these are.
pub fn error_equality_is_exact()
    ensures { ErrorEqualityIsExact }
{}

/// Warnings that are equal are the same warning, and only these are.
pub fn warning_equality_is_exact()
    ensures { WarningEqualityIsExact }
{}
