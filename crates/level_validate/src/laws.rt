//! Laws of the errors on levels.

ghost use Rattle.level_validate.specs.Errors.{LevelErrorsAreExact};

use level_spec::laws::level_faults_are_exact;

/// A policy has no error exactly where each of its conditions passes at the level; each error says of a
/// dereference.
pub fn level_errors_are_exact()
    ensures { LevelErrorsAreExact }
{
    level_faults_are_exact();
}
