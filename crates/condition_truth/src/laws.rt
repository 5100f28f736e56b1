//! Laws of conditions as propositions.

ghost use Rattle.condition_truth.specs.Outlined.{OutlineDecides};
ghost use Rattle.condition_truth.specs.Truth.{TruthIsPropositional};

use typing_spec::laws::{typed_has_its_type, typing_is_sound};

/// A condition is true, is false and has a value exactly where its propositions hold.
pub fn truth_is_propositional()
    ensures { TruthIsPropositional }
{
    typing_is_sound();
    typed_has_its_type();
}

/// A condition is true and is false exactly where its outline says so.
pub fn outline_decides()
    ensures { OutlineDecides }
{
    typing_is_sound();
    typed_has_its_type();
}
