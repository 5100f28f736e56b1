//! Laws of values.

ghost use Rattle.policy_values.specs.Readings.{ReadsGrammars};

/// The texts that are read as extension values are those of their grammars, and stand for the same values.
pub fn constructors_read_the_grammars()
    ensures { ReadsGrammars }
{}
