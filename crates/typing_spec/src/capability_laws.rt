//! Laws of capabilities.

ghost use Rattle.typing_spec.specs.Holds.{AlikeHoldAlike, KnownHold, EqualKnowTheSame};

/// Capabilities that are equal hold alike.
pub fn equal_capabilities_hold_alike()
    ensures { AlikeHoldAlike }
{}

/// All capabilities of a set hold exactly where each that is known to it holds.
pub fn known_capabilities_hold()
    ensures { KnownHold }
{}

/// Sets are equal exactly where they know the same.
pub fn equal_sets_know_the_same()
    ensures { EqualKnowTheSame }
{}
