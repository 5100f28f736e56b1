//! Laws of typing.

ghost use Rattle.typing_spec.specs.Conditions.{ConditionsAreSound};
ghost use Rattle.typing_spec.specs.Known.{WhatIsKnownDecides};
ghost use Rattle.typing_spec.specs.Operands.{TestsAreSubtyping, TypedIsInhabited};
ghost use Rattle.typing_spec.specs.Sound.{TypingIsSound, FalseIsNeverTrue, TypedHasItsType};

/// Where an expression has a type, it evaluates to a member of the type, or ends with an allowed error.
pub fn typing_is_sound()
    ensures { TypingIsSound }
{}

/// What is typed False is never true.
pub fn false_is_never_true()
    ensures { FalseIsNeverTrue }
{}

/// A typed expression has its type at the top, at the place of the expression.
pub fn typed_has_its_type()
    ensures { TypedHasItsType }
{}

/// What an operand has to be is what permissive subtyping asks.
pub fn tests_are_subtyping()
    ensures { TestsAreSubtyping }
{}

/// No expression has a type without values.
pub fn typed_is_inhabited()
    ensures { TypedIsInhabited }
{}

/// A condition that has a boolean type is a boolean, or ends with an allowed error.
pub fn conditions_are_sound()
    ensures { ConditionsAreSound }
{}

/// The order of capabilities, and how often each is listed, do not matter: the same typing follows from all
/// that know the same.
pub fn what_is_known_decides()
    ensures { WhatIsKnownDecides }
{}
