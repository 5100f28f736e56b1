//! Laws of the relations between types.

ghost use Rattle.type_relations.specs.Laws.{SubtypeIsReflexive, SubtypeIsTransitive, JoinIsAbove, JoinIsGreater, PermissiveJoinIsGreater, MemberOfSubtype};

/// Each type is a subtype of itself.
pub fn subtype_is_reflexive()
    ensures { SubtypeIsReflexive }
{}

/// A subtype of a subtype is a subtype.
pub fn subtype_is_transitive()
    ensures { SubtypeIsTransitive }
{}

/// Where two types have a join, both are subtypes of it.
pub fn join_is_above()
    ensures { JoinIsAbove }
{}

/// Where one type is strictly below the other, the strict join is the greater.
pub fn join_is_greater()
    ensures { JoinIsGreater }
{}

/// Where names and attributes ascend and one type is below the other, the permissive join is the greater.
pub fn permissive_join_is_greater()
    ensures { PermissiveJoinIsGreater }
{}

/// What a type has each type strictly above it has.
pub fn member_of_subtype()
    ensures { MemberOfSubtype }
{}
