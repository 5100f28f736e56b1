//! Laws of what is read.

ghost use Rattle.json_schema.specs.Laws.{NoneIsRead};

/// No document has an enumerated type that is a member of a type, descendants that are not transitive, a type
/// inside that no schema has, or an unknown extension type.
pub fn no_fault_of_values()
    ensures { NoneIsRead }
{}
