//! What types say of truth values.

ghost use Rattle.condition_compare.specs.Sorts.{IsSort};

use schema_types::{Primitive, Type, TypeKind};

/// What the type of a part says of its truth.
#[derive(Clone, Copy)]
pub(crate) enum Sort {
    /// It is true, where it has a value.
    True,
    /// It is false, where it has a value.
    False,
    /// It is a boolean.
    Boolean,
    /// It is no boolean.
    Other,
}

/// What the type that is noted says.
pub(crate) fn sort_of(note: &Option<Type>) -> Sort
    ensures { IsSort note.now result }
{
    match note {
        Some(t) => match t.kind() {
            TypeKind::True => Sort::True,
            TypeKind::False => Sort::False,
            TypeKind::Primitive {
                primitive_type: Primitive::Bool,
            } => Sort::Boolean,
            _ => Sort::Other,
        },
        None => Sort::Other,
    }
}
