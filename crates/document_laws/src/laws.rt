//! Laws of what documents are read as.

ghost use Rattle.document_laws.specs.Laws.{ReadingsAreUnique};

/// A JSON value is at most one document of a shape, and where it is none it has one place of its first fault.
pub fn readings_are_unique()
    ensures { ReadingsAreUnique }
{}
