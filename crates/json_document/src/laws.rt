//! Laws of reading.

ghost use Rattle.json_document.specs.Laws.{OneReading};

/// A JSON value that is a document of a shape is no other one, and has no fault.
pub fn one_reading()
    ensures { OneReading }
{}
