//! Laws of order.

ghost use Rattle.table_loader.specs.OrderLaws.{FieldsAreTheirLookups};

/// Fields of ascending keys are equal where look-ups find the same in both.
pub fn fields_are_their_lookups()
    ensures { FieldsAreTheirLookups }
{}
