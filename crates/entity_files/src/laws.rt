//! The store that is made of the entities of rows.

ghost use Rattle.entity_files.specs.Made.{ComputedIsMade};
ghost use Rattle.entity_files.specs.Order.{StoresOfRowsAreInOrder};

/// Just the store that is made of entities with their parents is computed.
pub fn computed_is_made()
    ensures { ComputedIsMade }
{}

/// A store that is made of rows is in order, whatever wrote them.
pub fn stores_of_rows_are_in_order()
    ensures { StoresOfRowsAreInOrder }
{}
