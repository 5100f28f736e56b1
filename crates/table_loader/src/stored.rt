//! The rows of a store in memory say the store.

ghost use Rattle.std.specs.Prelude.{◌≡◌, Some};
ghost use Rattle.table_loader.specs.Tables.{tables_of};
ghost use Rattle.table_loader.specs.State.{store_in_order};

use crate::entities_are_ordered;
use crate::table_laws::tables_of_stores_stand_for_them;
use entity_store::Entities;

/// A loader over the rows of the store says the store: it is in order.
pub fn store_rows_say(entities: &Entities)
    ensures { store_in_order (tables_of entities.now) ≡ Some entities.now }
{
    entities_are_ordered(entities);
    tables_of_stores_stand_for_them();
    // for the proof: the ids of a store ascend
    let _entities = entities.iter();
}
