//! Laws of tables and stores.

ghost use Rattle.table_loader.specs.TableLaws.{StoresOfTablesAreInOrder, TablesOfStoresStandForThem};

/// The store of tables in order is in order, and has an entity exactly for each id in the table of
/// entities.
pub fn stores_of_tables_are_in_order()
    ensures { StoresOfTablesAreInOrder }
{}

/// The tables that a store is written into stand for that store, and are in order where its entities
/// are.
pub fn tables_of_stores_stand_for_them()
    ensures { TablesOfStoresStandForThem }
{}
