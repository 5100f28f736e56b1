//! Whether a database has the table of entities.

ghost use Rattle.std.specs.Prelude.{◌≡◌, [], ◌∷◌, Some, IsTrue};
ghost use Rattle.sqlite.specs.Held.{state};
ghost use Rattle.sqlite.specs.declared.types.Value.TheVariants.{Null};
ghost use Rattle.entity_files.specs.Table.{column_of, entity, entity_index, entity_schema};

use sqlite::{Alter, Connection};
use sqlite_items::Items;
use sqlite_schema::schema::{Column, Index, Kind, Schema, Table};
use sqlite_value::keys::{Collation, Order};
use sqlite_value::value::{Bytes, Value};

fn is_text(bytes: &Bytes, text: &str) -> bool
    ensures { IsTrue result → bytes.now ≡ text.now }
{
    bytes.as_slice() == text.as_bytes()
}

fn is_null(value: &Value) -> bool
    ensures { IsTrue result → value.now ≡ Null }
{
    match value {
        Value::Null => true,
        _ => false,
    }
}

fn is_column(column: &Column, name: &str, kind: Kind, not_null: bool) -> bool
    ensures { IsTrue result → column.now ≡ column_of name.now kind not_null }
{
    is_text(&column.name, name)
        && column.kind == kind
        && column.is_strict
        && column.not_null == not_null
        && is_null(&column.default)
        && column.collation == Collation::Binary
}

fn are_columns(columns: &Items<Column>) -> bool
    ensures { IsTrue result → columns.now ≡ entity.columns }
{
    let columns = columns.as_slice();
    columns.len() == 4
        && is_column(&columns[0], "number", Kind::Integer, false)
        && is_column(&columns[1], "type", Kind::Text, true)
        && is_column(&columns[2], "eid", Kind::Text, true)
        && is_column(&columns[3], "json", Kind::Text, true)
}

fn is_pair(places: &Items<usize>) -> bool
    ensures { IsTrue result → places.now ≡ 2 ∷ 3 ∷ [] }
{
    let places = places.as_slice();
    places.len() == 2 && places[0] == 2 && places[1] == 3
}

fn are_uniques(uniques: &Items<Items<usize>>) -> bool
    ensures { IsTrue result → uniques.now ≡ entity.uniques }
{
    let uniques = uniques.as_slice();
    uniques.len() == 1 && is_pair(&uniques[0])
}

fn are_orders(orders: &Items<Order>) -> bool
    ensures { IsTrue result → orders.now ≡ entity.orders }
{
    let orders = orders.as_slice();
    orders.len() == 1 && orders[0].digits == 0
}

fn is_primary(places: &Items<usize>) -> bool
    ensures { IsTrue result → places.now ≡ entity.primary }
{
    let places = places.as_slice();
    places.len() == 1 && places[0] == 0
}

fn has_keys(table: &Table) -> bool
    ensures primary { IsTrue result → table.now.primary ≡ entity.primary }
    ensures uniques { IsTrue result → table.now.uniques ≡ entity.uniques }
    ensures orders { IsTrue result → table.now.orders ≡ entity.orders }
    ensures key { IsTrue result → table.now.key ≡ Some 0 }
{
    is_primary(&table.primary)
        && are_uniques(&table.uniques)
        && are_orders(&table.orders)
        && table.key == Some(0)
}

fn has_no_rules(table: &Table) -> bool
    ensures checks { IsTrue result → table.now.checks ≡ entity.checks }
    ensures references { IsTrue result → table.now.references ≡ entity.references }
    ensures computed { IsTrue result → table.now.computed ≡ entity.computed }
    ensures stamps { IsTrue result → table.now.stamps ≡ entity.stamps }
{
    table.checks.roots.is_empty()
        && table.references.is_empty()
        && table.computed.is_empty()
        && table.stamps.places.is_empty()
        && table.stamps.terms.roots.is_empty()
        && table.stamps.formats.is_empty()
}

fn is_entity_table(table: &Table) -> bool
    ensures { IsTrue result → table.now ≡ entity }
{
    is_text(&table.name, "entity")
        && table.tree == 0
        && !table.is_counted
        && are_columns(&table.columns)
        && has_keys(table)
        && has_no_rules(table)
}

fn are_tables(tables: &Items<Table>) -> bool
    ensures { IsTrue result → tables.now ≡ entity_schema.tables }
{
    let tables = tables.as_slice();
    tables.len() == 1 && is_entity_table(&tables[0])
}

// Whether it is the index of the pairs of type and eid.
fn is_entity_index(index: &Index) -> bool
    ensures { IsTrue result → index.now ≡ entity_index }
{
    is_text(&index.name, "sqlite_autoindex_entity_1")
        && index.tree == 1
        && index.table == 0
        && index.is_unique
        && index.order.digits == 0
        && is_pair(&index.columns)
}

fn are_indexes(indexes: &Items<Index>) -> bool
    ensures { IsTrue result → indexes.now ≡ entity_schema.indexes }
{
    let indexes = indexes.as_slice();
    indexes.len() == 1 && is_entity_index(&indexes[0])
}

fn is_entity_schema(schema: &Schema) -> bool
    ensures { IsTrue result → schema.now ≡ entity_schema }
{
    are_tables(&schema.tables) && are_indexes(&schema.indexes) && schema.views.is_empty()
}

/// Whether the database has the table of entities, and nothing else.
pub fn has_entity_table<S: Alter>(conn: &Connection<S>) -> bool
    ensures { IsTrue result → (state S.Store conn.now).now.schema ≡ entity_schema }
{
    is_entity_schema(conn.schema())
}
