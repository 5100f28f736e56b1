//! Loading from rows of tables: a loader over rows, and what rows give for an entity is an honest answer.
#![tactic(auto)]

mod ancestors;
mod asking;
mod entities;
pub mod laws;
mod loader;
mod lookups;
mod memory;
mod order;
pub mod order_laws;
pub mod parent_laws;
mod rows;
mod store;
mod stored;
pub mod table_laws;

pub use loader::RowLoader;
pub use memory::MemoryRows;
pub use order::{
    entities_are_ordered, entity_is_ordered, fields_are_ordered, request_is_ordered,
    value_is_ordered,
};
pub use rows::{Rows, RowsError};
pub use store::StoreRows;
pub use stored::store_rows_say;
