//! Databases and files with the table of entities: opened and made, filled, and read whole.
#![tactic(auto)]

mod fault;
mod fetched;
mod files;
mod find;
pub mod laws;
mod loader;
mod opening;
mod reading;
mod row_text;
mod rows;
mod schema;
mod store;
mod writing;

pub use fault::FileError;
pub use fetched::Fetched;
pub use files::{import_into_file, make, open, read_file};
pub use find::{FindError, find_entity};
pub use loader::FetchedLoader;
pub use opening::{blank_or_made, is_ready, over};
pub use rows::{all_entities, check_rows};
pub use schema::has_entity_table;
pub use store::check_store;
pub use writing::{import, write_entities};
