//! Schemas in JSON.
#![tactic(auto)]

pub mod laws;
mod schema;
mod types;

pub use schema::read_declarations;
pub use types::{read_attributes, read_type};
