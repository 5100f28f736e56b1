//! Documents in JSON: the schema, the policies or the edits to them, the entities and the requests that they
//! declare, and where the first fault is.
#![tactic(auto)]

mod body;
mod document;
mod edit;
mod edits;
mod entities;
pub mod laws;
mod link;
mod parts;
mod place;
mod policies;
mod policy;
mod request;
mod requests;
mod schema;
mod scope;
mod shape;
mod store;

pub use document::{Document, read_document, read_document_as};
pub use edit::Edit;
pub use edits::Edits;
pub use entities::read_entities;
pub use json_schema::read_declarations;
pub use json_trees::{Scratch, Tree, read_tree, read_uid, read_value};
pub use json_values::parse_json;
pub use link::TemplateLink;
pub use place::{DocumentFault, Place};
pub use policies::{read_policies, slot_pairs};
pub use policy::{PolicyParts, PolicyRead, read_entry};
pub use request::read_request;
pub use requests::Requests;
pub use schema::read_schema;
pub use shape::Shape;
pub use store::read_store;
