//! What a JSON value says, and what every reader of JSON needs: names and ids of entities, the members of
//! objects, lists.
#![tactic(auto)]

mod json;
pub mod laws;
mod lists;
mod members;
mod names;

pub use json::parse_json;
pub use lists::{with_field, with_item};
pub use members::{has_only, list_items, lone_member, pair};
pub use names::{read_name, read_names, read_type_name, read_uid, read_uids};
