//! JSON texts as trees that borrow them, and what is read of their parts: a whole text is held as a tree,
//! which takes little room, and its parts are looked up there, read as names, ids and values, or taken out and
//! made JSON values in their turn.
#![tactic(auto)]

mod ids;
mod leaves;
mod lookups;
mod members;
mod numbers;
mod ranges;
mod readings;
mod trees;
mod values;

pub use ids::{read_name, read_uid, read_uid_like, read_uid_set, read_uids};
pub use json::{Scratch, Value as Tree};
pub use leaves::{as_i64, as_str, get_str, is_null};
pub use lookups::{get, has_only, have_only, items_of, take, take_items};
pub use members::{lone_member, member_places};
pub use readings::{read_fields, read_value};
pub use trees::read_tree;
pub use values::value_of;
