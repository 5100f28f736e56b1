//! What typed conditions read of an entity store, and that it is enough.
#![tactic(auto)]

mod conditions;
mod coverage;

pub use conditions::{
    conditions_are_covered, other_writes_are_unread, policies_are_covered, reached_parts_conform,
    stores_conform_where_reached,
};
pub use coverage::reads_cover;
