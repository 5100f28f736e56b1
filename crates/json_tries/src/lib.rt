//! Tries of access paths as JSON.
#![tactic(auto)]

mod keys;
pub mod laws;
mod places;
mod read;
mod write;

pub use places::{Place, trie_of_places};
pub use read::read_trie;
pub use write::write_root_trie;
