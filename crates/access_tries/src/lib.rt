//! Tries of access paths, as tables of nodes.
#![tactic(auto)]

mod edge;
pub mod laws;
mod least;
mod order;
mod same;
mod table;
mod tries;
mod views;

pub use edge::{AccessPath, Edge, EntityRoot, Step};
pub use least::{all_of, least_trie};
pub use order::compare;
pub use table::{Link, Node, links_of, mark_of};
pub use tries::{AccessTrie, RootAccessTrie};
pub use views::{Children, RootTrieRef, Roots, TrieRef};
