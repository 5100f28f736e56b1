//! What typed conditions read of a store, path by path.
#![tactic(auto)]

mod below;
mod conditions;
mod found;
mod operators;
mod path_type;
mod result;
mod setting;
mod shape;
mod walk;

pub use conditions::conditions_trie;
pub use result::EntityManifestAnalysisResult;
