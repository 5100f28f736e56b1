//! The manifest of policies: what they read of a store, for each type of requests; and the slice of a store
//! for a request: every check, then what accepted policies read.
#![tactic(auto)]

mod checks;
mod compute;
pub mod environment_laws;
mod error;
mod gathering;
pub mod laws;
mod request;
mod slice;
mod slice_error;
pub mod slice_laws;
mod tries;

pub use checks::check_request;
pub use compute::compute_entity_manifest;
pub use error::EntityManifestError;
pub use path_analysis::EntityManifestAnalysisResult;
pub use request::slice_for_request;
pub use slice::restricted_to_reads;
pub use slice_error::SliceForRequestError;
pub use tries::add_trie_of;
