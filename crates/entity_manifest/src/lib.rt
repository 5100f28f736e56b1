//! Entity manifests: what policies read, computed, written and read as JSON, and entities loaded and sliced
//! by them. Passes on the calls of the crates behind it, and has the laws that tie computed manifests to
//! loading.
#![tactic(auto)]

mod answer;
pub mod batch_laws;
mod checked;
mod decisions;
pub mod laws;
mod lines;
mod loading;
pub mod loading_laws;
mod on_store;
mod rows;

pub use access_tries::{
    AccessPath, AccessTrie, EntityRoot, RootAccessTrie, RootTrieRef, Step, TrieRef,
};
pub use answer::BatchAnswer;
pub use checked::checked_manifest;
pub use decisions::decide_batch;
pub use entity_loader::{
    AncestorsRequest, EntityAnswer, EntityLoader, EntityRequest, EntitySlicer, LoadError,
    cut_along, cut_entity, merge_entities, merge_values,
};
pub use entity_loading::{
    EntitySliceError, IncompatibleEntityManifestError, PartialRequestError, Steps,
    WrongNumberOfEntitiesError, load_entities, load_trie, restricted_store, slice_entities,
};
pub use lines::{line_on, refused_line};
pub use loading::{load_for_request, load_slice};
pub use manifest_computation::{
    EntityManifestAnalysisResult, EntityManifestError, SliceForRequestError, check_request,
    compute_entity_manifest, slice_for_request,
};
pub use manifest_core::{
    EntityManifest, EntityManifestFromJsonError, MismatchedEntityManifestError,
    MismatchedMissingEntityError, MismatchedNotStrictSchemaError,
};
pub use on_store::decide_batch_on_store;
pub use rows::decide_batch_on_rows;
pub use table_loader::RowLoader;
