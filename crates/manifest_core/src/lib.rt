//! Manifests: what is read of a store, for each type of requests.
#![tactic(auto)]

mod copies;
mod declared;
mod error;
mod faults;
pub mod laws;
mod listing;
mod manifest;
mod placed;
mod read;
mod types;
mod write;

pub use error::{
    EntityManifestFromJsonError, MismatchedEntityManifestError, MismatchedMissingEntityError,
    MismatchedNotStrictSchemaError,
};
pub use manifest::EntityManifest;
