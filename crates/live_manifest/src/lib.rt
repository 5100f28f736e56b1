//! A set of policies under edits, kept accepted and beside its manifest.
#![tactic(auto)]

mod accepted;
mod building;
mod entry;
mod error;
pub mod laws;
mod live;
mod rest;
mod uniting;

pub use accepted::AcceptedPolicies;
pub use error::{LiveManifestError, LiveRemovalError};
pub use live::LiveManifest;
pub use plain_lemmas::Steps;
