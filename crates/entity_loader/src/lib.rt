//! What gives entities, what is asked of it, and what two answers for one entity say together.
#![tactic(auto)]

mod cut;
mod entities;
mod kept;
mod loader;
mod slicer;
mod values;

pub use cut::{cut_along, cut_entity};
pub use entities::merge_entities;
pub use kept::{KeepError, keep};
pub use loader::{AncestorsRequest, EntityAnswer, EntityLoader, EntityRequest, LoadError};
pub use slicer::EntitySlicer;
pub use values::merge_values;
