//! Loading the entities that a trie or a manifest reads, in rounds, and slices of entity stores by manifests.
#![tactic(auto)]

mod ancestors;
mod answers;
mod begin;
mod blocked;
mod blocking;
mod borrowed;
mod demand;
mod error;
mod follow;
mod keeping;
mod kept_ancestors;
pub mod laws;
mod load;
mod manifest;
mod names;
mod next;
mod numbers;
mod parts;
mod place;
mod reach;
mod restricted;
mod roots;
mod rounds;
mod slice;

pub use begin::{first_places, root_places};
pub use blocked::blocked_value;
pub use blocking::{blocked_in_context, blocked_in_entity};
pub use error::{
    EntitySliceError, IncompatibleEntityManifestError, PartialRequestError,
    WrongNumberOfEntitiesError,
};
pub use follow::{FollowError, follow_entity};
pub use load::load_trie;
pub use manifest::load_entities;
pub use next::next_places;
pub use place::{Place, ask};
pub use plain_lemmas::Steps;
pub use restricted::restricted_store;
pub use roots::named_ids;
pub use slice::slice_entities;
