//! Why nothing is loaded.

use entity_store::Entity;
use policy_values::{EntityUID, Value};
use std::alloc::AllocError;
use thiserror::Error;

/// An entry of the request is not known.
#[derive(Debug, Drop, Error)]
#[error("entity slicing requires a fully concrete request. Got a partial request")]
pub struct PartialRequestError {}

/// A path of the trie goes on below this value, or ancestors are asked for there, though it has none.
#[derive(Debug, Drop, Error)]
#[error("the entity manifest does not fit a value that it reaches")]
pub struct IncompatibleEntityManifestError {
    /// The value; of a record it may be only a part.
    pub value: Value,
}

/// The loader gave more or fewer entities than were asked for.
#[derive(Debug, Drop, Error)]
#[error("entity loader returned the wrong number of entities. Expected {expected} but got {got} entities")]
pub struct WrongNumberOfEntitiesError {
    /// How many ids were asked for.
    pub expected: usize,
    /// How many answers came.
    pub got: usize,
}

/// Why nothing is loaded.
#[derive(Debug, Drop, Error)]
pub enum EntitySliceError {
    /// An entry of the request is not known.
    #[error(transparent)]
    PartialRequest(PartialRequestError),
    /// The trie does not fit the values that it reaches.
    #[error(transparent)]
    IncompatibleEntityManifest(IncompatibleEntityManifestError),
    /// The loader gave more or fewer entities than were asked for.
    #[error(transparent)]
    WrongNumberOfEntities(WrongNumberOfEntitiesError),
    /// The loader gave ancestors of more or fewer entities than were asked for.
    #[error("expected ancestors of {expected} entities, got those of {got}")]
    WrongNumberOfAncestors {
        /// Of how many entities ancestors were asked for.
        expected: usize,
        /// How many lists came.
        got: usize,
    },
    /// The loader gave an entity with another id than the one that was asked for, or one that does not merge
    /// with what it had given before.
    #[error("the loader's answers for `{uid}` do not agree")]
    InconsistentLoader {
        /// The id that was asked for.
        uid: EntityUID,
        /// What is kept of this entity.
        kept: Option<Entity>,
        /// What came.
        got: Entity,
    },
    /// The loader failed.
    #[error("the loader failed")]
    LoaderFault,
    /// There is no memory left.
    #[error("out of memory")]
    OutOfMemory,
}

impl From<AllocError> for EntitySliceError {
    ghost use Rattle.std.specs.Prelude.{◌≡◌};
    ghost use Rattle.entity_loading.specs.declared.error.EntitySliceError.TheVariants.{OutOfMemory};

    ghost from_gives = { λ _ e. e ≡ OutOfMemory };

    fn from(_error: AllocError) -> EntitySliceError {
        EntitySliceError::OutOfMemory
    }
}
