//! Why there is no manifest.

use policy_values::EntityUID;
use std::alloc::AllocError;
use thiserror::Error;

/// The schema does not declare an entity or an action.
#[derive(Debug, Drop, Error)]
#[error("entity manifest doesn't match schema. Schema is missing entity {entity}. Either you wrote an entity manifest by hand (not recommended) or you are using an out-of-date entity manifest with respect to the schema")]
pub struct MismatchedMissingEntityError {
    /// The id.
    pub entity: EntityUID,
}

/// The schema does not declare the type of the principal or of the resource.
#[derive(Debug, Drop, Error)]
#[error("entity manifests are only compatible with schemas that validate in strict mode. Tried to use an invalid schema with an entity manifest")]
pub struct MismatchedNotStrictSchemaError {}

/// Why a manifest does not fit a schema.
#[derive(Debug, Drop, Error)]
pub enum MismatchedEntityManifestError {
    /// A root is an id that is neither of a declared type nor a declared action, or it is the action or the
    /// context and the action is not declared.
    #[error(transparent)]
    MismatchedMissingEntity(MismatchedMissingEntityError),
    /// A root is the principal or the resource, and its type is not declared.
    #[error(transparent)]
    MismatchedNotStrictSchema(MismatchedNotStrictSchemaError),
    /// A field or tags are read of a value that has none, as of a string or of a set.
    #[error("a child stands below a type without fields")]
    ChildOfPrimitive,
}

/// Why no manifest is read, or none is typed.
#[derive(Debug, Drop, Error)]
pub enum EntityManifestFromJsonError {
    /// The text is no JSON, or the JSON is no manifest.
    #[error("the text is no entity manifest in JSON")]
    SerdeJsonParseError,
    /// The manifest does not fit the schema.
    #[error(transparent)]
    MismatchedEntityManifest(MismatchedEntityManifestError),
    /// Memory ran out.
    #[error("out of memory")]
    OutOfMemory,
}

impl From<AllocError> for EntityManifestFromJsonError {
    ghost use Rattle.std.specs.Prelude.{◌≡◌};
    ghost use Rattle.manifest_core.specs.declared.error.EntityManifestFromJsonError.TheVariants.{OutOfMemory};

    ghost from_gives = { λ e r. r ≡ OutOfMemory };

    fn from(_error: AllocError) -> EntityManifestFromJsonError {
        EntityManifestFromJsonError::OutOfMemory
    }
}
