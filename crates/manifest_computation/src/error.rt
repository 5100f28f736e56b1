//! Why there is no manifest.

use policy_validate::ValidationResult;
use std::alloc::AllocError;
use thiserror::Error;

/// Why there is no manifest of policies.
#[derive(Debug, Drop, Error)]
pub enum EntityManifestError {
    /// The policies are not accepted: what was found.
    #[error("a validation error occurred")]
    Validation(ValidationResult),
    /// There was no memory for it.
    #[error("out of memory")]
    OutOfMemory,
}

impl From<AllocError> for EntityManifestError {
    ghost use Rattle.std.specs.Prelude.{◌≡◌};
    ghost use Rattle.manifest_computation.specs.declared.error.EntityManifestError.TheVariants.{OutOfMemory};

    ghost from_gives = { λ _ e. e ≡ OutOfMemory };

    fn from(_error: AllocError) -> EntityManifestError {
        EntityManifestError::OutOfMemory
    }
}
