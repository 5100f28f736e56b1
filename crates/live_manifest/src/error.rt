//! Why an edit is refused.

use policy_scope::ValidationResult;
use policy_set::{PolicySetError, RemovalError};
use std::alloc::AllocError;
use thiserror::Error;

/// Why an entry is not added.
#[derive(Debug, Drop, Error)]
pub enum LiveManifestError {
    /// The set does not take it; never for lack of memory.
    #[error(transparent)]
    PolicySet(PolicySetError),
    /// There are errors in it: what was found of it.
    #[error("a validation error occurred")]
    Validation(ValidationResult),
    /// There was no memory for it.
    #[error("out of memory")]
    OutOfMemory,
}

impl From<AllocError> for LiveManifestError {
    ghost use Rattle.std.specs.Prelude.{◌≡◌};
    ghost use Rattle.live_manifest.specs.declared.error.LiveManifestError.TheVariants.{OutOfMemory};

    ghost from_gives = { λ _ e. e ≡ OutOfMemory };

    fn from(_error: AllocError) -> LiveManifestError {
        LiveManifestError::OutOfMemory
    }
}

/// Why an entry is not removed.
#[derive(Clone, Copy, Debug, Error)]
pub enum LiveRemovalError<'a> {
    /// There is no such entry, or it is in use.
    #[error(transparent)]
    PolicySet(RemovalError<'a>),
    /// There was no memory for the manifest of what is left.
    #[error("out of memory")]
    OutOfMemory,
}

impl<'a> From<AllocError> for LiveRemovalError<'a> {
    ghost use Rattle.std.specs.Prelude.{◌≡◌};
    ghost use Rattle.live_manifest.specs.declared.error.LiveRemovalError.TheVariants.{OutOfMemory};

    ghost from_gives = { λ _ e. e ≡ OutOfMemory };

    fn from(_error: AllocError) -> LiveRemovalError<'a> {
        LiveRemovalError::OutOfMemory
    }
}
