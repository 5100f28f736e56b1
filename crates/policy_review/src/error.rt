//! Why there is no review.

use policy_scope::ValidationResult;
use std::alloc::AllocError;
use thiserror::Error;

/// Why there is no review of policies.
#[derive(Debug, Drop, Error)]
pub enum ReviewError {
    /// The policies are not accepted: what was found.
    #[error("a validation error occurred")]
    Validation(ValidationResult),
    /// There was no memory for it.
    #[error("out of memory")]
    OutOfMemory,
}

impl From<AllocError> for ReviewError {
    ghost use Rattle.std.specs.Prelude.{◌≡◌};
    ghost use Rattle.policy_review.specs.declared.error.ReviewError.TheVariants.{OutOfMemory};

    ghost from_gives = { λ _ e. e ≡ OutOfMemory };

    fn from(_error: AllocError) -> ReviewError {
        ReviewError::OutOfMemory
    }
}
