//! Why there is no slice.

use conformance::{EntityDoesNotConform, RequestValidationError};
use policy_validate::ValidationResult;
use std::alloc::AllocError;
use thiserror::Error;

/// Why there is no slice for a request.
#[derive(Debug, Drop, Error)]
pub enum SliceForRequestError {
    /// An entry of the request is not known.
    #[error("entity slicing requires a fully concrete request. Got a partial request")]
    PartialRequest,
    /// The request does not conform: the first rule that it breaks.
    #[error("the request does not conform to the schema")]
    Request(RequestValidationError),
    /// The store does not conform: its first entity that breaks a rule, and the first rule that it breaks.
    #[error("the store does not conform to the schema")]
    EntityDoesNotConform(EntityDoesNotConform),
    /// The policies are not accepted: what was found.
    #[error("a validation error occurred")]
    Validation(ValidationResult),
    /// There was no memory for it.
    #[error("out of memory")]
    OutOfMemory,
}

impl From<AllocError> for SliceForRequestError {
    ghost use Rattle.std.specs.Prelude.{◌≡◌};
    ghost use Rattle.manifest_computation.specs.declared.slice_error.SliceForRequestError.TheVariants.{OutOfMemory};

    ghost from_gives = { λ _ e. e ≡ OutOfMemory };

    fn from(_error: AllocError) -> SliceForRequestError {
        SliceForRequestError::OutOfMemory
    }
}
