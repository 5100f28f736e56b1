//! Why there is no page.

use conformance::{EntityDoesNotConform, RequestValidationError};
use policy_scope::ValidationResult;
use std::alloc::AllocError;
use thiserror::Error;

/// Why there is no page of principals.
#[derive(Debug, Drop, Error)]
pub enum ListError {
    /// The request's action, resource or context is not known.
    #[error("listing principals requires a known action, resource and context. Got a partial request")]
    PartialRequest,
    /// The request, but for its principal, does not conform: the first rule that it breaks.
    #[error("the request does not conform to the schema")]
    Request(RequestValidationError),
    /// The store does not conform: its first entity that breaks a rule, and the first rule that it breaks.
    #[error("the store does not conform to the schema")]
    EntityDoesNotConform(EntityDoesNotConform),
    /// The policies are not accepted: what was found.
    #[error("a validation error occurred")]
    Validation(ValidationResult),
    /// There was no memory for it.
    #[error("out of memory")]
    OutOfMemory,
}

impl From<AllocError> for ListError {
    ghost use Rattle.std.specs.Prelude.{◌≡◌};
    ghost use Rattle.principal_listing.specs.declared.error.ListError.TheVariants.{OutOfMemory};

    ghost from_gives = { λ _ e. e ≡ OutOfMemory };

    fn from(_error: AllocError) -> ListError {
        ListError::OutOfMemory
    }
}
