//! What is answered to a request.

use crate::EntitySliceError;
use conformance::RequestValidationError;
use policy_set::Response;

/// What is answered to one of many requests.
#[derive(Debug, Drop)]
pub enum BatchAnswer {
    /// An entry of the request is not known.
    Partial,
    /// The request does not conform: the first rule that it breaks.
    Refused(RequestValidationError),
    /// What the request reads is not loaded.
    Loading(EntitySliceError),
    /// The response to the request.
    Decided(Response),
}
