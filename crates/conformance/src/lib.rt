//! Whether requests and stores conform to a schema.
#![tactic(auto)]

mod ids;
pub mod laws;
mod misfits;
mod request;
mod request_error;
mod store;
mod store_rule;
mod value_text;
mod written;

pub use request::validate_request;
pub use request_error::{
    InvalidContextError, InvalidPrincipalTypeError, InvalidResourceTypeError,
    RequestValidationError, UndeclaredActionError, UndeclaredPrincipalTypeError,
    UndeclaredResourceTypeError,
};
pub use store::conforms;
pub use store_rule::{ConformanceError, EntityDoesNotConform, StoreRule};
pub use written::{entity_text, request_text};
