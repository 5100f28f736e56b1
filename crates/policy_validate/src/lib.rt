//! Whether policies, requests and entity stores keep to a schema.
#![tactic(auto)]

pub mod acceptance_laws;
mod actions;
pub mod condition_laws;
mod context_schema;
mod described;
pub mod laws;
mod levels;
mod plain_types;
mod request_schema;
mod rules;
mod schema;
pub mod traits;
mod validator;

pub use conformance::{
    ConformanceError, EntityDoesNotConform, InvalidContextError, InvalidPrincipalTypeError,
    InvalidResourceTypeError, RequestValidationError, StoreRule, UndeclaredActionError,
    UndeclaredPrincipalTypeError, UndeclaredResourceTypeError, conforms, validate_request,
};
pub use context_schema::{ContextSchema, context_schema_for_action};
pub use described::EntityTypeDescription;
pub use level_validate::{level_errors, slice_at_level};
pub use policy_scope::ValidationResult;
pub use policy_typecheck::{PolicyCheck, Typechecker};
pub use request_schema::RequestSchema;
pub use rules::keep_rules;
pub use schema::CoreSchema;
pub use schema_core::ValidationMode;
pub use validator::Validator;
