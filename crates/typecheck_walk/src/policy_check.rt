//! What typing a condition comes to.

use findings::ValidationError;
use policy_expressions::Expr;
use schema_types::Type;

/// What typing the condition of a policy comes to, in an environment.
#[derive(Debug, Drop)]
pub enum PolicyCheck {
    /// It may be true: the condition, with the types of its parts.
    Success(Expr<Option<Type>>),
    /// It is false on each request of the environment: the condition, with the types of its parts.
    Irrelevant(Expr<Option<Type>>),
    /// It has no type, or is too deep to be typed: why.
    Fail(Vec<ValidationError>),
}
