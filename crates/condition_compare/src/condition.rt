//! The condition of a policy, typed.

use policy_expressions::Expr;
use schema_types::Type;

/// A condition with its types, and whether a policy permits where it is true, or forbids.
#[derive(Drop)]
pub struct Condition {
    /// Whether the policy permits.
    pub permits: bool,
    /// The condition.
    pub typed: Expr<Option<Type>>,
}
