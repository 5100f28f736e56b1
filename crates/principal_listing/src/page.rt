//! Pages of principals.

use policy_values::EntityUID;

/// A page of the principals that may do something.
#[derive(Debug, Drop)]
pub struct Page {
    /// Their ids, ascending.
    pub ids: Vec<EntityUID>,
    /// Whether one more that may do it follows.
    pub more: bool,
}
