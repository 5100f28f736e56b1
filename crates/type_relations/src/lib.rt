//! How types relate: subtyping, joins, membership, attributes.
#![tactic(auto)]

mod attributes;
mod consistent;
mod disjoint;
mod join;
pub mod laws;
mod member;
mod mode;
mod subtype;
mod type_relations;

pub use attributes::{all_attributes, all_known_attrs, lookup_attribute_type, may_have_attr};
pub use consistent::is_consistent_with;
pub use disjoint::are_types_disjoint;
pub use join::{LubError, least_upper_bound, reduce_to_least_upper_bound};
pub use member::has_value;
pub use mode::SubtypeMode;
pub use subtype::is_subtype;
pub use type_relations::TypeRelations;
