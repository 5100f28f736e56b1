//! How types relate, and what is known of expressions once a condition is true.
#![tactic(auto)]

pub use type_relations::{
    LubError, SubtypeMode, TypeRelations, all_attributes, all_known_attrs, are_types_disjoint,
    has_value, is_consistent_with, is_subtype, least_upper_bound, lookup_attribute_type,
    may_have_attr, reduce_to_least_upper_bound,
};
pub use typing_spec::{Capability, CapabilitySet};
