//! The rules of typing over types, and what is found of an operator itself and of expressions that have
//! no type.
#![tactic(auto)]

mod attributes;
mod booleans;
mod calls;
mod compared;
mod environment;
mod error;
mod expected;
mod finding;
mod joins;
pub mod laws;
mod membership;
mod operators;
mod order;
mod own;
mod sets;
mod shapes;
mod tags;

pub use attributes::{attribute_of, has_type, is_type, optional_found, undeclared_found};
pub use booleans::{and_type, like_type, or_type, possible, unary_type};
pub use calls::{
    CalledFunction, argument_types, call_found, call_type, called_function, result_type,
};
pub use environment::{literal_type, slot_type, variable_type};
pub use error::error_of;
pub use expected::{Expected, fits, left_of, of_unary, right_of, unexpected};
pub use finding::{Finding, FindingKind, joined, one, undefined_found};
pub use joins::{no_join, strict_join};
pub use operators::{binary_given, binary_type};
pub use own::binary_own;
pub use sets::{record_type, set_found, set_type};
