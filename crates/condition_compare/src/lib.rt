//! Whether an edit of policies changes a decision, from their typed conditions: by propositions, without a
//! solver.
#![tactic(auto)]

mod asked;
mod comparison;
mod condition;
mod hashes;
mod outliner;
mod sort;
mod sure;

pub use comparison::{Comparison, compare_conditions};
pub use condition::Condition;
