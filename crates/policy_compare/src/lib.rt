//! What an edit of policies changes: from what is found of conditions to decisions.
#![tactic(auto)]

mod action;
mod comparing;
mod edit;
pub mod laws;

pub use comparing::compare_in;
pub use condition_compare::Comparison;
pub use edit::{Edit, edit_between};
