//! Reviews of policies: on which types of requests each can be true, and how far off the request it asks for
//! entities.
#![tactic(auto)]

mod error;
pub mod laws;
mod levels;
mod matrix;
mod reviewer;
mod rows;

pub use error::ReviewError;
pub use policy_typecheck::Verdict;
pub use reviewer::review;
pub use rows::{PolicyLevel, Review, ReviewRow};
