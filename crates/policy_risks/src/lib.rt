//! Which policies never end with an error, and what can end the others.
#![tactic(auto)]

mod cause;
mod endings;

pub use cause::{Cause, CauseKind};
pub use endings::{Assumed, Endings, endings_of};
