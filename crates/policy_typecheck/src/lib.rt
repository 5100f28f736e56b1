//! The typechecker: what checks of the conditions of policies come to, in one environment and in all.
#![tactic(auto)]

mod added;
mod answer;
mod bodies;
mod environments;
mod equal;
mod met;
mod no_action;
mod policies;
mod sequence;
mod slots;
mod typechecker;
mod verdict;

pub use answer::TypecheckAnswer;
pub use environments::linked_request_envs;
pub use typecheck_walk::{PolicyCheck, is_too_deep};
pub use typechecker::Typechecker;
pub use verdict::Verdict;
