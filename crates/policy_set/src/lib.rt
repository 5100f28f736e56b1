//! Policies, templates and links, sets of them, and the decision on a request.
#![tactic(auto)]

/// What a call gives; where it fails, what is held is dropped by calls, and the error goes up. A value that
/// is dropped on its own is taken apart by cases in the proof.
#[macro_export]
macro_rules! or_drop {
    ($fallible:expr, $($held:ident),*) => {
        match $fallible {
            Ok(value) => value,
            Err(error) => {
                $(drop($held);)*
                return Err(error.into());
            }
        }
    };
}

mod constraint;
mod decision;
pub mod laws;
mod link;
mod policy;
mod policy_set;
mod response;
mod template;

pub use constraint::{
    ActionConstraint, ActionList, Effect, EntityReference, PrincipalOrResourceConstraint,
};
pub use decision::decide;
pub use policy::Policy;
pub use policy_set::{PolicySet, PolicySetError, RemovalError};
pub use response::{Decision, PolicyFailure, Response};
pub use template::{Template, TemplateError};
