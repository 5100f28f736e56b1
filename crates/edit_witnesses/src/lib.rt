//! Witnesses of edits of policies: a request and a store on which the decisions before and after differ.
#![tactic(auto)]

mod confirming;
mod defaults;
mod fixing;
mod neighbours;
mod paths;
mod place;
mod plan;
mod searching;
mod witness;
mod world;

pub use confirming::confirmed;
pub use policy_compare::Edit;
pub use searching::find_witness;
pub use typecheck_walk::Setting;
pub use witness::{Turn, Witness};
