//! Lemmas on booleans, options, orderings and lists that several crates cite. All of it is in `proofs/`.
#![tactic(auto)]

mod steps;

pub use steps::Steps;
