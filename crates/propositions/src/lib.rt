//! Propositions over numbered atoms that share their parts, and whether one always holds.
#![tactic(auto)]

mod circuit;
mod known;
mod search;
mod two_sided;

pub use circuit::{Circuit, Gate};
pub use search::{Verdict, always_holds};
pub use two_sided::TwoSided;
