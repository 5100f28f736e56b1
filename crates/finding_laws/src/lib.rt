//! What it says that findings are equal.
#![tactic(auto)]

pub mod laws;
