//! Valid documents of any size, each made from a number: the same at each run.
#![tactic(auto)]

mod draws;
mod texts;

pub use texts::sample_document;
