//! What it says that a JSON value is read as a document.
#![tactic(auto)]

pub mod answer_laws;
pub mod laws;
pub mod sample_laws;
