//! Answers as JSON texts.
#![tactic(auto)]

mod slices;
mod values;

pub use slices::{response_text, slice_text, write_entity};
pub use values::{write_fields, write_uid, write_value};
