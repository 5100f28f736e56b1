//! How findings on policies read.
#![tactic(auto)]

mod diagnostic;
mod errors;
mod pieces;
mod rules;
mod typing;
mod validation_result;
mod written;

pub use diagnostic::Diagnostic;
pub use validation_result::ValidationResult;
pub use written::{add_help, findings_text};
